// What a plan does on the grating fabric, where the pair (i, j) has wavelength (j - i) mod N: the largest number of inputs on one
// wavelength, record by record (§13.3). It judges the plan as every reader of plans does, and promises its whole answer and every byte of the
// report for any N and any bytes; everything is decided before the first byte is written. Who made the plan makes no difference.
#![tactic(auto)]

ghost use Rattle.std.specs.Prelude.{◌≡◌, ◌+◌, ◌≤◌, ◌<◌, length, get_or};
ghost use Rattle.switch.specs.Result.{Gives};
ghost use Rattle.counting.specs.Sum.{most};
ghost use Rattle.records.specs.Record.{decoded};
ghost use Rattle.records.specs.Bytes.{whole, plan_from, laid};
ghost use Rattle.switch.specs.Editions.{first_edition};
ghost use Rattle.switch.specs.Demand.{Blank};
ghost use Rattle.wavelengths.specs.Shared.{wavelength, most_shared, grating_report, Shares};
ghost use Rattle.wavelengths.specs.Report.{reported};

use plans::{check_plan, record_at};
use records::{HEAD, OUTPUTS};
use switch::{InputPort, Outcome, OutputPort, Refusal, first_edition};

// The most ports that any edition's records have outputs for: a wavelength for each.
const PLACES: usize = 128;

// Reports a plan, one byte for each record: refusals 1, 9, 10, 11 and 5, else the records and the total of the plan read.
pub fn grating_report(n: usize, plan: &[u8], report: &mut [u8]) -> Outcome
    ensures { Gives (reported first_edition n plan.now report.old) result report.new }
{
    let counts = check_plan(n, plan, first_edition())?;
    let records = counts.records;
    if report.len() < records {
        return Err(Refusal::Room(records));
    }
    report_records(n, plan, OUTPUTS, &mut report[..records]);
    Ok(counts)
}

// One byte for each of a plan's first records, in order.
fn report_records(n: usize, plan: &[u8], width: usize, report: &mut [u8])
    requires { (0 < n) × (n ≤ width) × (width ≤ 128) × (length report.old ≤ whole width plan.now) }
    ensures { report.new ≡ grating_report n (plan_from width plan.now 0 (length report.old)) }
{
    for (k, most) in report.iter_mut().enumerate() {
        *most = most_shared(n, record_at(plan, width, k));
    }
}

// The most inputs of a record that share one wavelength.
fn most_shared(n: usize, rec: &[u8]) -> u8
    requires { (0 < n) × (n ≤ 128) × (n + 4 ≤ length rec.now) }
    ensures { result ≡ most_shared n (decoded rec.now) }
{
    let mut shares = [0u8; PLACES];
    count_inputs(n, rec, &mut shares);
    largest(&shares[..n])
}

// Counts each joined input at its wavelength. An idle input's 255 is no output.
fn count_inputs(n: usize, rec: &[u8], shares: &mut [u8])
    requires { (0 < n) × (n ≤ 128) × (n + 4 ≤ length rec.now) × Blank n shares.old }
    ensures { Shares n (decoded rec.now) shares.new }
{
    for i in 0..n {
        let j = usize::from(rec[HEAD + i]);
        if j < n {
            let w = wavelength_of(n, InputPort(i), OutputPort(j));
            shares[w] += 1;
        }
    }
}

// The wavelength that leads from input i to output j: (j - i) mod N.
pub fn wavelength_of(n: usize, i: InputPort, j: OutputPort) -> usize
    requires { (i.0 < n) × (j.0 < n) × (n ≤ 128) }
    ensures { (result ≡ wavelength n i.0 j.0) × (result < n) }
{
    (j.0 + (n - i.0)) % n
}

// The largest of some numbers, 0 where there are none.
fn largest(numbers: &[u8]) -> u8
    ensures { result ≡ most (length numbers.now) (λ k. get_or numbers.now k 0) }
{
    numbers.iter().copied().max().unwrap_or(0)
}
