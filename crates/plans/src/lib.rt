// A plan as records one after the other: opening it, reading it step by step, and checking it whole (§5).
// Every call promises its whole answer for any N and any bytes. The functions below the public calls take an edition, which says what
// its records and their number are; the `Reader` over a plan stands in a crate of its own, and what a plan grants is left to others.
#![tactic(auto)]

ghost use Rattle.std.specs.Prelude.{◌≡◌, ◌+◌, ◌<◌, ◌≤◌, length, replicate};
ghost use Rattle.switch.specs.Plan.{total};
ghost use Rattle.switch.specs.Editions.{first_edition, second_edition, Bounded};
ghost use Rattle.records.specs.Bytes.{record_at, whole};
ghost use Rattle.plans.specs.Read.{opening, step_at, Took, checking};
ghost use Rattle.plans.specs.Reading.{Readable, passing};

use records::{HEAD, IDLE};
use switch::{Counts, Edition, Outcome, Refusal, first_edition, second_edition};

// What a step over a plan finds.
#[derive(Clone, Copy)]
pub enum Step {
    // The next record.
    Record,
    // No record is left, or opening was refused.
    End,
    // Code 11, with the record's number.
    Malformed(usize),
}

// A step, the hold and outputs of its record, and the record that the next step is at. A record has W outputs.
// Where there is no record the hold is 0 and the outputs are idle: `step_at` and C tell all fields of every step.
#[derive(Clone, Copy)]
pub struct Stepped<const W: usize> {
    pub step: Step,
    pub hold: u16,
    pub outputs: [u8; W],
    pub next: usize,
}

// Opens a plan for n: refusals 1, 9 and 10, else its records.
pub fn open_plan(n: usize, plan: &[u8]) -> Outcome
    ensures { result ≡ opening first_edition n plan.now }
{
    open(n, plan, first_edition())
}

// Opens a plan of the second edition.
pub fn open_second(n: usize, plan: &[u8]) -> Outcome
    ensures { result ≡ opening second_edition n plan.now }
{
    open(n, plan, second_edition())
}

// The step at record `at` of a plan opened for n; a reader starts at record 0.
pub fn step_at(n: usize, plan: &[u8], at: usize) -> Stepped<64>
    ensures { result ≡ step_at first_edition n plan.now at }
{
    step_for(n, plan, at, first_edition())
}

// The same for a plan of the second edition.
pub fn step_second(n: usize, plan: &[u8], at: usize) -> Stepped<128>
    ensures { result ≡ step_at second_edition n plan.now at }
{
    step_for(n, plan, at, second_edition())
}

// The step at record `at` of a plan of an edition.
pub fn step_for<const W: usize>(n: usize, plan: &[u8], at: usize, e: Edition) -> Stepped<W>
    requires { Bounded e × (W ≡ e.width) }
    ensures { Took (step_at e n plan.now at) result }
{
    let Ok(counts) = open(n, plan, e) else {
        return no_record(Step::End, at);
    };
    if counts.records <= at {
        return no_record(Step::End, at);
    }
    let rec = record_at(plan, e.width, at);
    if !records::record_fine(rec, n, e.byte) {
        return no_record(Step::Malformed(at), at);
    }
    let mut outputs = [IDLE; W];
    outputs.copy_from_slice(&rec[HEAD..]);
    Stepped {
        step: Step::Record,
        hold: records::hold_of(rec),
        outputs,
        next: at + 1,
    }
}

// Opens a plan of an edition for n.
pub fn open(n: usize, plan: &[u8], e: Edition) -> Outcome
    requires { Bounded e }
    ensures { result ≡ opening e n plan.now }
{
    if n == 0 {
        return Err(Refusal::Ports);
    }
    if e.ports < n {
        return Err(Refusal::Ports);
    }
    let size = e.width + HEAD;
    let records = plan.len() / size;
    if plan.len() % size != 0 {
        return Err(Refusal::Torn(records));
    }
    if e.records < records {
        return Err(Refusal::Records(e.records));
    }
    Ok(counted(records, 0, 0))
}

// A step that gives no record, and leaves the place.
fn no_record<const W: usize>(step: Step, at: usize) -> Stepped<W>
    ensures { result ≡ record { step = step; hold = 0; outputs = replicate W 255; next = at } }
{
    Stepped {
        step,
        hold: 0,
        outputs: [IDLE; W],
        next: at,
    }
}

// Checks a whole plan of an edition for n: refusals 1, 9, 10 and 11, else its records and total.
pub fn check_plan(n: usize, plan: &[u8], e: Edition) -> Outcome
    requires { Bounded e }
    ensures { result ≡ checking e n plan.now }
{
    let records = open(n, plan, e)?.records;
    let total = judge(n, plan, e, records)?;
    Ok(counted(records, total, 0))
}

// One pass over a plan's first records, up to the first that is not well formed: each hold goes to the total.
// k names the record in a refusal.
fn judge(n: usize, plan: &[u8], e: Edition, records: usize) -> Result<u64, Refusal>
    requires { Readable e n plan.now records }
    ensures { result ≡ passing e n plan.now records total }
{
    let mut total: u64 = 0;
    for k in 0..records {
        let rec = record_at(plan, e.width, k);
        if !records::record_fine(rec, n, e.byte) {
            return Err(Refusal::Malformed(k));
        }
        total += u64::from(records::hold_of(rec));
    }
    Ok(total)
}

// What a pass over a plan counts.
pub fn counted(records: usize, total: u64, length: u64) -> Counts
    ensures { result ≡ record { records = records; longest = 0; total = total; length = length; empty = 0 } }
{
    Counts {
        records,
        longest: 0,
        total,
        length,
        empty: 0,
    }
}

// Record k of a plan.
pub fn record_at(plan: &[u8], width: usize, k: usize) -> &[u8]
    requires { (width ≤ 128) × (k < whole width plan.now) }
    ensures { result.now ≡ record_at width plan.now k }
{
    let size = width + HEAD;
    let start = k * size;
    let end = start + size;
    &plan[start..end]
}
