// The length of a plan from anywhere (§11): its total hold, and the switching time for every record before which the mirrors move.
// Nothing is known of the bytes. The call promises its whole answer for any N, plan and switching time. A plan is gone over once.
#![tactic(auto)]

ghost use Rattle.std.specs.Prelude.{◌≡◌, ◌<◌, ◌≤◌};
ghost use Rattle.records.specs.Bytes.{whole, plan_of};
ghost use Rattle.switch.specs.Editions.{first_edition, second_edition, Bounded};
ghost use Rattle.plans.specs.Reading.{Readable, passing};
ghost use Rattle.length.specs.Length.{charge, length_counts, plan_length};

use switch::{Edition, Outcome, Refusal};

// The length of a plan at a switching time of d slots: refusals 1, 9, 10 and 11, else its length, records and total.
pub fn plan_length(n: usize, plan: &[u8], d: u16) -> Outcome
    ensures { result ≡ plan_length first_edition d n plan.now }
{
    length_for(n, plan, d, switch::first_edition())
}

// The same in the second edition.
pub fn plan_length_second(n: usize, plan: &[u8], d: u16) -> Outcome
    ensures { result ≡ plan_length second_edition d n plan.now }
{
    length_for(n, plan, d, switch::second_edition())
}

// The length of a plan of an edition.
pub fn length_for(n: usize, plan: &[u8], d: u16, e: Edition) -> Outcome
    requires { Bounded e }
    ensures { result ≡ plan_length e d n plan.now }
{
    let count = plans::open(n, plan, e)?.records;
    charge_plan(n, plan, d, e, count)
}

// One pass over a plan, up to the first record that is not well formed: each hold goes to the total, and with what the record is charged to
// the length.
// k names the record in a refusal, and tells the one before it.
fn charge_plan(n: usize, plan: &[u8], d: u16, e: Edition, count: usize) -> Outcome
    requires { Readable e n plan.now count × (count ≡ whole e.width plan.now) }
    ensures { result ≡ passing e n plan.now count (length_counts d) }
{
    let mut total: u64 = 0;
    let mut length: u64 = 0;
    for k in 0..count {
        let rec = plans::record_at(plan, e.width, k);
        if !records::record_fine(rec, n, e.byte) {
            return Err(Refusal::Malformed(k));
        }
        let hold = u64::from(records::hold_of(rec));
        total += hold;
        length += hold + charge_of(plan, e.width, k, d);
    }
    Ok(plans::counted(count, total, length))
}

// What record k of a plan is charged: the switching time for the first, and where the mirrors differ from the record before.
fn charge_of(plan: &[u8], width: usize, k: usize, d: u16) -> u64
    requires { (width ≤ 128) × (k < whole width plan.now) }
    ensures { (result ≡ charge d (plan_of width plan.now) k) × (result ≤ 65535) }
{
    let switching = u64::from(d);
    if k == 0 {
        return switching;
    }
    let left = tally::setting_at(plan, width, k - 1);
    let met = tally::setting_at(plan, width, k);
    if tally::same_outputs(left, met) {
        return 0;
    }
    switching
}
