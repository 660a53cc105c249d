// One plan record (§5): when it is well formed, its hold and outputs, and writing one.
// The description in specs/ is over a record's width and its edition byte, and the functions below the public calls are over the edition.
// Writing promises its whole answer and every byte of lent memory, for any N; plans of many records are left to the crates above.
#![tactic(auto)]

ghost use Rattle.std.specs.Prelude.{◌≡◌, true, ◌&&◌, ◌+◌, ◌-◌, ◌<◌, ◌≤◌, length};
ghost use Rattle.switch.specs.Result.{Gives};
ghost use Rattle.switch.specs.Editions.{first_edition, second_edition, Bounded};
ghost use Rattle.records.specs.Record.{all, hold, inside, new, later, outputs_fine, well_formed};
ghost use Rattle.records.specs.Bytes.{encode, laid};
ghost use Rattle.records.specs.Write.{written};
ghost use Rattle.records.specs.Laying.{LaidOne};

use switch::{Counts, Edition, Outcome, Refusal, first_edition, second_edition};

// Outputs follow the hold in two bytes, N and the edition's byte.
pub const HEAD: usize = 4;

// A record of the first edition has 64 outputs, in 68 bytes, and a zero byte (§5.1).
pub const OUTPUTS: usize = 64;

pub const RECORD: usize = 68;

pub const EDITION: u8 = 0;

// The output of an input that is joined to none.
pub const IDLE: u8 = 255;

// So many values has an output byte.
const BYTES: usize = 256;

// Writes one record where a lent buffer begins, or refuses with 1, 5 or 11 (§5.8).
pub fn write_record(hold: u16, n: usize, outputs: &[u8; 64], plan: &mut [u8]) -> Outcome
    ensures { Gives (written first_edition hold n outputs.now plan.old) result plan.new }
{
    write_for(hold, n, outputs, plan, first_edition())
}

// The same for a record of the second edition.
pub fn write_record_second(hold: u16, n: usize, outputs: &[u8; 128], plan: &mut [u8]) -> Outcome
    ensures { Gives (written second_edition hold n outputs.now plan.old) result plan.new }
{
    write_for(hold, n, outputs, plan, second_edition())
}

// Writes one record of an edition.
pub fn write_for(hold: u16, n: usize, outputs: &[u8], plan: &mut [u8], e: Edition) -> Outcome
    requires { Bounded e × (length outputs.now ≡ e.width) }
    ensures { Gives (written e hold n outputs.now plan.old) result plan.new }
{
    if n == 0 {
        return Err(Refusal::Ports);
    }
    if e.ports < n {
        return Err(Refusal::Ports);
    }
    if plan.len() < e.width + HEAD {
        return Err(Refusal::Room(1));
    }
    if hold == 0 {
        return Err(Refusal::Malformed(0));
    }
    if !outputs_fine(outputs, n) {
        return Err(Refusal::Malformed(0));
    }
    put_record(plan, 0, e.byte, hold, n, outputs);
    Ok(Counts {
        records: 1,
        longest: 0,
        total: u64::from(hold),
        length: 0,
        empty: 0,
    })
}

// Is a record well formed for n? Its width is what follows the head.
pub fn record_fine(rec: &[u8], n: usize, edition: u8) -> bool
    requires { (n ≤ 128) × (n + 4 ≤ length rec.now) }
    ensures { result ≡ well_formed (length rec.now - 4) edition n rec.now }
{
    if hold_of(rec) == 0 {
        return false;
    }
    if usize::from(rec[2]) != n {
        return false;
    }
    if rec[3] != edition {
        return false;
    }
    outputs_fine(&rec[HEAD..], n)
}

// The hold of a record.
pub fn hold_of(rec: &[u8]) -> u16
    requires { 4 ≤ length rec.now }
    ensures { result ≡ hold rec.now }
{
    u16::from_le_bytes([rec[0], rec[1]])
}

// Are a record's outputs fine for n?
fn outputs_fine(outputs: &[u8], n: usize) -> bool
    requires { (n ≤ 128) × (n ≤ length outputs.now) }
    ensures { result ≡ outputs_fine (length outputs.now) n outputs.now }
{
    if !setting_fine(outputs, n) {
        return false;
    }
    later_idle(outputs, n)
}

// Are the outputs of the n inputs ports or idle, and is none of the ports there twice? Most are, and of those a few looks at many outputs at
// once say so.
pub fn setting_fine(outputs: &[u8], n: usize) -> bool
    requires { (n ≤ 128) × (n ≤ length outputs.now) }
    ensures { result ≡ (all n (inside n outputs.now) && all n (new outputs.now)) }
{
    if apart::surely_fine(outputs, n) {
        return true;
    }
    told_fine(outputs, n)
}

// Are they, told output by output? What was seen is told for each byte, and no branch waits for an output.
fn told_fine(outputs: &[u8], n: usize) -> bool
    requires { (n ≤ 128) × (n ≤ length outputs.now) }
    ensures { result ≡ (all n (inside n outputs.now) && all n (new outputs.now)) }
{
    let mut seen = [false; BYTES];
    let mut fine = true;
    for b in &outputs[..n] {
        let j = usize::from(*b);
        let port = j < n;
        fine = fine & ((port & !seen[j]) | (*b == IDLE));
        seen[j] = port;
    }
    fine
}

// Is each output from n on idle? All are looked at, many at once.
fn later_idle(outputs: &[u8], n: usize) -> bool
    requires { n ≤ length outputs.now }
    ensures { result ≡ all (length outputs.now) (later n outputs.now) }
{
    let mut idle = true;
    for b in &outputs[n..] {
        idle = idle & (*b == IDLE);
    }
    idle
}

// Lays one record over a plan from `at` on; its width is the number of outputs. By a loop, as `numbers::copy` is, and for its reason.
pub fn put_record(plan: &mut [u8], at: usize, edition: u8, hold: u16, n: usize, outputs: &[u8])
    requires { (n < 256) × (at + (length outputs.now + 4) ≤ length plan.old) }
    ensures { plan.new ≡ laid plan.old at (encode edition hold n outputs.now) }
{
    plan[at] = (hold % 256) as u8;
    plan[at + 1] = (hold / 256) as u8;
    plan[at + 2] = n as u8;
    plan[at + 3] = edition;
    for i in 0..outputs.len() {
        plan[at + HEAD + i] = outputs[i];
    }
}

// The same where the record is to be written, and nothing where it is only counted; and where the next one goes.
// By it a planner that counts first and writes afterwards has one loop for both.
pub fn put_if(
    writes: bool,
    plan: &mut [u8],
    at: usize,
    edition: u8,
    hold: u16,
    n: usize,
    outputs: &[u8],
) -> usize
    requires { (n < 256) × (writes ≡ true → at + (length outputs.now + 4) ≤ length plan.old) }
    ensures { LaidOne writes edition hold n outputs.now plan.old at plan.new result }
{
    if writes {
        put_record(plan, at, edition, hold, n, outputs);
        return at + (outputs.len() + HEAD);
    }
    at
}
