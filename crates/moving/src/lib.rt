// A plan moved from one edition to the other: the same holds and settings, in records of the other width (§18).
// Promised are the whole answer and every byte of the second buffer, for any N and any bytes; everything is decided before the first byte
// is written. In proofs/: a moved plan grants what it granted, and moved back it is the same bytes.
#![tactic(auto)]

ghost use Rattle.std.specs.Prelude.{◌≡◌, ◌+◌, ◌*◌, ◌≤◌, length, replicate, take};
ghost use Rattle.switch.specs.Editions.{first_edition, second_edition, Bounded};
ghost use Rattle.switch.specs.Result.{Gives};
ghost use Rattle.records.specs.Record.{decoded, outputs};
ghost use Rattle.records.specs.Bytes.{encode, plan_from, bytes, laid};
ghost use Rattle.moving.specs.Move.{movable, moved_record, moved_plan, moving, Moving};

use records::{HEAD, IDLE};
use switch::{Edition, Outcome, Refusal, first_edition, second_edition};

// The most outputs that a record of any edition has.
const PLACES: usize = 128;

// Moves a plan of the first edition to the second: refusals 1, 9, 10, 11 and 5, else the records and the total of the moved plan.
pub fn to_second(n: usize, plan: &[u8], moved: &mut [u8]) -> Outcome
    ensures { Gives (moving first_edition second_edition n plan.now moved.old) result moved.new }
{
    move_for(n, plan, first_edition(), second_edition(), moved)
}

// Moves a plan of the second edition to the first, which has fewer ports and fewer records.
pub fn to_first(n: usize, plan: &[u8], moved: &mut [u8]) -> Outcome
    ensures { Gives (moving movable first_edition n plan.now moved.old) result moved.new }
{
    move_for(n, plan, movable_edition(), first_edition(), moved)
}

// The second edition's records with the first edition's limits.
fn movable_edition() -> Edition
    ensures { result ≡ movable }
{
    Edition {
        width: switch::WIDE_PORTS,
        byte: switch::WIDE_BYTE,
        ports: switch::PORTS,
        records: switch::RECORDS,
    }
}

// Moves a plan of one edition to another whose records have an output for each port.
fn move_for(n: usize, plan: &[u8], from: Edition, to: Edition, moved: &mut [u8]) -> Outcome
    requires { Bounded from × Bounded to × (from.ports ≤ to.width) }
    ensures { Gives (moving from to n plan.now moved.old) result moved.new }
{
    let counts = plans::check_plan(n, plan, from)?;
    let records = counts.records;
    if moved.len() / (to.width + HEAD) < records {
        return Err(Refusal::Room(records));
    }
    move_records(n, plan, from.width, to, records, moved);
    Ok(counts)
}

// The first records of a plan, moved one after the other to the buffer's start. The place goes on with the record, so that none is multiplied
// out.
fn move_records(n: usize, plan: &[u8], width: usize, to: Edition, records: usize, moved: &mut [u8])
    requires { Moving n plan.now width to records moved.old }
    ensures { moved.new ≡ laid moved.old 0 (bytes to.byte n (moved_plan to.width n (plan_from width plan.now 0 records))) }
{
    let mut at: usize = 0;
    for k in 0..records {
        let rec = plans::record_at(plan, width, k);
        move_record(n, rec, to, moved, at);
        at += to.width + HEAD;
    }
}

// One record, laid from `at` on: the outputs of the n inputs, and idle ones.
fn move_record(n: usize, rec: &[u8], to: Edition, moved: &mut [u8], at: usize)
    requires { Bounded to × (n ≤ to.width) × (n + 4 ≤ length rec.now) × (at + (to.width + 4) ≤ length moved.old) }
    ensures { moved.new ≡ laid moved.old at (encode to.byte (moved_record to.width n (decoded rec.now)).hold n (moved_record to.width n (decoded rec.now)).outputs) }
{
    let mut setting = [IDLE; PLACES];
    setting[..n].copy_from_slice(&rec[HEAD..HEAD + n]);
    let width = to.width;
    records::put_record(
        moved,
        at,
        to.byte,
        records::hold_of(rec),
        n,
        &setting[..width],
    );
}
