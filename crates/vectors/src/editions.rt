// The two editions of plans: a capital letter stands for a call of the second edition, and so does `2`, which moves a plan to it.
ghost use Rattle.std.specs.Prelude.{◌*◌, ◌≤◌};

use crate::show;
use crate::tape::Step;
use std::io;
use switch::Outcome;

// The bytes of a record of the second edition.
const WIDE_RECORD: usize = 132;

// The bytes that a step lends for a plan: so many whole records, and bytes more.
pub fn room_of(step: Step) -> usize {
    step.room(record_of(step.letter))
}

// The bytes of so many records of the plan that the letter's call writes.
pub fn size_of(letter: u8, records: usize) -> usize
    ensures { result ≤ 132 * records }
{
    records.saturating_mul(record_of(letter))
}

// The bytes of a record of that plan.
fn record_of(letter: u8) -> usize
    ensures { result ≤ 132 }
{
    if is_second(letter) {
        WIDE_RECORD
    } else {
        records::RECORD
    }
}

// Is that plan one of the second edition?
fn is_second(letter: u8) -> bool {
    matches!(letter, b'2' | b'A'..=b'Z')
}

// Prints a short plan that was written, if it is of the first edition; of the second's the checksum tells enough.
pub fn show_plan(
    rt: &impl Print,
    letter: u8,
    n: usize,
    outcome: Outcome,
    bytes: &[u8],
) -> io::Result<()> {
    if is_second(letter) {
        return Ok(());
    }
    show::plan(rt, n, outcome, bytes)
}
