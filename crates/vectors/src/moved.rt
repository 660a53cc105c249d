// Moving: a plan of one edition into a second buffer as one of the other, and what was written back again.
ghost use Rattle.std.specs.Prelude.{◌≡◌, length};

use crate::tape::Step;
use crate::{editions, show, tape};
use std::io;
use switch::Outcome;

// The most bytes that are lent for a moved plan: 8,192 records of the second edition, and 255 bytes.
const ROOM: usize = 1081599;

// The most bytes that are lent for one that is moved back: 2,048 records of the first edition.
const BACK: usize = 139264;

// Moves the plan that is laid, into as many records and bytes as the step says, and back.
pub fn move_plan(rt: &impl Print, step: Step, plan: &[u8]) -> io::Result<()> {
    tape::lend::<ROOM, _>(editions::room_of(step), |lent| {
        there_and_back(rt, step.letter, step.ports(), plan, lent)
    })
}

// Moves a plan into lent bytes, and what is there then back into as many bytes as were read.
fn there_and_back(
    rt: &impl Print,
    letter: u8,
    n: usize,
    plan: &[u8],
    lent: &mut [u8],
) -> io::Result<()> {
    let outcome = moved(letter, n, plan, lent);
    show::written(rt, outcome, lent)?;
    let count = switch::numbers_of(outcome).counts.records;
    let size = tape::within(editions::size_of(letter, count), lent);
    print!(rt; "and back:")?;
    tape::lend::<BACK, _>(plan.len(), |room| {
        move_into(rt, back(letter), n, &lent[..size], room)
    })
}

// The letter of the call that moves a plan back.
fn back(letter: u8) -> u8 {
    match letter {
        b'2' => b'1',
        _ => b'2',
    }
}

// Moves a plan into lent bytes, and prints what comes of it.
fn move_into(rt: &impl Print, letter: u8, n: usize, plan: &[u8], lent: &mut [u8]) -> io::Result<()>
    ensures { length lent.new ≡ length lent.old }
{
    let outcome = moved(letter, n, plan, lent);
    show::written(rt, outcome, lent)
}

// The move that the letter stands for.
fn moved(letter: u8, n: usize, plan: &[u8], lent: &mut [u8]) -> Outcome {
    match letter {
        b'2' => moving::to_second(n, plan, lent),
        _ => moving::to_first(n, plan, lent),
    }
}
