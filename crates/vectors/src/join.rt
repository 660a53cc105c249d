// Joining: a plan of either edition into a second buffer.
use crate::tape::Step;
use crate::{editions, show, tape};
use std::io;
use switch::Outcome;

// The most bytes that are lent for a joined plan: 4,096 records of the first edition, and 255 bytes.
const ROOM: usize = 278783;

// Joins the plan that is laid, into as many records and bytes as the step says.
pub fn join(rt: &impl Print, step: Step, plan: &[u8]) -> io::Result<()> {
    tape::lend::<ROOM, _>(editions::room_of(step), |lent| {
        join_into(rt, step.letter, step.ports(), plan, lent)
    })
}

// Joins into lent bytes, and prints what comes of it.
fn join_into(
    rt: &impl Print,
    letter: u8,
    n: usize,
    plan: &[u8],
    lent: &mut [u8],
) -> io::Result<()> {
    let outcome = joined(letter, n, plan, lent);
    show::written(rt, outcome, lent)?;
    editions::show_plan(rt, letter, n, outcome, lent)
}

// Joining by the call that the letter stands for.
fn joined(letter: u8, n: usize, plan: &[u8], lent: &mut [u8]) -> Outcome {
    match letter {
        b'J' => joining::join_plan_second(n, plan, lent),
        _ => joining::join_plan(n, plan, lent),
    }
}
