// The room beforehand: how many records always suffice, from N and T alone.
use crate::{show, tape};
use std::io;
use switch::Outcome;

// Where T is laid, behind N.
const LONGEST: usize = 8;

// The room of the planner that a number stands for, for the N and the T that are laid.
pub fn room(rt: &impl Print, planner: u8, laid: &[u8]) -> io::Result<()> {
    let n = tape::long_at(laid, 0) as usize;
    show::line(rt, room_of(planner, n, tape::long_at(laid, LONGEST)))
}

// The planners of the first edition, then those of the second.
// The tape has their numbers, which are matched once, where the calls are.
fn room_of(planner: u8, n: usize, longest: u64) -> Outcome {
    match planner {
        0 => room::exact_room(n, longest),
        1 => room::doubled_room(n, longest),
        2 => room::quick_room(n, longest),
        3 => room::exact_room_second(n, longest),
        4 => room::doubled_room_second(n, longest),
        _ => room::quick_room_second(n, longest),
    }
}
