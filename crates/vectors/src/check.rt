// A plan from anywhere, of either edition: the checker and the length.
use crate::tape::Step;
use crate::{show, tape};
use std::io;
use switch::Outcome;

// The most cells that are lent.
const CELLS: usize = 16641;

// Checks a plan against a demand: of what is laid, so many cells come first.
pub fn check(rt: &impl Print, step: Step, laid: &[u8]) -> io::Result<()> {
    let mut cells = [0u32; CELLS];
    let split = tape::within(tape::CELL * usize::from(step.second), laid);
    let lent = tape::load_cells(&laid[..split], &mut cells);
    show::line(
        rt,
        checked(step.letter, step.ports(), &cells[..lent], &laid[split..]),
    )
}

// The checker that the letter stands for.
fn checked(letter: u8, n: usize, cells: &[u32], plan: &[u8]) -> Outcome {
    match letter {
        b'K' => checker::check_plan_second(n, cells, plan),
        _ => checker::check_plan(n, cells, plan),
    }
}

// The length of the plan that is laid, at the switching time that the step says.
pub fn length(rt: &impl Print, step: Step, plan: &[u8]) -> io::Result<()> {
    show::line(rt, measured(step.letter, step.ports(), plan, step.second))
}

// The length by the call that the letter stands for.
fn measured(letter: u8, n: usize, plan: &[u8], d: u16) -> Outcome {
    match letter {
        b'L' => length::plan_length_second(n, plan, d),
        _ => length::plan_length(n, plan, d),
    }
}
