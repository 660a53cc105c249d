// The planners of both editions: a demand into lent bytes. A plan for the grating fabric is reported too.
use crate::tape::Step;
use crate::{editions, show, tape};
use std::io;
use switch::Outcome;

// The bytes of a wavelength limit, which is laid before the cells.
pub const LIMIT: usize = 8;

// The most cells that are lent.
const CELLS: usize = 16641;

// The most bytes that are lent for a plan: 4,096 records of the first edition, and 255 bytes.
const ROOM: usize = 278783;

// Plans the cells that are laid, into as many records and bytes as the step says.
pub fn plan(rt: &impl Print, step: Step, laid: &[u8]) -> io::Result<()> {
    plan_cells(rt, step, 0, laid)
}

// The same within the wavelength limit that is laid before the cells.
pub fn plan_limited(rt: &impl Print, step: Step, laid: &[u8]) -> io::Result<()> {
    let from = tape::within(LIMIT, laid);
    plan_cells(rt, step, tape::long_at(laid, 0), &laid[from..])
}

// The same of cells alone.
fn plan_cells(rt: &impl Print, step: Step, limit: u64, laid: &[u8]) -> io::Result<()> {
    let mut cells = [0u32; CELLS];
    let count = tape::load_cells(laid, &mut cells);
    let size = editions::room_of(step);
    tape::lend::<ROOM, _>(size, |lent| {
        plan_into(rt, step.letter, step.ports(), limit, &cells[..count], lent)
    })
}

// Plans into lent bytes, and prints what comes of it.
fn plan_into(
    rt: &impl Print,
    letter: u8,
    n: usize,
    limit: u64,
    cells: &[u32],
    lent: &mut [u8],
) -> io::Result<()> {
    let outcome = planned(letter, n, limit, cells, lent);
    show::written(rt, outcome, lent)?;
    editions::show_plan(rt, letter, n, outcome, lent)?;
    if grates(letter) {
        crate::fabric::report_written(rt, n, outcome, lent)?;
    }
    Ok(())
}

// Is the planner that the letter stands for one of the grating fabric?
fn grates(letter: u8) -> bool {
    matches!(letter, b'g' | b'u')
}

// The planner that the letter stands for.
fn planned(letter: u8, n: usize, limit: u64, cells: &[u32], lent: &mut [u8]) -> Outcome {
    match letter {
        b'x' => exact::exact_plan(n, cells, lent),
        b'd' => doubled::doubled_plan(n, cells, lent),
        b'e' => doubled::doubled_plan_every_rotation(n, cells, lent),
        b'g' => grating::grating_doubled(n, cells, lent),
        b'u' => quiet::quiet_plan(n, cells, limit, lent),
        b'X' => exact::exact_plan_second(n, cells, lent),
        b'D' => doubled::doubled_plan_second(n, cells, lent),
        b'E' => doubled::doubled_plan_every_rotation_second(n, cells, lent),
        b'Q' => quick::quick_plan_second(n, cells, lent),
        _ => quick::quick_plan(n, cells, lent),
    }
}
