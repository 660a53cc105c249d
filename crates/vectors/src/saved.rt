// Rescue: a damaged plan for a demand into a second buffer, and the list of what was dropped into a third.
use crate::tape::Step;
use crate::{show, tape};
use records::RECORD;
use std::io;

// The bytes before the cells: how many cells there are, and then how many bytes are lent for the list.
const HEAD: usize = 4;

const LISTED: usize = 2;

// The most cells that are lent.
const CELLS: usize = 4225;

// The most bytes that are lent for a plan, 8,193 records and 255 bytes, and for a list, 8,193 entries.
const ROOM: usize = 557379;

const LIST: usize = 32772;

// Rescues the plan that is laid behind the cells, into as many records and bytes as the step says.
pub fn rescue(rt: &impl Print, step: Step, laid: &[u8]) -> io::Result<()> {
    let from = tape::within(HEAD, laid);
    let size = step.room(RECORD);
    with_cells(
        rt,
        step.ports(),
        &laid[from..],
        tape::half_at(laid, 0),
        size,
        usize::from(tape::half_at(laid, LISTED)),
    )
}

// The same, the cells being the first of what is laid, and the plan the rest.
fn with_cells(
    rt: &impl Print,
    n: usize,
    laid: &[u8],
    count: u16,
    size: usize,
    listed: usize,
) -> io::Result<()> {
    let mut cells = [0u32; CELLS];
    let split = tape::within(tape::CELL * usize::from(count), laid);
    let loaded = tape::load_cells(&laid[..split], &mut cells);
    tape::lend::<ROOM, _>(size, |plan| {
        with_list(rt, n, &cells[..loaded], &laid[split..], plan, listed)
    })
}

// The same, with so many bytes for the list.
fn with_list(
    rt: &impl Print,
    n: usize,
    cells: &[u32],
    damaged: &[u8],
    plan: &mut [u8],
    listed: usize,
) -> io::Result<()> {
    tape::lend::<LIST, _>(listed, |list| {
        rescue_into(rt, n, cells, damaged, plan, list)
    })
}

// Rescues into lent bytes, and prints what comes of it.
fn rescue_into(
    rt: &impl Print,
    n: usize,
    cells: &[u32],
    damaged: &[u8],
    plan: &mut [u8],
    list: &mut [u8],
) -> io::Result<()> {
    let answer = rescue::rescue_plan(n, cells, damaged, plan, list);
    let outcome = answer.outcome;
    show::answer(rt, outcome)?;
    print!(rt; " added {} dropped {}", answer.added, answer.dropped)?;
    show::sum(rt, plan)?;
    show::sum(rt, list)?;
    show::end(rt)?;
    show::plan(rt, n, outcome, plan)
}
