// The console: the record in force at a slot of two plans, and what a stopped batch leaves to ask.
use crate::tape::Step;
use crate::{show, tape};
use carry::Carried;
use records::RECORD;
use std::io;
use switch::{About, Outcome};

// The bytes of a slot, and those before a carry-over's cells.
const SLOT: usize = 8;

const HEAD: usize = 12;

// Where the numbers of cells stand that were asked and are wished.
const ASKED: usize = 8;

const WISHED: usize = 10;

// The most cells that are lent, and what each holds before the call, so that a cell left as it was is seen.
const CELLS: usize = 4225;

const BEFORE: u32 = 7;

// The record in force at the slot that is laid first. Of the plans behind it tonight's has as many records, and bytes more, as the step says.
pub fn in_force(rt: &impl Print, step: Step, laid: &[u8]) -> io::Result<()> {
    let from = tape::within(SLOT, laid);
    let size = step.room(RECORD);
    look_up(
        rt,
        step.ports(),
        &laid[from..],
        size,
        tape::long_at(laid, 0),
    )
}

// The same, of plans one behind the other of which the first has so many bytes.
fn look_up(rt: &impl Print, n: usize, plans: &[u8], size: usize, slot: u64) -> io::Result<()> {
    let split = tape::within(size, plans);
    find(rt, n, &plans[..split], &plans[split..], slot)?;
    part(rt, n, &plans[..split], &plans[split..], slot)
}

// The lookup's answer in numbers.
fn find(rt: &impl Print, n: usize, tonight: &[u8], standby: &[u8], slot: u64) -> io::Result<()> {
    let found = lookup::find(n, tonight, standby, slot);
    let outcome = found.outcome;
    let about = found.about;
    named(rt, outcome, about)?;
    print!(rt;
        " plan {} start {} size {}",
        found.plan, found.start, found.size
    )
}

// A checksum of the part that is lent out.
fn part<'a>(
    rt: &impl Print,
    n: usize,
    tonight: &'a [u8],
    standby: &'a [u8],
    slot: u64,
) -> io::Result<()> {
    show::sum(rt, lookup::part_in_force(n, tonight, standby, slot))?;
    show::end(rt)
}

// An answer and what it is about.
fn named(rt: &impl Print, o: Outcome, about: About) -> io::Result<()> {
    show::answer(rt, o)?;
    print!(rt; " about {}", switch::about_number(about))
}

// A carry-over into as many cells as the step says. The number of first records and how many cells were asked and are wished are laid
// first, then those cells and the plan.
pub fn carry_over(rt: &impl Print, step: Step, laid: &[u8]) -> io::Result<()> {
    let from = tape::within(HEAD, laid);
    carry_asked(
        rt,
        step.ports(),
        &laid[from..],
        tape::half_at(laid, ASKED),
        tape::half_at(laid, WISHED),
        tape::long_at(laid, 0) as usize,
        usize::from(step.second),
    )
}

// The same, the cells that were asked being the first of what is laid.
fn carry_asked(
    rt: &impl Print,
    n: usize,
    laid: &[u8],
    asks: u16,
    wishes: u16,
    first: usize,
    size: usize,
) -> io::Result<()> {
    let mut asked = [0u32; CELLS];
    let split = tape::within(tape::CELL * usize::from(asks), laid);
    let count = tape::load_cells(&laid[..split], &mut asked);
    carry_wished(rt, n, &asked[..count], &laid[split..], wishes, first, size)
}

// The same, the new wishes being the first of what is laid, and the plan the rest.
fn carry_wished(
    rt: &impl Print,
    n: usize,
    asked: &[u32],
    laid: &[u8],
    wishes: u16,
    first: usize,
    size: usize,
) -> io::Result<()> {
    let mut wished = [0u32; CELLS];
    let split = tape::within(tape::CELL * usize::from(wishes), laid);
    let count = tape::load_cells(&laid[..split], &mut wished);
    carry_within(rt, n, asked, &laid[split..], first, &wished[..count], size)
}

// The same into so many cells, which are made here, since `lend` has bytes.
fn carry_within(
    rt: &impl Print,
    n: usize,
    asked: &[u32],
    plan: &[u8],
    first: usize,
    wished: &[u32],
    size: usize,
) -> io::Result<()> {
    let mut cells = [BEFORE; CELLS];
    let lent = size.min(CELLS);
    carry_into(rt, n, asked, plan, first, wished, &mut cells[..lent])
}

// The call's answer in a line, and the cells after it in another.
fn carry_into(
    rt: &impl Print,
    n: usize,
    asked: &[u32],
    plan: &[u8],
    first: usize,
    wished: &[u32],
    cells: &mut [u32],
) -> io::Result<()> {
    carried(rt, carry::carry_over(n, asked, plan, first, wished, cells))?;
    show::end(rt)?;
    show::cells(rt, cells)?;
    show::end(rt)
}

// A carry-over's answer: nothing is counted.
fn carried(rt: &impl Print, answer: Carried) -> io::Result<()> {
    match answer {
        Ok(()) => named(rt, Ok(plans::counted(0, 0, 0)), About::Nothing),
        Err(blamed) => named(rt, Err(blamed.refusal), blamed.about),
    }
}
