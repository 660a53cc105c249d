// The open shop: a demand into task records, which are read again, and the reader by itself.
use crate::tape::Step;
use crate::{show, tape};
use std::io;
use tasks::{END, START, TASK};

// The bytes of a switching time, which is laid before the cells.
const TIME: usize = 2;

// The most cells that are lent.
const CELLS: usize = 4225;

// The most bytes that are lent for tasks: 4,097 records, and 255 bytes.
const ROOM: usize = 49419;

// Schedules of up to so many tasks are printed.
const SHORT: usize = 12;

// Plans the cells that are laid behind a switching time, into as many records and bytes as the step says.
pub fn plan(rt: &impl Print, step: Step, laid: &[u8]) -> io::Result<()> {
    let mut cells = [0u32; CELLS];
    let from = tape::within(TIME, laid);
    let count = tape::load_cells(&laid[from..], &mut cells);
    let d = tape::half_at(laid, 0);
    let size = step.room(TASK);
    tape::lend::<ROOM, _>(size, |lent| {
        plan_into(rt, step.ports(), &cells[..count], d, lent)
    })
}

// Plans into lent bytes, and prints what comes of it.
fn plan_into(rt: &impl Print, n: usize, cells: &[u32], d: u16, lent: &mut [u8]) -> io::Result<()> {
    let outcome = shop::shop_plan(n, cells, d, lent);
    show::written(rt, outcome, lent)?;
    let count = switch::numbers_of(outcome).counts.records;
    let size = tape::within(count.saturating_mul(TASK), lent);
    print_all(rt, &lent[..size])?;
    print!(rt; "read again:")?;
    read(rt, n, &lent[..size])
}

// Reads tasks, and prints what is answered.
pub fn read(rt: &impl Print, n: usize, bytes: &[u8]) -> io::Result<()> {
    show::line(rt, tasks::read_tasks(n, bytes))
}

// The tasks of a schedule, if they are few, a line each.
fn print_all(rt: &impl Print, bytes: &[u8]) -> io::Result<()> {
    let (all, _) = bytes.as_chunks::<TASK>();
    if SHORT < all.len() {
        return Ok(());
    }
    for one in all {
        print_one(rt, one)?;
    }
    Ok(())
}

// Input, output, start and end.
fn print_one(rt: &impl Print, one: &[u8]) -> io::Result<()> {
    let (input, output) = (tape::byte_at(one, 0), tape::byte_at(one, 1));
    let (start, end) = (tape::word_at(one, START), tape::word_at(one, END));
    println!(rt; " {input} {output} {start} {end}")
}
