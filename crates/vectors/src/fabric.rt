// The grating fabric: what a plan does to the wavelengths, and the least total within a limit.
use crate::plan::LIMIT;
use crate::{show, tape};
use records::RECORD;
use std::io;
use switch::Outcome;

// The most cells that are lent.
const CELLS: usize = 4225;

// The most bytes that are lent for a report.
const ROOM: usize = 8448;

// Reports of up to so many records are printed, and a plan that was just written is reported into so many bytes.
const SHORT: usize = 128;

// Reports the plan that was just written at the start of lent bytes.
pub fn report_written(rt: &impl Print, n: usize, outcome: Outcome, lent: &[u8]) -> io::Result<()> {
    let count = switch::numbers_of(outcome).counts.records;
    let size = tape::within(count.saturating_mul(RECORD), lent);
    print!(rt; "reported:")?;
    report(rt, n, &lent[..size], SHORT)
}

// The least total of a plan of the cells within the wavelength limit that is laid before them.
pub fn least(rt: &impl Print, n: usize, laid: &[u8]) -> io::Result<()> {
    let mut cells = [0u32; CELLS];
    let from = tape::within(LIMIT, laid);
    let count = tape::load_cells(&laid[from..], &mut cells);
    let limit = tape::long_at(laid, 0);
    show::line(rt, least::least_within(n, &cells[..count], limit))
}

// Reports a plan, into so many bytes.
pub fn report(rt: &impl Print, n: usize, plan: &[u8], size: usize) -> io::Result<()> {
    tape::lend::<ROOM, _>(size, |lent| report_into(rt, n, plan, lent))
}

// Reports into lent bytes, and prints what comes of it.
fn report_into(rt: &impl Print, n: usize, plan: &[u8], lent: &mut [u8]) -> io::Result<()> {
    let outcome = wavelengths::grating_report(n, plan, lent);
    show::written(rt, outcome, lent)?;
    numbers(rt, outcome, lent)
}

// The numbers of a report, if they are few, in a line.
fn numbers(rt: &impl Print, outcome: Outcome, report: &[u8]) -> io::Result<()> {
    let records = switch::numbers_of(outcome).counts.records;
    if SHORT < records {
        return Ok(());
    }
    let count = tape::within(records, report);
    for number in &report[..count] {
        print!(rt; " {number}")?;
    }
    show::end(rt)
}
