// Wishes: single patterns of 32 bits, and wish lists into lent cells.
use crate::show;
use crate::tape::Step;
use std::io;
use switch::Outcome;

// The bytes of a pattern, and its digits as printed.
const PATTERN: usize = 4;

const HEX_DIGITS: usize = 8;

// The most cells that are lent, and what each holds before the call, so that a cell left as it was is seen.
const CELLS: usize = 16641;

const BEFORE: u32 = 7;

// So many cells are printed; of more the checksum tells enough.
const FEW: usize = 4096;

// A line for each whole pattern that is laid: its bits, its code, its slots.
pub fn patterns(rt: &impl Print, laid: &[u8]) -> io::Result<()> {
    let (all, _) = laid.as_chunks::<PATTERN>();
    for bytes in all {
        pattern(rt, u32::from_le_bytes(*bytes))?;
    }
    Ok(())
}

fn pattern(rt: &impl Print, bits: u32) -> io::Result<()> {
    let wish = wish::of_bits(bits);
    print!(rt; "{bits:0HEX_DIGITS$x}")?;
    println!(rt; " {} {}", wish::code_of(wish), wish::slots_of(wish))
}

// Reads the wish list that is laid into as many cells as the step says. Cells are made here, since `lend` has bytes.
pub fn read(rt: &impl Print, step: Step, list: &[u8]) -> io::Result<()> {
    let mut cells = [BEFORE; CELLS];
    let count = CELLS.min(usize::from(step.second));
    read_into(rt, step.letter, step.ports(), list, &mut cells[..count])
}

// The call's answer in a line, and the cells after it in another.
fn read_into(
    rt: &impl Print,
    letter: u8,
    n: usize,
    list: &[u8],
    cells: &mut [u32],
) -> io::Result<()> {
    show::line(rt, wishes_of(letter, n, list, cells))?;
    show_cells(rt, cells)?;
    show::end(rt)
}

// The wish list by the call that the letter stands for.
fn wishes_of(letter: u8, n: usize, list: &[u8], cells: &mut [u32]) -> Outcome {
    match letter {
        b'S' => wishes::wishes_second(n, list, cells),
        _ => wishes::wishes(n, list, cells),
    }
}

// The cells, or their checksum where they are many.
fn show_cells(rt: &impl Print, cells: &[u32]) -> io::Result<()> {
    if FEW < cells.len() {
        return show::sum(rt, cells);
    }
    show::cells(rt, cells)
}
