// What is printed: the answer of a call as words and numbers, a checksum of bytes, and a short plan record by record.
// How numbers become digits is left to `std`.
ghost use Rattle.std.specs.Prelude.{◌+◌, ◌≤◌, ◌<◌, length};

use records::{HEAD, IDLE, RECORD};
use std::io;
use switch::{Counts, Outcome, Refusal, Side};

// The most records of a plan that are printed; of a longer one the checksum tells enough.
const SHORT: usize = 6;

// The largest prime below 2^32.
const PRIME: u64 = 4294967291;

// What a call answered, in a line.
pub fn line(rt: &impl Print, o: Outcome) -> io::Result<()> {
    answer(rt, o)?;
    end(rt)
}

// The same with a checksum of the memory that was lent to it.
pub fn written(rt: &impl Print, o: Outcome, lent: &[u8]) -> io::Result<()> {
    answer(rt, o)?;
    sum(rt, lent)?;
    end(rt)
}

// What a call answered: code, place, side, and its counts.
pub fn answer(rt: &impl Print, o: Outcome) -> io::Result<()> {
    let told = switch::numbers_of(o);
    print!(rt; " code {} place {}", told.code, told.place)?;
    side(rt, o)?;
    let counts = told.counts;
    counted(rt, counts)
}

fn counted(rt: &impl Print, counts: Counts) -> io::Result<()> {
    print!(rt; " records {} longest {}", counts.records, counts.longest)?;
    print!(rt;
        " total {} length {} empty {}",
        counts.total, counts.length, counts.empty
    )
}

// The side of the line that is refused, a dash where none is.
fn side(rt: &impl Print, o: Outcome) -> io::Result<()> {
    match o {
        Err(Refusal::Line(Side::Input(_))) => print!(rt; " side input"),
        Err(Refusal::Line(Side::Output(_))) => print!(rt; " side output"),
        _ => print!(rt; " side -"),
    }
}

// The checksum of bytes, or of cells.
pub fn sum<T: Copy + Into<u32>>(rt: &impl Print, items: &[T]) -> io::Result<()> {
    let sum = checksum(items);
    print!(rt; " sum {sum}")
}

// A number made of items that changes where one item, or their number, does.
fn checksum<T: Copy + Into<u32>>(items: &[T]) -> u64 {
    let mut sum = 1;
    for item in items {
        let number: u32 = (*item).into();
        sum = summed(sum, number);
    }
    sum
}

// A checksum with one number more, which counts one more than it is, so that zeros count too.
fn summed(sum: u64, number: u32) -> u64
    requires { sum < 4294967291 }
    ensures { result < 4294967291 }
{
    (sum * 257 + u64::from(number) + 1) % PRIME
}

// The records of a plan that was written, if they are few: a line each, hold, then the outputs of the first n inputs.
pub fn plan(rt: &impl Print, n: usize, o: Outcome, bytes: &[u8]) -> io::Result<()> {
    let count = switch::numbers_of(o).counts.records;
    let (records, _) = bytes.as_chunks::<RECORD>();
    if count > SHORT || records.len() < count || n > switch::PORTS {
        return Ok(());
    }
    for bytes in &records[..count] {
        record(rt, n, bytes)?;
    }
    Ok(())
}

// One record.
fn record(rt: &impl Print, n: usize, bytes: &[u8]) -> io::Result<()>
    requires { n + 4 ≤ length bytes.now }
{
    let hold = records::hold_of(bytes);
    print!(rt; "{hold}")?;
    for byte in &bytes[HEAD..HEAD + n] {
        output(rt, *byte)?;
    }
    end(rt)
}

// An output, a dash where the input is idle.
fn output(rt: &impl Print, byte: u8) -> io::Result<()> {
    if byte == IDLE {
        print!(rt; " -")
    } else {
        print!(rt; " {byte}")
    }
}

// The cells, a space before each.
pub fn cells(rt: &impl Print, slots: &[u32]) -> io::Result<()> {
    for slot in slots {
        print!(rt; " {slot}")?;
    }
    Ok(())
}

// Ends a line.
pub fn end(rt: &impl Print) -> io::Result<()> {
    println!(rt;)
}

// Words.
pub fn text(rt: &impl Print, words: &[u8]) -> io::Result<()> {
    rt.write_all(words)
}
