// The tape: a row of steps, each of eight bytes and those that follow them. A step is a letter, a small number, two numbers of two
// bytes and the number of bytes that follow, low byte first.
// A step `+` lays the bytes that follow it, as often as its first number says; any other step is a call on what is laid, and the
// bytes that follow it are its name. Any bytes can be read so: past a tape's end everything is 0.
ghost use Rattle.std.specs.Prelude.{◌≡◌, ◌+◌, ◌-◌, ◌*◌, ◌≤◌, ◌<◌, length, get_or};
ghost use Rattle.input.specs.Counts.{IsPrefixLen};

use std::io;

// The bytes of a step before those that follow it.
const STEP: usize = 8;

// The letter of a step that lays bytes.
const LAY: u8 = b'+';

// The bytes of a cell.
pub const CELL: usize = 4;

// What lent memory is filled with before a call, so that a byte left as it was is seen.
const BLANK: u8 = 170;

// One step: its letter, its numbers, and how many bytes follow it.
#[derive(Clone, Copy)]
pub struct Step {
    pub letter: u8,
    pub small: u8,
    pub first: u16,
    pub second: u16,
    pub size: u16,
}

impl Step {
    // The number of ports that a call takes.
    pub fn ports(self) -> usize
        ensures { result ≡ self.first }
    {
        usize::from(self.first)
    }

    // So many whole records of a size, and bytes more.
    pub fn room(self, whole: usize) -> usize
        requires { whole ≤ 132 }
        ensures { result ≡ self.second * whole + self.small }
    {
        usize::from(self.second) * whole + usize::from(self.small)
    }
}

// A call that a tape asks for: its step, how many bytes are laid for it, where its name starts, and where the next step does.
#[derive(Clone, Copy)]
pub struct Call {
    pub step: Step,
    pub laid: usize,
    pub name: usize,
    pub next: usize,
}

// Lays bytes up to the next call of the tape.
// A `while`: where the next step starts is known once this one is read.
pub fn next_call(tape: &[u8], at: usize, bytes: &mut [u8]) -> Call
    requires { at < length tape.now }
    ensures prefix_len { IsPrefixLen result.laid bytes.new }
    ensures at_lt_name { at < result.name }
    ensures name_le_next { result.name ≤ result.next }
    ensures next_in_bounds { result.next ≤ length tape.now }
{
    let mut laid = 0;
    let mut here = at;
    let mut step = step_at(tape, here);
    while here < tape.len() && step.letter == LAY {
        let from = forward(tape, here, STEP);
        laid = lay(tape, from, step.size, step.first, bytes, laid);
        here = forward(tape, from, usize::from(step.size));
        step = step_at(tape, here);
    }
    let name = forward(tape, here, STEP);
    Call {
        step,
        laid,
        name,
        next: forward(tape, name, usize::from(step.size)),
    }
}

// So many bytes on, or the tape's end.
fn forward(tape: &[u8], at: usize, by: usize) -> usize
    requires { at ≤ length tape.now }
    ensures { result ≡ at + by - (at + by - length tape.now) }
{
    at + by.min(tape.len() - at)
}

// The step at a place of the tape.
fn step_at(tape: &[u8], at: usize) -> Step
    requires { at ≤ length tape.now }
{
    let part = &tape[at..];
    Step {
        letter: byte_at(part, 0),
        small: byte_at(part, 1),
        first: half_at(part, 2),
        second: half_at(part, 4),
        size: half_at(part, 6),
    }
}

// Lays `size` bytes of the tape after those already laid, so many times and as far as there is room; answers how many bytes are laid then.
fn lay(tape: &[u8], at: usize, size: u16, times: u16, bytes: &mut [u8], laid: usize) -> usize
    requires at_in_bounds { at ≤ length tape.now }
    requires laid_in_bounds { laid ≤ length bytes.old }
    ensures { IsPrefixLen result bytes.new }
{
    let room = usize::from(times) * usize::from(size);
    let end = laid + room.min(bytes.len() - laid);
    let part = &tape[at..];
    let mut k = 0u16;
    for b in &mut bytes[laid..end] {
        *b = byte_at(part, usize::from(k));
        k = around(k, size);
    }
    end
}

// The index after k among `size`, and 0 after the last.
fn around(k: u16, size: u16) -> u16 {
    let next = k.saturating_add(1);
    if next < size { next } else { 0 }
}

// Reads bytes as cells, four to a cell, low byte first; answers how many there are.
pub fn load_cells(bytes: &[u8], cells: &mut [u32]) -> usize
    ensures { IsPrefixLen result cells.new }
{
    let (words, _) = bytes.as_chunks::<CELL>();
    for (cell, word) in cells.iter_mut().zip(words) {
        *cell = u32::from_le_bytes(*word);
    }
    words.len().min(cells.len())
}

// So many bytes, or all where there are fewer.
pub fn within(size: usize, bytes: &[u8]) -> usize
    ensures { IsPrefixLen result bytes.now }
{
    size.min(bytes.len())
}

// Lends a call so many bytes, or N where there are fewer. The memory is this frame's: nothing here takes any from a heap.
pub fn lend<const N: usize, F: FnOnce(&mut [u8]) -> io::Result<()>>(
    size: usize,
    call: F,
) -> io::Result<()>
    requires fits { N ≤ 4194304 }
    requires callable { F.IsAlwaysCallable call }
{
    let mut bytes = [BLANK; N];
    call(&mut bytes[..size.min(N)])
}

// Eight bytes as a number, low byte first.
pub fn long_at(bytes: &[u8], at: usize) -> u64
    requires { at ≤ 8 }
{
    u64::from(word_at(bytes, at)) + 4294967296 * u64::from(word_at(bytes, at + 4))
}

// Four bytes as a number, low byte first.
pub fn word_at(bytes: &[u8], at: usize) -> u32
    requires { at ≤ 12 }
{
    u32::from(half_at(bytes, at)) + 65536 * u32::from(half_at(bytes, at + 2))
}

// Two bytes as a number, low byte first.
pub fn half_at(bytes: &[u8], at: usize) -> u16
    requires { at ≤ 14 }
{
    u16::from_le_bytes([byte_at(bytes, at), byte_at(bytes, at + 1)])
}

// The byte at a place; 0 past the end.
pub fn byte_at(bytes: &[u8], at: usize) -> u8
    ensures { result ≡ get_or bytes.now at 0 }
{
    bytes.get(at).copied().unwrap_or(0)
}
