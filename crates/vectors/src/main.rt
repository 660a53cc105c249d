// Runs the stored cases of a tape through the library and prints what each call answers: a line for the call, after the case's
// name, and lines for what it gives. stdin and stdout are made by makers/vectors.py from a reference in another language, which
// shares nothing with the code that is run here; makers/tape.py says what each letter of a tape calls.
// It promises that every case of any tape is run safely; that the answers are right is for the comparison.
#![tactic(auto)]

mod check;
mod console;
mod editions;
mod fabric;
mod join;
mod list;
mod moved;
mod plan;
mod record;
mod rooms;
mod saved;
mod schedule;
mod show;
mod tape;
mod wished;

ghost use Rattle.std.specs.Prelude.{◌≤◌, ◌<◌, length, IfOk};

use std::io;
use tape::Step;

// The most bytes of a tape. With what is laid and lent for a call they must fit a stack of 8 MiB.
const TAPE: usize = 1572864;

// The most bytes laid for one call: the cells of 129 ports, and a plan of a record and a byte more than may be read in the second edition.
const LAID: usize = 4392073;

fn main(rt: HostRuntime) -> io::Result<()> {
    let mut tape = [0u8; TAPE];
    let size = input::read_full(&mut rt.stdin(), &mut tape)?;
    run_all(&rt, &tape[..size])
}

// Call after call, up to the tape's end.
// A `while`: where the next call starts is known once this one is read.
fn run_all(rt: &impl Print, tape: &[u8]) -> io::Result<()> {
    let mut at = 0;
    while at < tape.len() {
        at = run_next(rt, tape, at)?;
    }
    Ok(())
}

// Makes the next call of the tape, and answers where the step after it starts.
fn run_next(rt: &impl Print, tape: &[u8], at: usize) -> io::Result<usize>
    requires { at < length tape.now }
    ensures { IfOk result (λ next. (at < next) × (next ≤ length tape.now)) }
{
    let mut bytes = [0u8; LAID];
    run_with(rt, tape, at, &mut bytes)
}

// The same with an array to lay bytes in: its length is known by its type, and nobody has to count so many bytes.
fn run_with(rt: &impl Print, tape: &[u8], at: usize, bytes: &mut [u8; LAID]) -> io::Result<usize>
    requires { at < length tape.now }
    ensures { IfOk result (λ next. (at < next) × (next ≤ length tape.now)) }
{
    run_call(rt, tape, at, bytes)
}

// The same with any bytes to lay in.
fn run_call(rt: &impl Print, tape: &[u8], at: usize, bytes: &mut [u8]) -> io::Result<usize>
    requires { at < length tape.now }
    ensures { IfOk result (λ next. (at < next) × (next ≤ length tape.now)) }
{
    let call = tape::next_call(tape, at, bytes);
    let name = call.name;
    let next = call.next;
    let laid = call.laid;
    show::text(rt, &tape[name..next])?;
    run(rt, call.step, &bytes[..laid])?;
    Ok(next)
}

// The call that the step's letter stands for.
// Its module matches the letter again: as an enum it would be told from the letter first, and then matched just so.
fn run(rt: &impl Print, step: Step, laid: &[u8]) -> io::Result<()> {
    let letter = step.letter;
    match letter {
        b'x' | b'd' | b'e' | b'q' | b'g' | b'X' | b'D' | b'E' | b'Q' => plan::plan(rt, step, laid),
        b'u' => plan::plan_limited(rt, step, laid),
        b'y' => fabric::least(rt, step.ports(), laid),
        b'k' | b'K' => check::check(rt, step, laid),
        b'l' | b'L' => check::length(rt, step, laid),
        b'j' | b'J' => join::join(rt, step, laid),
        b'1' | b'2' => moved::move_plan(rt, step, laid),
        b'f' => fabric::report(rt, step.ports(), laid, usize::from(step.second)),
        b'r' | b'R' => record::read(rt, step, laid),
        b'w' | b'W' => record::write(rt, step, laid),
        b'b' => wished::patterns(rt, laid),
        b's' | b'S' => wished::read(rt, step, laid),
        b't' => list::list(rt, laid),
        b'i' => console::in_force(rt, step, laid),
        b'c' => console::carry_over(rt, step, laid),
        b'm' => rooms::room(rt, step.small, laid),
        b'o' => schedule::plan(rt, step, laid),
        b'a' => schedule::read(rt, step.ports(), laid),
        b'v' => saved::rescue(rt, step, laid),
        _ => println!(rt; " no such call"),
    }
}
