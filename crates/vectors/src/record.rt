// Plan records of either edition: a plan read step by step, and one record written.
use crate::tape::Step;
use crate::{show, tape};
use plans::Stepped;
use std::io;
use switch::Outcome;

// The most bytes lent for one record.
const ROOM: usize = 255;

// Opens a plan and makes as many steps over it as the step of the tape says.
pub fn read(rt: &impl Print, step: Step, plan: &[u8]) -> io::Result<()> {
    show::line(rt, opened(step.letter, step.ports(), plan))?;
    let mut at = 0;
    for _ in 0..step.second {
        at = step_from(rt, step.letter, step.ports(), plan, at)?;
    }
    Ok(())
}

// What opening answers, by a reader in the first edition.
fn opened(letter: u8, n: usize, plan: &[u8]) -> Outcome {
    match letter {
        b'R' => plans::open_second(n, plan),
        _ => reader::open_answer(n, plan),
    }
}

// Makes and prints the step at a record; and the record that the next is at.
fn step_from(rt: &impl Print, letter: u8, n: usize, plan: &[u8], at: usize) -> io::Result<usize> {
    match letter {
        b'R' => show_step(rt, plans::step_second(n, plan, at)),
        _ => show_step(rt, reader::step_from(n, plan, at)),
    }
}

// What a step of either edition gave; and the record that the next is at.
fn show_step<const W: usize>(rt: &impl Print, stepped: Stepped<W>) -> io::Result<usize> {
    match stepped.step {
        plans::Step::Record => print!(rt; "record")?,
        plans::Step::End => print!(rt; "end")?,
        plans::Step::Malformed(k) => print!(rt; "malformed {k}")?,
    }
    print!(rt; " hold {}", stepped.hold)?;
    show::sum(rt, &stepped.outputs)?;
    show::end(rt)?;
    Ok(stepped.next)
}

// Writes one record of the outputs that are laid, into as many bytes as the step's small number says.
pub fn write(rt: &impl Print, step: Step, laid: &[u8]) -> io::Result<()> {
    tape::lend::<ROOM, _>(usize::from(step.small), |lent| {
        write_into(rt, step.letter, step.second, step.ports(), laid, lent)
    })
}

// Writes one record into lent bytes.
fn write_into(
    rt: &impl Print,
    letter: u8,
    hold: u16,
    n: usize,
    laid: &[u8],
    lent: &mut [u8],
) -> io::Result<()> {
    let outcome = wrote(letter, hold, n, laid, lent);
    show::written(rt, outcome, lent)
}

// Writing by the call that the letter stands for.
fn wrote(letter: u8, hold: u16, n: usize, laid: &[u8], lent: &mut [u8]) -> Outcome {
    match letter {
        b'W' => records::write_record_second(hold, n, &outputs_of(laid), lent),
        _ => records::write_record(hold, n, &outputs_of(laid), lent),
    }
}

// The first bytes that are laid, as the outputs of an edition; 0 where there are fewer.
fn outputs_of<const W: usize>(laid: &[u8]) -> [u8; W] {
    let mut outputs = [0u8; W];
    for (output, byte) in outputs.iter_mut().zip(laid) {
        *output = *byte;
    }
    outputs
}
