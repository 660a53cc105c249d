// Peeling a working copy: filled and labelled, then one full setting after the other taken off it, the first in dictionary order each time.
// A step promises that what is left to plan is the record it took, held for the smallest cell, and then what is left afterwards.
// The matching is kept from step to step: only emptied pairs are released. What becomes of the records is left to the planners.
#![tactic(auto)]

ghost use Rattle.std.specs.Prelude.{◌≡◌, ℕ, ◌<◌, ◌≤◌, length};
ghost use Rattle.sets.specs.Label.{In, Upto};
ghost use Rattle.labels.specs.Ports.{outputs_of, inputs_of};
ghost use Rattle.peel.specs.Standing.{Cells, Started, left, Standing, Giving, Released, Taken};

use labels::{Inputs, Outputs};
use matching::{Seats, next_setting};
use search::Pairs;

// A setting that was taken off: how long it is held, and who sits where for the next one.
#[derive(Clone, Copy)]
pub struct Step {
    pub hold: u32,
    pub seats: Seats,
}

// The cells are filled to T, and each input gets its label.
pub fn start(work: &mut [u32], n: usize, longest: u64, rows: &mut [Outputs])
    requires { Cells n longest work.old × (length rows.old ≡ n) }
    ensures { Started n longest work.old work.new rows.new }
{
    board::fill_up(work, n, longest);
    board::label_rows(work, n, rows);
}

// Before the first setting every input waits, and nobody holds an output.
pub fn nobody(n: usize) -> Seats
    requires { n ≤ 128 }
    ensures { Upto n (inputs_of result.waiting) × ((k : ℕ) → In (outputs_of result.held) k → ⊥) }
{
    Seats {
        waiting: Inputs::first(n),
        held: Outputs::none(),
    }
}

// Takes the first setting off the working copy, for as long as its smallest cell; the pairs have its outputs.
pub fn take_off(
    work: &mut [u32],
    n: usize,
    rows: &mut [Outputs],
    pairs: &mut Pairs,
    seats: Seats,
) -> Step
    requires { Standing n work.old rows.old pairs.old.by pairs.old.out seats × (0 < left n work.old) }
    ensures { Taken n work.old work.new rows.new pairs.new.by pairs.new.out result.hold result.seats }
{
    next_setting(rows, pairs, seats);
    let hold = board::smallest(work, n, &pairs.out);
    let emptied = board::subtract(work, n, rows, &pairs.out, hold);
    let held = release_all(emptied, pairs);
    Step {
        hold,
        seats: Seats {
            waiting: emptied,
            held,
        },
    }
}

// These inputs give their outputs up, which can be had at once; the answer has every other.
fn release_all(emptied: Inputs, pairs: &mut Pairs) -> Outputs
    requires { Giving (inputs_of emptied) pairs.old.out pairs.old.by }
    ensures { Released (inputs_of emptied) pairs.old.out pairs.old.by pairs.new.by (outputs_of result) × (pairs.new.out ≡ pairs.old.out) }
{
    let mut rest = emptied;
    let mut held = Outputs::every();
    while let Some(i) = rest.lowest() {
        let j = pairs.output_of(i);
        pairs.release(j);
        held = held.without(j);
        rest = rest.without_lowest();
    }
    held
}
