// One slot of the quick cover, on a working copy with a label of outputs for each input: every input in turn, from one of them around,
// takes the lowest output that is free and that it has slots left for (§8.1). Inputs without any are passed over, by a set of those that may ask.
// It promises that what was still to come is this slot's record and what is still to come of the cells it leaves, for any number of ports
// up to 128. When the slots end and where their records go is left to the crate above.
#![tactic(auto)]

ghost use Rattle.std.specs.Prelude.{◌≡◌, ℕ, ◌<◌, ◌≤◌, length, get_or};
ghost use Rattle.labels.specs.Ports.{inputs_of, outputs_of};
ghost use Rattle.slot.specs.Filled.{Copy, Waiting, Turned, Visited, StillAsking, Filled};

use board::take;
use labels::{Inputs, Outputs, row_of};
use records::IDLE;
use switch::InputPort;

// What is left to serve: no input but these has slots left, and so many slots are left in all.
#[derive(Clone, Copy)]
pub struct Rest {
    pub inputs: Inputs,
    pub left: u64,
}

// What a turn leaves: which outputs are free in this slot, and what is left to serve.
#[derive(Clone, Copy)]
pub struct Turn {
    pub free: Outputs,
    pub rest: Rest,
}

// Slot s: the inputs with slots left have their turns, those from input s mod N on and then those below it. It answers what is left
// to serve.
pub fn fill_slot(
    n: usize,
    work: &mut [u32],
    rows: &mut [Outputs],
    rest: Rest,
    s: usize,
    out: &mut [u8],
) -> Rest
    requires { Copy n rest work.old rows.old × (n ≤ length out.old) × (0 < rest.left) }
    ensures { Filled n s work.old work.new rows.new out.new result }
{
    idle_all(out);
    let first = InputPort(s % n);
    let inputs = rest.inputs;
    let begun = Turn {
        free: Outputs::every(),
        rest,
    };
    let half = visit_each(n, work, rows, inputs.from(first), begun, out);
    let whole = visit_each(n, work, rows, inputs.below(first), half, out);
    whole.rest
}

// Every input is idle.
pub fn idle_all(out: &mut [u8])
    ensures { (i : ℕ) → get_or out.new i 255 ≡ 255 }
{
    out.fill(IDLE);
}

// These inputs have their turns, the lowest first.
fn visit_each(
    n: usize,
    work: &mut [u32],
    rows: &mut [Outputs],
    inputs: Inputs,
    begun: Turn,
    out: &mut [u8],
) -> Turn
    requires { Copy n begun.rest work.old rows.old × (n ≤ length out.old) × Waiting n (inputs_of inputs) out.old }
    ensures { Visited n (inputs_of inputs) work.old rows.old out.old begun work.new rows.new out.new result }
{
    let mut ahead = inputs;
    let mut turn = begun;
    while let Some(i) = ahead.lowest() {
        turn = visit(n, work, rows, i, turn, out);
        ahead = ahead.without_lowest();
    }
    turn
}

// One input's turn: the lowest output that is free and for which it has slots left is its own for this slot, or it stays idle (§8.1).
fn visit(
    n: usize,
    work: &mut [u32],
    rows: &mut [Outputs],
    i: InputPort,
    turn: Turn,
    out: &mut [u8],
) -> Turn
    requires { Copy n turn.rest work.old rows.old × (i.0 < n) × (n ≤ length out.old) × (get_or out.old i.0 255 ≡ 255) }
    ensures { Turned n i.0 work.old out.old turn work.new rows.new out.new result }
{
    let port = i.0;
    let free = turn.free;
    let rest = turn.rest;
    let inputs = rest.inputs;
    let row = row_of(rows, i);
    let both = row.common(free);
    let Some(j) = both.lowest() else {
        return Turn {
            free,
            rest: Rest {
                inputs: still_asking(inputs, i, row),
                left: rest.left,
            },
        };
    };
    out[port] = j.0 as u8;
    take(work, n, rows, i, j, 1);
    Turn {
        free: free.without(j),
        rest: Rest {
            inputs,
            left: rest.left - 1,
        },
    }
}

// The inputs without i, where its label is empty.
fn still_asking(inputs: Inputs, i: InputPort, row: Outputs) -> Inputs
    requires { i.0 < 128 }
    ensures { StillAsking (outputs_of row) i.0 (inputs_of inputs) (inputs_of result) }
{
    match row.lowest() {
        Some(_) => inputs,
        None => inputs.without(i),
    }
}
