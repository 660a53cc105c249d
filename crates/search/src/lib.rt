// Outputs are freed by waves (§6.7): inputs ask for outputs, and an output that is held asks whoever holds it to move, two functions in a cycle.
// The crate takes a label of outputs for each input and the tables of a matching, and promises that one of the outputs asked for is free
// afterwards, with every input that held an output still holding one, or that none can be. Who asks for what, and in which order, is left
// to the crate above.
#![tactic(auto)]

ghost use Rattle.std.specs.Prelude.{◌≡◌, ℕ, ◌+◌, ◌<◌, ◌≤◌, length, set, replicate};
ghost use Rattle.sets.specs.Label.{In, Marked, Union};
ghost use Rattle.labels.specs.Ports.{outputs_of, Untried};
ghost use Rattle.search.specs.Tables.{tried_of, Allowed, Rows, joined};
ghost use Rattle.search.specs.Search.{Ports, Reaches, Leads, AskPre, Wave, AskPost, Tries, seen_in, Movable, Mover, Handed};

use labels::{Outputs, row_of};
use sets::{Label, NumberSet};
use switch::{InputPort, OutputPort, WIDE_PORTS};

// What the holders have where nobody holds an output; input i stands there as i + 1.
const FREE: u8 = 0;

// What the outputs have where an input holds none.
const IDLE: u8 = 255;

// Who holds which output: each output has its holder in `by`, each input its output in `out`, and the two are kept in step. Nobody and no
// output are bytes of their own in place of an `Option`: a record is written from `out` as it stands.
#[derive(Drop)]
pub struct Pairs {
    pub by: [u8; WIDE_PORTS],
    pub out: [u8; WIDE_PORTS],
}

// The outputs tried so far. The search is handed the set and hands it back with more in it, or unchanged where nothing was left to try (§6.7).
#[derive(Clone, Copy)]
pub struct Tried {
    pub outputs: Outputs,
}

// What asking came to: one of the outputs asked for was made free, or none can be. What is tried by then comes back either way (§6.7), so
// that an `Option` would have to stand beside it.
#[derive(Clone, Copy)]
pub enum Asked {
    Freed(Given, Tried),
    Stuck(Tried),
}

// The output that was made free, and the one that nobody held and that is spent on it: the same where nobody had to move.
#[derive(Clone, Copy)]
pub struct Given {
    pub output: OutputPort,
    pub spent: OutputPort,
}

// What a wave of outputs leads to: to one of them that is free, or to all that their holders may take.
// The outputs stand beside the free one and not in its stead: whoever gives way reads them alone.
#[derive(Clone, Copy)]
pub struct Reached {
    pub free: Option<OutputPort>,
    pub outputs: Outputs,
}

impl Pairs {
    // Nobody holds an output, and every input is idle.
    pub fn new() -> Pairs
        ensures { (result.by ≡ replicate 128 0) × (result.out ≡ replicate 128 255) }
    {
        Pairs {
            by: [FREE; WIDE_PORTS],
            out: [IDLE; WIDE_PORTS],
        }
    }

    // Nobody holds output j any more.
    pub fn release(&mut self, j: OutputPort)
        requires { j.0 < 128 }
        ensures { (self.new.by ≡ set self.old.by j.0 0) × (self.new.out ≡ self.old.out) }
    {
        release(&mut self.by, j);
    }

    // Input i takes output j, in both pairs.
    pub fn join(&mut self, i: InputPort, j: OutputPort)
        requires { (i.0 < 128) × (j.0 < 128) }
        ensures { (self.new.by ≡ set self.old.by j.0 (i.0 + 1)) × (self.new.out ≡ set self.old.out i.0 j.0) }
    {
        self.by[j.0] = (i.0 + 1) as u8;
        self.out[i.0] = j.0 as u8;
    }

    // The output that the tables tell for input i.
    pub fn output_of(&self, i: InputPort) -> OutputPort
        requires { i.0 < 128 }
        ensures { result.0 ≡ joined self.now.out i.0 }
    {
        OutputPort(self.out[i.0] as usize)
    }
}

impl Tried {
    // Nothing is tried.
    pub fn none() -> Tried
        ensures { (k : ℕ) → In (tried_of result) k → ⊥ }
    {
        Tried {
            outputs: Outputs::none(),
        }
    }

    // Output j is tried too.
    pub fn mark(self, j: OutputPort) -> Tried
        requires { j.0 < 128 }
        ensures { Marked (tried_of self) j.0 (tried_of result) }
    {
        Tried {
            outputs: self.outputs.mark(j),
        }
    }

    // A wave of outputs is tried too.
    pub fn with(self, wave: Outputs) -> Tried
        ensures { Union (tried_of self) (outputs_of wave) (tried_of result) }
    {
        Tried {
            outputs: self.outputs.with(wave),
        }
    }

    // The lowest output of the row that is not tried.
    pub fn next(self, row: Outputs) -> Option<OutputPort>
        ensures { Untried 128 (outputs_of row) (tried_of self) result }
    {
        row.lowest_untried(self.outputs)
    }
}

// The outputs of a wave are marked as tried and ask their holders to move, all at once; one whose holder can is handed on. The search is
// entered here, by who knows that none of its outputs can be had at once: inputs then ask in one place alone, and the compiler lays that
// function into this one.
#[cycle(ask_inputs_ask_outputs)]
pub fn ask_outputs(
    rows: &[Outputs],
    pairs: &mut Pairs,
    held: Outputs,
    tried: Tried,
    wave: Outputs,
) -> Asked
    requires { Rows 128 rows.now × AskPre 128 (length rows.now) (Allowed rows.now) pairs.old.by pairs.old.out (outputs_of held) (tried_of tried) × Wave 128 (outputs_of held) (tried_of tried) (outputs_of wave) }
    ensures { AskPost 128 (length rows.now) (Allowed rows.now) pairs.old.by pairs.old.out (tried_of tried) (outputs_of wave) pairs.new.by pairs.new.out result × Tries 128 (tried_of tried) (outputs_of wave) (seen_in result) }
{
    let marked = tried.with(wave);
    let w = leads_to(rows, pairs, wave);
    match w.free {
        Some(j) => Asked::Freed(
            Given {
                output: j,
                spent: j,
            },
            marked,
        ),
        None => match ask_inputs(rows, pairs, held, marked, w.outputs) {
            Asked::Stuck(seen) => Asked::Stuck(seen),
            Asked::Freed(g, seen) => {
                let j = hand_on(rows, pairs, wave, g.output);
                Asked::Freed(
                    Given {
                        output: j,
                        spent: g.spent,
                    },
                    seen,
                )
            }
        },
    }
}

// Inputs that are to move ask for one of these outputs: for one that can be had at once, else for those that are not tried yet.
#[cycle(ask_inputs_ask_outputs)]
fn ask_inputs(
    rows: &[Outputs],
    pairs: &mut Pairs,
    held: Outputs,
    tried: Tried,
    outputs: Outputs,
) -> Asked
    requires { Rows 128 rows.now × AskPre 128 (length rows.now) (Allowed rows.now) pairs.old.by pairs.old.out (outputs_of held) (tried_of tried) }
    ensures { AskPost 128 (length rows.now) (Allowed rows.now) pairs.old.by pairs.old.out (tried_of tried) (outputs_of outputs) pairs.new.by pairs.new.out result × Tries 128 (tried_of tried) (outputs_of outputs) (seen_in result) }
{
    match outputs.lowest_untried(held) {
        Some(spare) => Asked::Freed(
            Given {
                output: spare,
                spent: spare,
            },
            tried.mark(spare),
        ),
        None => match tried.next(outputs) {
            None => Asked::Stuck(tried),
            Some(_) => ask_outputs(rows, pairs, held, tried, outputs.but(tried.outputs)),
        },
    }
}

// What a wave of outputs leads to, word by word.
pub fn leads_to(rows: &[Outputs], pairs: &Pairs, wave: Outputs) -> Reached
    requires { Rows 128 rows.now × Ports 128 (length rows.now) pairs.now.by }
    ensures { Leads (Allowed rows.now) pairs.now.by (outputs_of wave) result.free (outputs_of result.outputs) }
{
    let words = wave.numbers;
    let low = word_leads_to(rows, pairs, words.low, 0, Outputs::none());
    match low.free {
        Some(_) => low,
        None => word_leads_to(rows, pairs, words.high, 64, low.outputs),
    }
}

// What the outputs of one word lead to, with what was led to before; output k of the word is output `base` + k of the switch.
fn word_leads_to(
    rows: &[Outputs],
    pairs: &Pairs,
    word: Label,
    base: usize,
    before: Outputs,
) -> Reached
    requires { Rows 128 rows.now × Ports 128 (length rows.now) pairs.now.by × (base + 64 ≤ 128) }
    ensures { Reaches (Allowed rows.now) pairs.now.by word.0 base (outputs_of before) result.free (outputs_of result.outputs) }
{
    let mut rest = word;
    let mut outputs = before;
    while let Some(j) = rest.lowest() {
        let k = base + j;
        let v = pairs.by[k];
        if v == FREE {
            return Reached {
                free: Some(OutputPort(k)),
                outputs,
            };
        }
        let w = v as usize;
        outputs = outputs.with(row_of(rows, InputPort(w - 1)));
        rest = rest.without_lowest();
    }
    Reached {
        free: None,
        outputs,
    }
}

// The holder of one of these outputs takes the wanted one, which is free; it answers the output that is given up.
fn hand_on(rows: &[Outputs], pairs: &mut Pairs, wave: Outputs, wanted: OutputPort) -> OutputPort
    requires { Rows 128 rows.now × (wanted.0 < 128) × Movable 128 (length rows.now) (Allowed rows.now) pairs.old.by (outputs_of wave) wanted.0 }
    ensures { Handed (Allowed rows.now) pairs.old.by pairs.old.out (outputs_of wave) wanted.0 result.0 pairs.new.by pairs.new.out }
{
    let j = mover(rows, pairs, wave, wanted);
    let k = j.0;
    let v = pairs.by[k] as usize;
    pairs.release(j);
    pairs.join(InputPort(v - 1), wanted);
    j
}

// The lowest of these outputs whose holder may take the wanted one.
fn mover(rows: &[Outputs], pairs: &Pairs, wave: Outputs, wanted: OutputPort) -> OutputPort
    requires { Rows 128 rows.now × (wanted.0 < 128) × Movable 128 (length rows.now) (Allowed rows.now) pairs.now.by (outputs_of wave) wanted.0 }
    ensures { Mover (Allowed rows.now) pairs.now.by (outputs_of wave) wanted.0 result.0 }
{
    let mut rest = wave;
    while let Some(j) = rest.lowest() {
        let k = j.0;
        let v = pairs.by[k] as usize;
        let row = row_of(rows, InputPort(v - 1));
        if row.has(wanted) {
            return j;
        }
        rest = rest.without_lowest();
    }
    unreachable!()
}

// Nobody holds output j any more, in a table of any length that has it.
pub fn release(by: &mut [u8], j: OutputPort)
    requires { j.0 < length by.old }
    ensures { by.new ≡ set by.old j.0 0 }
{
    by[j.0] = FREE;
}
