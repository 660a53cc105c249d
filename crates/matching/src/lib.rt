// The first setting (§6.7): inputs that hold nothing ask for an output, and from the first on each is settled on the lowest that leaves
// the others one. The crate takes a label of outputs for each input and the tables of a matching, and promises the full setting that is
// first in dictionary order. The matching is kept from setting to setting: only inputs that wait ask again, only those from the first of
// them on are settled anew where the others can stay, and only as far as the setting differs from the one before. How an output is freed is
// `search`'s; which pairs are allowed, and what is taken off them, is left to the planners.
#![tactic(auto)]

ghost use Rattle.std.specs.Prelude.{◌≡◌, ◌⊎◌, ℕ, ◌+◌, ◌<◌, ◌≤◌, length, true};
ghost use Rattle.sets.specs.Label.{In, Sub, Marked};
ghost use Rattle.labels.specs.Ports.{outputs_of, inputs_of};
ghost use Rattle.labels.specs.Rows.{row_of};
ghost use Rattle.switch.specs.Plan.{Full};
ghost use Rattle.search.specs.Tables.{tried_of, Allowed, Rows, joined};
ghost use Rattle.matching.specs.Chosen.{Fixed, AllHeld, Seating, SeatPre, SeatPost, CompletePost, GivePre, GivesWay, Lowering, Lowered, Dead, SettledPost, SettledAll, Settled, Behind, Restored, Ready, Chosen};

use labels::{Inputs, Outputs, row_of};
use search::{Asked, Pairs, Tried, ask_outputs, leads_to};
use switch::{InputPort, OutputPort, WIDE_PORTS};

// The inputs that wait for an output, and every output but those that can be had at once.
#[derive(Clone, Copy)]
pub struct Seats {
    pub waiting: Inputs,
    pub held: Outputs,
}

// The outputs that are fixed, with them those that lead nowhere else, and whether the input before this one was well advised to ask
// for its lowest output alone: a hint, on which no promise rests.
#[derive(Clone, Copy)]
struct Prefix {
    fixed: Tried,
    dead: Tried,
    alone: bool,
}

// The first setting in dictionary order, where the pairs are of the one before it. Only the inputs that wait are seated anew; those before the
// first of them keep their outputs, or as many of them from the front as the others can be seated around.
pub fn next_setting(rows: &[Outputs], pairs: &mut Pairs, seats: Seats)
    requires { Rows 128 rows.now × Ready 128 (length rows.now) (Allowed rows.now) pairs.old.by pairs.old.out (outputs_of seats.held) (inputs_of seats.waiting) }
    ensures { Chosen 128 (length rows.now) (Allowed rows.now) pairs.old.out pairs.new.by pairs.new.out }
{
    let before = pairs.out;
    let last = past(seats.waiting);
    let mut firm = first_of(seats.waiting, rows.len());
    let mut now = seats;
    loop {
        let fixed = fixed_below(pairs, firm);
        match complete(rows, pairs, &mut now, fixed) {
            Ok(()) => {
                settle_from(rows, pairs, fixed, firm, &before, last);
                return;
            }
            Err(met) => {
                firm = give_way(rows, pairs, now.held, met, fixed, firm);
            }
        }
    }
}

// One past the last of these inputs.
fn past(waiting: Inputs) -> usize
    ensures { (m : ℕ) → In (inputs_of waiting) m → m < result }
{
    let mut rest = waiting;
    let mut last = 0;
    while let Some(i) = rest.lowest() {
        last = i.0 + 1;
        rest = rest.without_lowest();
    }
    last
}

// The first of these inputs, or n.
// The answer is where settling begins, so that n, the end of it, serves where none waits.
fn first_of(waiting: Inputs, n: usize) -> usize
    requires { (m : ℕ) → In (inputs_of waiting) m → m < n }
    ensures { (result ≤ n) × ((m : ℕ) → m < result → In (inputs_of waiting) m → ⊥) }
{
    match waiting.lowest() {
        Some(i) => i.0,
        None => n,
    }
}

// The outputs of the inputs below `kept`.
// i is an input, which is asked for its output.
fn fixed_below(pairs: &Pairs, kept: usize) -> Tried
    requires { (kept ≤ 128) × ((m : ℕ) → m < kept → joined pairs.now.out m < 128) }
    ensures { Fixed pairs.now.out kept (tried_of result) }
{
    let mut fixed = Tried::none();
    for i in 0..kept {
        fixed = fixed.mark(pairs.output_of(InputPort(i)));
    }
    fixed
}

// As many inputs in front as keep their outputs next. Whoever the refused input leads to is followed with fewer and fewer of them kept,
// from the last on, until an output that can be had at once is met: with more of them kept it would ask in vain.
fn give_way(
    rows: &[Outputs],
    pairs: &Pairs,
    held: Outputs,
    first: Outputs,
    fixed: Tried,
    from: usize,
) -> usize
    requires { Rows 128 rows.now × GivePre 128 (length rows.now) (Allowed rows.now) pairs.now.by pairs.now.out (outputs_of held) (tried_of fixed) from }
    ensures { GivesWay (Allowed rows.now) pairs.now.by (outputs_of first) from result }
{
    let mut met = first;
    let mut firm = from - 1;
    let kept = fixed.outputs;
    let mut seen = kept.without(pairs.output_of(InputPort(firm)));
    loop {
        let wave = met.but(seen);
        match wave.lowest() {
            None => {
                if firm == 0 {
                    return firm;
                }
                firm -= 1;
                seen = seen.without(pairs.output_of(InputPort(firm)));
            }
            Some(_) => {
                seen = seen.with(wave);
                let w = leads_to(rows, pairs, wave);
                let further = w.outputs;
                if let Some(_) = further.lowest_untried(held) {
                    return firm;
                }
                met = met.with(further);
            }
        }
    }
}

// Every input that waits is seated, from the first on; one that is refused ends it, with what it may take.
fn complete(
    rows: &[Outputs],
    pairs: &mut Pairs,
    seats: &mut Seats,
    fixed: Tried,
) -> Result<(), Outputs>
    requires { Rows 128 rows.now × Seating 128 (length rows.now) (Allowed rows.now) pairs.old.by pairs.old.out (outputs_of seats.old.held) (inputs_of seats.old.waiting) × AllHeld pairs.old.by (tried_of fixed) }
    ensures { CompletePost 128 (length rows.now) (Allowed rows.now) pairs.old.by pairs.old.out (tried_of fixed) (inputs_of seats.old.waiting) pairs.new.by pairs.new.out (outputs_of seats.new.held) (inputs_of seats.new.waiting) result }
{
    while let Some(i) = seats.waiting.lowest() {
        seats.held = seat(rows, pairs, seats.held, fixed, i)?;
        seats.waiting = seats.waiting.without_lowest();
    }
    Ok(())
}

// Input i takes an output that can be had at once, or asks for one.
fn seat(
    rows: &[Outputs],
    pairs: &mut Pairs,
    held: Outputs,
    fixed: Tried,
    i: InputPort,
) -> Result<Outputs, Outputs>
    requires { Rows 128 rows.now × SeatPre 128 (length rows.now) (Allowed rows.now) pairs.old.by pairs.old.out (outputs_of held) (tried_of fixed) i.0 }
    ensures { SeatPost 128 (length rows.now) (Allowed rows.now) pairs.old.by pairs.old.out (tried_of fixed) i.0 pairs.new.by pairs.new.out result }
{
    let row = row_of(rows, i);
    match row.lowest_untried(held) {
        None => seat_around(rows, pairs, held, fixed, i),
        Some(spare) => {
            pairs.join(i, spare);
            Ok(held.mark(spare))
        }
    }
}

// Input i, that may take no output at once, asks the holders of those that are not fixed to move.
fn seat_around(
    rows: &[Outputs],
    pairs: &mut Pairs,
    held: Outputs,
    fixed: Tried,
    i: InputPort,
) -> Result<Outputs, Outputs>
    requires { Rows 128 rows.now × SeatPre 128 (length rows.now) (Allowed rows.now) pairs.old.by pairs.old.out (outputs_of held) (tried_of fixed) i.0 × Sub (row_of rows.now i.0) (outputs_of held) }
    ensures { SeatPost 128 (length rows.now) (Allowed rows.now) pairs.old.by pairs.old.out (tried_of fixed) i.0 pairs.new.by pairs.new.out result }
{
    let row = row_of(rows, i);
    let Some(_) = fixed.next(row) else {
        return Err(row);
    };
    match ask_outputs(rows, pairs, held, fixed, row.but(fixed.outputs)) {
        Asked::Stuck(_) => Err(row),
        Asked::Freed(g, _) => {
            pairs.join(i, g.output);
            Ok(held.mark(g.spent))
        }
    }
}

// The inputs from `from` on are settled one after the other. Where none is left that waited, and those before have the same outputs among
// them as in the setting of before, the others have theirs of before: fewer pairs are allowed now, so that nothing lower can be had.
// i is an input, which is settled as a port and not read out of a slice.
fn settle_from(
    rows: &[Outputs],
    pairs: &mut Pairs,
    fixed: Tried,
    from: usize,
    before: &[u8; WIDE_PORTS],
    last: usize,
)
    requires { Rows 128 rows.now × (from ≤ length rows.now) × Settled 128 (length rows.now) (Allowed rows.now) pairs.old.by pairs.old.out (tried_of fixed) from × Behind 128 (length rows.now) (Allowed rows.now) before.now last × Fixed before.now from (tried_of fixed) }
    ensures { SettledAll 128 (length rows.now) (Allowed rows.now) pairs.old.out pairs.new.by pairs.new.out }
{
    let mut firm = Prefix {
        fixed,
        dead: fixed,
        alone: true,
    };
    let mut was = fixed;
    for i in from..rows.len() {
        if as_before(firm, was, last, i) {
            restore(pairs, before, i, rows.len());
            return;
        }
        firm = settle(rows, pairs, firm, InputPort(i));
        was = was_too(was, before, InputPort(i));
    }
}

// Is input i past the last that waited, and have the inputs before it the outputs that they had?
fn as_before(firm: Prefix, was: Tried, last: usize, i: usize) -> bool
    ensures { result ≡ true → (last ≤ i) × Sub (tried_of firm.fixed) (tried_of was) × Sub (tried_of was) (tried_of firm.fixed) }
{
    if i < last {
        return false;
    }
    let fixed = firm.fixed;
    was.next(fixed.outputs).is_none() && fixed.next(was.outputs).is_none()
}

// The outputs that were had before input i, and its own besides. Before the first setting it has none.
fn was_too(was: Tried, before: &[u8; WIDE_PORTS], i: InputPort) -> Tried
    requires { i.0 < 128 }
    ensures { joined before.now i.0 < 128 → Marked (tried_of was) (joined before.now i.0) (tried_of result) }
{
    let own = before[i.0] as usize;
    if WIDE_PORTS <= own {
        return was;
    }
    was.mark(OutputPort(own))
}

// The inputs from `from` on have their outputs of before again.
// k is an input, which is joined in both tables, and not only a place of `before`.
fn restore(pairs: &mut Pairs, before: &[u8; WIDE_PORTS], from: usize, n: usize)
    requires { (length pairs.old.by ≡ 128) × (length pairs.old.out ≡ 128) × (n ≤ 128) × (from ≤ n) × Full n (joined before.now) }
    ensures { Restored before.now pairs.old.by pairs.old.out from pairs.new.by pairs.new.out n }
{
    for k in from..n {
        pairs.join(InputPort(k), OutputPort(before[k] as usize));
    }
}

// Input i takes the first output that leaves the inputs after it a setting, and that is fixed: it asks for a lower one than its own
// until all of them lead nowhere: for the lowest alone while that is often to be had, and else for all at once.
fn settle(rows: &[Outputs], pairs: &mut Pairs, firm: Prefix, i: InputPort) -> Prefix
    requires { Rows 128 rows.now × (i.0 < length rows.now) × Settled 128 (length rows.now) (Allowed rows.now) pairs.old.by pairs.old.out (tried_of firm.fixed) i.0 × Dead (Allowed rows.now) pairs.old.by (tried_of firm.fixed) (tried_of firm.dead) }
    ensures { SettledPost 128 (length rows.now) (Allowed rows.now) pairs.old.out pairs.new.by pairs.new.out (tried_of result.fixed) (i.0 + 1) × Dead (Allowed rows.now) pairs.new.by (tried_of result.fixed) (tried_of result.dead) }
{
    let row = row_of(rows, i);
    let fixed = firm.fixed;
    let mut own = pairs.output_of(i);
    let mut dead = dead_for(firm, own);
    let mut alone = firm.alone;
    loop {
        let lower = row.below(own);
        let Some(lowest) = dead.next(lower) else {
            return Prefix {
                fixed: fixed.mark(own),
                dead: dead.mark(own),
                alone,
            };
        };
        let some = lowest_or_all(lower.but(dead.outputs), lowest, alone);
        match ask_lower(rows, pairs, dead, some, own, i) {
            Asked::Stuck(seen) => {
                dead = seen;
                alone = false;
            }
            Asked::Freed(g, _) => {
                own = g.output;
                alone = true;
            }
        }
    }
}

// The lowest of these outputs alone, or all of them.
fn lowest_or_all(outputs: Outputs, lowest: OutputPort, alone: bool) -> Outputs
    requires { (lowest.0 < 128) × In (outputs_of outputs) lowest.0 }
    ensures { Sub (outputs_of result) (outputs_of outputs) × In (outputs_of result) lowest.0 }
{
    if alone {
        return Outputs::none().mark(lowest);
    }
    outputs
}

// What leads nowhere once output `own` is given up: all that did, or no more than what is fixed.
fn dead_for(firm: Prefix, own: OutputPort) -> Tried
    requires { own.0 < 128 }
    ensures { ((tried_of result ≡ tried_of firm.dead) × (In (tried_of firm.dead) own.0 → ⊥)) ⊎ (tried_of result ≡ tried_of firm.fixed) }
{
    if firm.dead.outputs.has(own) {
        return firm.fixed;
    }
    firm.dead
}

// Input i gives its output up and asks for one of these; where none can be had it takes its own again.
fn ask_lower(
    rows: &[Outputs],
    pairs: &mut Pairs,
    dead: Tried,
    lower: Outputs,
    own: OutputPort,
    i: InputPort,
) -> Asked
    requires { Rows 128 rows.now × Lowering 128 (length rows.now) (Allowed rows.now) pairs.old.by pairs.old.out (tried_of dead) (outputs_of lower) own.0 i.0 }
    ensures { Lowered 128 (length rows.now) (Allowed rows.now) pairs.old.by pairs.old.out (tried_of dead) (outputs_of lower) own.0 i.0 pairs.new.by pairs.new.out result }
{
    pairs.release(own);
    let held = Outputs::every().without(own);
    match ask_outputs(rows, pairs, held, dead, lower) {
        Asked::Stuck(seen) => {
            pairs.join(i, own);
            Asked::Stuck(seen)
        }
        Asked::Freed(g, seen) => {
            pairs.join(i, g.output);
            Asked::Freed(g, seen)
        }
    }
}
