// One setting of the quiet plan, on labels: each input in turn takes the lowest output of its label that is neither taken nor full. The
// outputs whose wavelength is full are a set that goes on by one place from input to input, so one pass for an input is one lowest bit.
// It promises the setting of the rule on paper, for up to 64 ports and any limit. Which cells are left, and how long the setting is held, is
// left to the crate above.
#![tactic(auto)]

ghost use Rattle.std.specs.Prelude.{◌≡◌, ℕ, ◌+◌, ◌<◌, ◌≤◌, length, get_or};
ghost use Rattle.sets.specs.Label.{In};
ghost use Rattle.labels.specs.Rows.{row_of};
ghost use Rattle.quiet_rule.specs.Quiet.{quiet_setting};
ghost use Rattle.quiet_setting.specs.Choosing.{FirstWord, MarkedIf, Around, asks, Rows, Choosing};

use labels::{Outputs, row_of};
use sets::{Label, NumberSet};
use slot::idle_all;
use switch::{InputPort, OutputPort, PORTS};
use wavelengths::wavelength_of;

// What a setting in the making has used up: the outputs that are taken, and those whose wavelength is full for the next input.
#[derive(Clone, Copy)]
pub struct Busy {
    pub taken: Label,
    pub full: Label,
}

// The quiet setting of what the labels ask, within a limit of at least 1: `out` has its outputs by input.
// i is an input: it has its label, its output and its wavelengths.
pub fn choose(n: usize, limit: u64, rows: &[Outputs], out: &mut [u8])
    requires { (0 < limit) × Rows n rows.now × (n ≤ length out.old) }
    ensures { (i : ℕ) → get_or out.new i 255 ≡ quiet_setting n limit (asks rows.now) i }
{
    idle_all(out);
    let mut counts = [0u8; PORTS];
    let mut busy = Busy {
        taken: Label::none(),
        full: Label::none(),
    };
    for i in 0..n {
        busy = visit(n, limit, rows, InputPort(i), busy, out, &mut counts);
    }
}

// One input's turn: it takes the lowest output that it may, or stays idle.
fn visit(
    n: usize,
    limit: u64,
    rows: &[Outputs],
    i: InputPort,
    busy: Busy,
    out: &mut [u8],
    counts: &mut [u8],
) -> Busy
    requires { (i.0 < n) × Rows n rows.now × Choosing n limit rows.now i.0 out.old counts.old busy }
    ensures { Choosing n limit rows.now (i.0 + 1) out.new counts.new result }
{
    let port = i.0;
    let taken = busy.taken;
    let full = busy.full;
    let row = first_word(rows, i);
    let free = row.but(taken.with(full));
    let Some(j) = free.lowest() else {
        return Busy {
            taken,
            full: turned(n, full),
        };
    };
    let w = wavelength_of(n, i, OutputPort(j));
    let used = counts[w] + 1;
    counts[w] = used;
    out[port] = j as u8;
    let fuller = mark_if(full, j, limit <= used as u64);
    Busy {
        taken: taken.mark(j),
        full: turned(n, fuller),
    }
}

// The outputs of input i among the first 64: no others are asked for here, so that its label's other word need not be looked at.
fn first_word(rows: &[Outputs], i: InputPort) -> Label
    requires { i.0 < length rows.now }
    ensures { FirstWord (row_of rows.now i.0) result.0 }
{
    let row = row_of(rows, i);
    let words = row.numbers;
    words.low
}

// The set, and output j besides where its wavelength is now full.
fn mark_if(full: Label, j: usize, filled: bool) -> Label
    requires { j < 64 }
    ensures { MarkedIf filled full.0 j result.0 }
{
    if filled {
        return full.mark(j);
    }
    full
}

// The set one place on, around n outputs: where the next input's wavelengths lead.
fn turned(n: usize, full: Label) -> Label
    requires { (0 < n) × (n ≤ 64) × ((k : ℕ) → In full.0 k → k < n) }
    ensures { Around n full.0 result.0 }
{
    let last = n - 1;
    let first = 1u64 << last;
    Label((full.0 % first) * 2 + full.0 / first)
}
