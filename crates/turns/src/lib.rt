// The second part of a doubled plan: N settings, which between them join every pair, each held for as long as a rule says and left out
// where that is 0; and the division by u that gives both parts their numbers. It promises u, the quotients, every setting's hold, how many
// records they are, their total, and every byte that they lay over a plan from a given place on. Which output an input has in a setting,
// and how long a setting is held, are a function each: nothing else knows them, and the holds are worked out once, into a table. The first
// part, and whether there is room for both, are left to the planners above.
#![tactic(auto)]

ghost use Rattle.std.specs.Prelude.{◌≡◌, ℕ, ◌+◌, ◌*◌, ◌/◌, ◌%◌, ◌<◌, ◌≤◌, length};
ghost use Rattle.rules.specs.Exact.{tab};
ghost use Rattle.rules.specs.Doubled.{unit, divide, tight, held};
ghost use Rattle.records.specs.Bytes.{bytes, laid};
ghost use Rattle.turns.specs.Second.{turn, ahead, holds_by, second, Asks, Splits, Holding, Table, Measures};

use demand::cell_at;
use records::{HEAD, IDLE, put_record};
use switch::{Edition, InputPort, OutputPort};

// The most outputs of a record.
const PLACES: usize = 128;

// Which way the settings of the second part turn. The promises here and above name it by value, and the rule below.
#[derive(Clone, Copy)]
pub enum Turning {
    // Rotations: input i to output (i + k) mod N.
    Forward,
    // Anti-rotations: input i to output (k - i) mod N.
    Backward,
}

// How long a setting is held.
#[derive(Clone, Copy)]
pub enum Rule {
    // For the largest remainder among its pairs.
    Tight,
    // Every one for u - 1, as the controllers expect that are older than the tight rule.
    Every,
}

// What a part of a plan comes to: its records and their total hold.
#[derive(Clone, Copy)]
pub struct Part {
    pub records: usize,
    pub total: u64,
}

// A demand divided for both parts: u, its quotients in `work`, and the settings' holds by the rule in `holds`.
pub fn split(
    rule: Rule,
    way: Turning,
    n: usize,
    longest: u64,
    cells: &[u32],
    work: &mut [u32],
    holds: &mut [u16],
) -> u32
    requires { Asks n longest cells.now × (length work.old ≡ length cells.now) × (length holds.old ≡ n) }
    ensures { Splits rule way n longest cells.now result work.new holds.new }
{
    let unit = unit_of(n, longest);
    quotients(cells, work, unit);
    fill_holds(rule, way, n, cells, unit, holds);
    unit
}

// The cells divided by u, rounded down.
pub fn quotients(cells: &[u32], work: &mut [u32], unit: u32)
    requires { (length work.old ≡ length cells.now) × (0 < unit) }
    ensures { work.new ≡ divide unit cells.now }
{
    for (k, quotient) in work.iter_mut().enumerate() {
        *quotient = cells[k] / unit;
    }
}

// What settings of those holds come to, whichever they are.
pub fn measure(n: usize, holds: &[u16]) -> Part
    requires { (n ≤ 128) × (n ≤ length holds.now) }
    ensures { Measures n holds.now result.records result.total }
{
    let mut records: usize = 0;
    let mut total: u64 = 0;
    for hold in &holds[..n] {
        records += records_of(*hold);
        total += u64::from(*hold);
    }
    Part { records, total }
}

// Lays the settings, as records of an edition, over a plan from `from` on.
pub fn lay(way: Turning, e: Edition, n: usize, holds: &[u16], plan: &mut [u8], from: usize)
    requires { Table n holds.now × (n ≤ e.width) × (e.width ≤ 128) × (from + length (second way e.width n holds.now) * (e.width + 4) ≤ length plan.old) }
    ensures { plan.new ≡ laid plan.old from (bytes e.byte n (second way e.width n holds.now)) }
{
    let mut out = [IDLE; PLACES];
    let width = e.width;
    lay_all(way, n, holds, e.byte, plan, from, &mut out[..width]);
}

// u is T / N rounded up.
fn unit_of(n: usize, longest: u64) -> u32
    requires { (0 < n) × (n ≤ 128) × (longest ≤ 65535) }
    ensures { result ≡ unit n longest }
{
    let ports = n as u64;
    ((longest + (ports - 1)) / ports) as u32
}

// The settings' holds by the rule, setting k's at k.
fn fill_holds(rule: Rule, way: Turning, n: usize, cells: &[u32], unit: u32, holds: &mut [u16])
    requires { Holding n unit cells.now × (length holds.old ≡ n) }
    ensures { holds.new ≡ tab n 0 (holds_by rule way n cells.now unit) }
{
    for (k, hold) in holds.iter_mut().enumerate() {
        *hold = hold_of(rule, way, n, cells, unit, k);
    }
}

// How long setting k is held by the rule. Either way it is below u, so that it fits two bytes.
fn hold_of(rule: Rule, way: Turning, n: usize, cells: &[u32], unit: u32, k: usize) -> u16
    requires { Holding n unit cells.now × (k < n) }
    ensures { result ≡ holds_by rule way n cells.now unit k }
{
    match rule {
        Rule::Tight => largest_remainder(way, n, cells, unit, k) as u16,
        Rule::Every => (unit - 1) as u16,
    }
}

// The largest remainder among the pairs of setting k.
// i is an input: its output is worked out of it, and no slice holds the pairs.
fn largest_remainder(way: Turning, n: usize, cells: &[u32], unit: u32, k: usize) -> u32
    requires { Holding n unit cells.now × (k < n) }
    ensures { result ≡ tight n (turn way n) cells.now unit k }
{
    let mut largest: u32 = 0;
    for i in 0..n {
        let at = cell_at(n, InputPort(i), output_of(way, n, k, InputPort(i)));
        largest = largest.max(cells[at] % unit);
    }
    largest
}

// How many records a setting of that hold is: it is left out where the hold is 0.
fn records_of(hold: u16) -> usize
    ensures { (W : ℕ) (o : ℕ → ℕ) → result ≡ length (held W hold o) }
{
    usize::from(0 < hold)
}

// Setting after setting, each behind those before it. A record has as many outputs as `out`.
fn lay_all(
    way: Turning,
    n: usize,
    holds: &[u16],
    edition: u8,
    plan: &mut [u8],
    from: usize,
    out: &mut [u8],
)
    requires { Table n holds.now × (n ≤ length out.old) × (from + length (bytes edition n (second way (length out.old) n holds.now)) ≤ length plan.old) }
    ensures { plan.new ≡ laid plan.old from (bytes edition n (second way (length out.old) n holds.now)) }
{
    let mut at = from;
    for (k, hold) in holds.iter().enumerate() {
        at = lay_one(way, n, k, *hold, edition, plan, at, out);
    }
}

// Setting k, where it is held at all; and where the next record goes.
fn lay_one(
    way: Turning,
    n: usize,
    k: usize,
    hold: u16,
    edition: u8,
    plan: &mut [u8],
    at: usize,
    out: &mut [u8],
) -> usize
    requires { (0 < n) × (n ≤ 128) × (k < n) × (at + length (bytes edition n (held (length out.old) hold (turn way n k))) ≤ length plan.old) }
    ensures { (result ≡ at + length (bytes edition n (held (length out.old) hold (turn way n k)))) × (plan.new ≡ laid plan.old at (bytes edition n (held (length out.old) hold (turn way n k)))) }
{
    if hold == 0 {
        return at;
    }
    fill_outputs(way, n, k, out);
    put_record(plan, at, edition, hold, n, out);
    at + out.len() + HEAD
}

// The outputs of setting k by input, and idle past the ports.
fn fill_outputs(way: Turning, n: usize, k: usize, out: &mut [u8])
    requires { (0 < n) × (n ≤ 128) × (k < n) }
    ensures { out.new ≡ tab (length out.old) 0 (turn way n k) }
{
    for (i, output) in out.iter_mut().enumerate() {
        *output = output_byte(way, n, k, i);
    }
}

// The output byte at place i of setting k.
fn output_byte(way: Turning, n: usize, k: usize, i: usize) -> u8
    requires { (0 < n) × (n ≤ 128) × (k < n) }
    ensures { result ≡ turn way n k i }
{
    if n <= i {
        return IDLE;
    }
    let j = output_of(way, n, k, InputPort(i));
    j.0 as u8
}

// The output of input i in setting k: k further on, around all of them. Once around is a subtraction, which costs less than a division.
fn output_of(way: Turning, n: usize, k: usize, i: InputPort) -> OutputPort
    requires { (k < n) × (i.0 < n) × (n ≤ 128) }
    ensures { (result.0 ≡ turn way n k i.0) × (result.0 < n) }
{
    let on = start_of(way, n, i) + k;
    if on < n {
        return OutputPort(on);
    }
    OutputPort(on - n)
}

// The place from which input i goes on: its own, or its own counted down from N.
fn start_of(way: Turning, n: usize, i: InputPort) -> usize
    requires { i.0 < n }
    ensures { result ≡ ahead way n i.0 }
{
    match way {
        Turning::Forward => i.0,
        Turning::Backward => n - i.0,
    }
}
