// The checks that every call on a demand shares: N (code 1), the cells lent (code 2), and the lines (code 3, with the line's side).
// It promises each refusal exactly in its case and order (§9.9), and T where there is none. Cells are any 32-bit numbers, so a
// line's sum is kept in 64 bits and cannot wrap. It also counts the slots asked. What a call then does with the demand is left to the crates above.
#![tactic(auto)]

ghost use Rattle.std.specs.Prelude.{◌≡◌, ℕ, ◌+◌, ◌*◌, ◌-◌, ◌<◌, ◌≤◌, ◌^◌, length, slice_index, sum_by};
ghost use Rattle.std.specs.List.{range_with_len};
ghost use Rattle.switch.specs.Demand.{cell, line, longest};
ghost use Rattle.switch.specs.Empty.{all_slots};
ghost use Rattle.demand.specs.Lines.{line_side, Sized, Short};
ghost use Rattle.demand.specs.Check.{check_lines, check_demand};

use switch::{InputPort, LONGEST, OutputPort, Refusal, Side};

// Codes 1, 2 and 3, in this order, for a switch of up to `most` ports; else T.
pub fn check_demand(n: usize, most: usize, cells: &[u32]) -> Result<u64, Refusal>
    requires { most ≤ 128 }
    ensures { result ≡ check_demand most n cells.now }
{
    if n == 0 {
        return Err(Refusal::Ports);
    }
    if most < n {
        return Err(Refusal::Ports);
    }
    let square = n * n;
    if cells.len() != square {
        return Err(Refusal::Cells(square));
    }
    check_lines(n, cells)
}

// Code 3 by itself, for calls that have other codes before it; else T. The first line over 65,535 is told, inputs before outputs.
// A loop over the numbers of the lines, since that of the first over is told in the refusal.
pub fn check_lines(n: usize, cells: &[u32]) -> Result<u64, Refusal>
    requires { Sized n cells.now }
    ensures { result ≡ check_lines n cells.now }
{
    let mut longest: u64 = 0;
    for k in 0..n + n {
        let sum = line_sum(cells, n, k);
        if LONGEST < sum {
            return Err(Refusal::Line(side_of(n, k)));
        }
        longest = longest.max(sum);
    }
    Ok(longest)
}

// T, the largest line sum. A loop, since of a chain whose step calls `line_sum` a proof learns too little; so with `asked_slots`.
pub fn longest_line(cells: &[u32], n: usize) -> u64
    requires { Sized n cells.now }
    ensures { result ≡ longest n (cell n cells.now) }
{
    let mut longest: u64 = 0;
    for k in 0..n + n {
        longest = longest.max(line_sum(cells, n, k));
    }
    longest
}

// The side of line k: the inputs are lines 0 to n - 1, the outputs n to 2 n - 1.
fn side_of(n: usize, k: usize) -> Side
    ensures { result ≡ line_side n k }
{
    if k < n {
        return Side::Input(InputPort(k));
    }
    Side::Output(OutputPort(k - n))
}

// The sum of line k. It may need more than 32 bits.
pub fn line_sum(cells: &[u32], n: usize, k: usize) -> u64
    requires { Sized n cells.now × (k < n + n) }
    ensures { result ≡ line n cells.now k }
{
    if k < n {
        return sum_of(cells, k * n, 1, n);
    }
    sum_of(cells, k - n, n, n)
}

// The sum of n cells from `from` on, `step` apart.
fn sum_of(cells: &[u32], from: usize, step: usize, n: usize) -> u64
    requires inside { (b : ℕ) → b < n → from + b * step < length cells.now }
    requires fits { sum_by (λ b. slice_index cells.now (from + b * step)) (range_with_len 0 n) < 2 ^ 64 }
    ensures { result ≡ sum_by (λ b. slice_index cells.now (from + b * step)) (range_with_len 0 n) }
{
    (0..n).map(|b| u64::from(cells[from + b * step])).sum()
}

// The empty slots of a plan whose settings join every input and that covers the demand: N × total less the sum of all cells.
pub fn empty_slots(n: usize, cells: &[u32], total: u64) -> u64
    requires { Short n cells.now × (longest n (cell n cells.now) ≤ total) × (total ≤ 131070) }
    ensures { result ≡ n * total - all_slots n (cell n cells.now) }
{
    n as u64 * total - asked_slots(n, cells)
}

// The sum of all cells.
pub fn asked_slots(n: usize, cells: &[u32]) -> u64
    requires { Short n cells.now }
    ensures { result ≡ all_slots n (cell n cells.now) }
{
    let mut asked: u64 = 0;
    for i in 0..n {
        asked += line_sum(cells, n, i);
    }
    asked
}

// Where the cell of a pair stands: cell i × N + j.
pub fn cell_at(n: usize, i: InputPort, j: OutputPort) -> usize
    requires { (n ≤ 128) × (i.0 < n) × (j.0 < n) }
    ensures { result ≡ i.0 * n + j.0 }
{
    i.0 * n + j.0
}
