// The quiet plan of the grating fabric: every setting keeps a limit on how many inputs share a wavelength.
// It promises the whole answer and every byte of the lent plan, for any N, any cells and any limit: the refusals in order, all known
// before the first byte is written, and else the plan that the rule on paper gives. The lent demand is only read.
// How a setting is chosen is left to the crate below, and what the plan is worth, and how near it is to the shortest, to the rule's laws.
#![tactic(auto)]

ghost use Rattle.std.specs.Prelude.{◌≡◌, ℕ, ◌<◌, ◌≤◌, length, ltb, Ok};
ghost use Rattle.counting.specs.Count.{ind, count};
ghost use Rattle.switch.specs.Demand.{cell};
ghost use Rattle.switch.specs.Plan.{total};
ghost use Rattle.switch.specs.Editions.{first_edition};
ghost use Rattle.switch.specs.Result.{Gives};
ghost use Rattle.demand.specs.Check.{check_demand};
ghost use Rattle.records.specs.Bytes.{bytes, laid};
ghost use Rattle.board.specs.Level.{Sized, out_of};
ghost use Rattle.quiet_rule.specs.Quiet.{lesser, smallest, joined_cell, pairs};
ghost use Rattle.quiet.specs.Planned.{quiet_planned};
ghost use Rattle.quiet.specs.Taking.{HoldIs, Giving, Given, Loaded, Subtracted, Ready, Stepped, leftover, Short};
ghost use Rattle.quiet.specs.Lent.{Space, Small, Copied, RoomChecked};

use board::{copy, label_rows, take};
use demand::{cell_at, check_demand};
use labels::Outputs;
use quiet_setting::choose;
use records::{EDITION, IDLE, RECORD, put_record};
use switch::{Counts, InputPort, Outcome, OutputPort, PORTS, Refusal};

// What was laid: how many records, and their holds together.
#[derive(Clone, Copy)]
pub struct Laid {
    pub records: usize,
    pub total: u64,
}

// The cells of a switch of 64 ports.
const CELLS: usize = 4096;

// The quiet plan of a demand within a limit, written at the start of a lent plan: refusals 1, 2, 3, 17 and 5.
pub fn quiet_plan(n: usize, cells: &[u32], limit: u64, plan: &mut [u8]) -> Outcome
    ensures { Gives (quiet_planned first_edition n cells.now limit plan.old) result plan.new }
{
    let longest = check_demand(n, PORTS, cells)?;
    if limit == 0 {
        return Err(Refusal::Limit);
    }
    let mut work = [0u32; CELLS];
    let mut rows = [Outputs::none(); PORTS];
    plan_fine(n, cells, limit, longest, plan, &mut work, &mut rows[..n])
}

// The same for a demand and a limit that nothing but the room can refuse. The working copy and its labels are lent.
fn plan_fine(
    n: usize,
    cells: &[u32],
    limit: u64,
    longest: u64,
    plan: &mut [u8],
    work: &mut [u32],
    rows: &mut [Outputs],
) -> Outcome
    requires { (0 < limit) × (check_demand 64 n cells.now ≡ Ok longest) × Space n work.old rows.old }
    ensures { Gives (quiet_planned first_edition n cells.now limit plan.old) result plan.new }
{
    let room = plan.len() / RECORD;
    check_room(n, cells, limit, room, work, rows)?;
    let done = lay_records(n, limit, plan, work, rows);
    Ok(Counts {
        records: done.records,
        longest,
        total: done.total,
        length: 0,
        empty: 0,
    })
}

// The demand is copied in, or the room is too small for its plan's records. Each record empties a cell, so room for as many records as there
// are non-zero cells is always enough; with less they are counted.
fn check_room(
    n: usize,
    cells: &[u32],
    limit: u64,
    room: usize,
    work: &mut [u32],
    rows: &mut [Outputs],
) -> Result<(), Refusal>
    requires { (0 < limit) × Small n cells.now × Space n work.old rows.old }
    ensures { RoomChecked n limit cells.now room work.new rows.new result }
{
    load(n, cells, work, rows);
    if asked_pairs(n, work) <= room {
        return Ok(());
    }
    let need = count_records(n, limit, work, rows);
    if room < need {
        return Err(Refusal::Room(need));
    }
    load(n, cells, work, rows);
    Ok(())
}

// The demand copied in, with its labels.
fn load(n: usize, cells: &[u32], work: &mut [u32], rows: &mut [Outputs])
    requires { Small n cells.now × Space n work.old rows.old }
    ensures { Copied n cells.now work.new rows.new }
{
    copy(cells, work);
    label_rows(work, n, rows);
}

// How many cells are not zero.
fn asked_pairs(n: usize, cells: &[u32]) -> usize
    requires { Sized n cells.now }
    ensures { result ≡ pairs n (cell n cells.now) }
{
    let mut asked: usize = 0;
    for i in 0..n {
        asked += asked_of(n, cells, InputPort(i));
    }
    asked
}

// How many outputs an input has slots for.
// By an index: a filter that is counted branches at each cell, which took longer where cells that are zero stand among others.
fn asked_of(n: usize, cells: &[u32], i: InputPort) -> usize
    requires { Sized n cells.now × (i.0 < n) }
    ensures { result ≡ count n (λ j. ltb 0 (cell n cells.now i.0 j)) }
{
    let row = i.0 * n;
    let mut asked: usize = 0;
    for j in 0..n {
        asked += one_if(cells[row + j]);
    }
    asked
}

// 1 where the cell is not zero.
fn one_if(cell: u32) -> usize
    ensures { result ≡ ind (ltb 0 cell) }
{
    if cell == 0 {
        return 0;
    }
    1
}

// How many records the plan has. The cells are spent.
fn count_records(n: usize, limit: u64, work: &mut [u32], rows: &mut [Outputs]) -> usize
    requires { Ready n limit work.old rows.old }
    ensures { result ≡ length (leftover n limit work.old) }
{
    let mut out = [IDLE; PORTS];
    let mut records: usize = 0;
    while let Some(_) = next_record(n, limit, work, rows, &mut out) {
        records += 1;
    }
    records
}

// The plan's records laid at the plan's start, one behind the other. The cells are spent.
fn lay_records(
    n: usize,
    limit: u64,
    plan: &mut [u8],
    work: &mut [u32],
    rows: &mut [Outputs],
) -> Laid
    requires { Ready n limit work.old rows.old × Short n work.old (leftover n limit work.old) × (length (bytes 0 n (leftover n limit work.old)) ≤ length plan.old) }
    ensures { (result.records ≡ length (leftover n limit work.old)) × (result.total ≡ total (leftover n limit work.old)) × (plan.new ≡ laid plan.old 0 (bytes 0 n (leftover n limit work.old))) }
{
    let mut out = [IDLE; PORTS];
    let mut laid = Laid {
        records: 0,
        total: 0,
    };
    let mut at: usize = 0;
    while let Some(hold) = next_record(n, limit, work, rows, &mut out) {
        put_record(plan, at, EDITION, hold as u16, n, &out);
        at += RECORD;
        laid.total += hold as u64;
        laid.records += 1;
    }
    laid
}

// Takes the next record off the working copy: `out` has its outputs, and the answer is its hold; there is none where nothing is left.
fn next_record(
    n: usize,
    limit: u64,
    work: &mut [u32],
    rows: &mut [Outputs],
    out: &mut [u8],
) -> Option<u32>
    requires { Ready n limit work.old rows.old × (length out.old ≡ 64) }
    ensures { Stepped n limit work.old work.new rows.new out.new result }
{
    choose(n, limit, rows, out);
    let hold = hold_of(work, n, out)?;
    subtract(work, n, rows, out, hold);
    Some(hold)
}

// The hold of a setting: the smallest cell among the joined pairs; there is none where all inputs are idle.
fn hold_of(cells: &[u32], n: usize, out: &[u8]) -> Option<u32>
    requires { Sized n cells.now × (n ≤ length out.now) }
    ensures { HoldIs (smallest n (joined_cell n (cell n cells.now) (out_of out.now))) result }
{
    let hold = least_cell(cells, n, out);
    if 0 < hold { Some(hold) } else { None }
}

// The same as a number, which is 0 where all inputs are idle. With an `Option` carried from input to input the plan of few inputs took longer
// by a quarter and more.
// A loop: of a chain that passes over inputs without a cell and takes the least, the promise did not follow.
fn least_cell(cells: &[u32], n: usize, out: &[u8]) -> u32
    requires { Sized n cells.now × (n ≤ length out.now) }
    ensures { result ≡ smallest n (joined_cell n (cell n cells.now) (out_of out.now)) }
{
    let mut hold: u32 = 0;
    for i in 0..n {
        hold = lesser_of(hold, cell_of(cells, n, out, InputPort(i)));
    }
    hold
}

// The cell of the pair that joins input i, and 0 where it is idle.
fn cell_of(cells: &[u32], n: usize, out: &[u8], i: InputPort) -> u32
    requires { Sized n cells.now × (i.0 < n) × (n ≤ length out.now) }
    ensures { result ≡ joined_cell n (cell n cells.now) (out_of out.now) i.0 }
{
    let k = i.0;
    let j = out[k] as usize;
    if j < n {
        let at = cell_at(n, i, OutputPort(j));
        return cells[at];
    }
    0
}

// The smaller of two numbers, of which 0 counts as none.
fn lesser_of(a: u32, b: u32) -> u32
    ensures { result ≡ lesser a b }
{
    if a == 0 {
        return b;
    }
    if b == 0 {
        return a;
    }
    a.min(b)
}

// Every joined pair's cell is less by the hold.
// i is an input: it has its output, its cell and its label.
fn subtract(work: &mut [u32], n: usize, rows: &mut [Outputs], out: &[u8], hold: u32)
    requires { Loaded n work.old rows.old × (n ≤ length out.now) × ((i : ℕ) → i < n → out_of out.now i < n → hold ≤ cell n work.old i (out_of out.now i)) }
    ensures { Subtracted n hold work.old out.now work.new rows.new }
{
    for i in 0..n {
        give(work, n, rows, out, InputPort(i), hold);
    }
}

// One input's part: it gives up the hold where it is joined.
fn give(work: &mut [u32], n: usize, rows: &mut [Outputs], out: &[u8], i: InputPort, hold: u32)
    requires { Giving n work.old rows.old out.now i.0 hold }
    ensures { Given n work.old out.now i.0 hold work.new rows.new }
{
    let k = i.0;
    let j = out[k] as usize;
    if n <= j {
        return;
    }
    take(work, n, rows, i, OutputPort(j), hold);
}
