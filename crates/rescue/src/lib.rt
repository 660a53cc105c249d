// Rescuing a damaged plan (§19): its well-formed records in their order, and behind them the exact plan of what they leave uncovered; a list
// says which records were dropped, and why. `rescue_plan` promises its answer and every byte of both lent buffers for any N, cells and
// bytes, and nothing is written before all is known. What is kept, dropped and added stands on paper in the crate rescue_rule.
#![tactic(auto)]

ghost use Rattle.std.specs.Prelude.{◌≡◌, ◌++◌, length, ℕ, ◌+◌, ◌*◌, ◌-◌, ◌<◌, ◌≤◌, Ok, ◌^◌};
ghost use Rattle.switch.specs.Demand.{cell, Blank};
ghost use Rattle.switch.specs.Editions.{first_edition, Bounded};
ghost use Rattle.switch.specs.Empty.{beyond};
ghost use Rattle.rules.specs.Exact.{exact_plan};
ghost use Rattle.records.specs.Bytes.{whole, bytes, laid};
ghost use Rattle.plans.specs.Reading.{Readable};
ghost use Rattle.peel.specs.Standing.{Cells};
ghost use Rattle.rescue_rule.specs.Rescue.{kept_to, kept_at, kept, dropped};
ghost use Rattle.rescue.specs.Keeping.{Keeping, Left, Stocked, Taken, Known};
ghost use Rattle.rescue.specs.Rescue.{Saves, check_in, refusal, answer_of, fitting, writes, rescuing};

use records::HEAD;
use switch::{Counts, Edition, Outcome, Refusal};

// The pairs of a switch of 64 ports.
const PAIRS: usize = 4096;

// What a rescue answers: a planner's outcome for the lent demand, and how many records were added and dropped; none where it is refused.
// They stand beside the outcome, since `rescuing` tells all three of a refusal too.
#[derive(Clone, Copy)]
pub struct Answer {
    pub outcome: Outcome,
    pub added: usize,
    pub dropped: usize,
}

// How many records a pass has kept, and their holds, summed.
#[derive(Clone, Copy)]
pub struct Kept {
    pub records: usize,
    pub total: u64,
}

// What is known before anything is written: T, the records kept and dropped, the total hold and the empty slots of all that is to be written,
// and the longest line of what is left uncovered. Only how many records are added is not.
#[derive(Clone, Copy)]
pub struct Stock {
    pub longest: u64,
    pub kept: usize,
    pub dropped: usize,
    pub total: u64,
    pub empty: u64,
    pub left: u64,
}

// Rescues a plan: codes 1, 2 and 3 of the demand, 10 for too many records in or out, 5 for the plan, 16 for the list.
pub fn rescue_plan(
    n: usize,
    cells: &[u32],
    damaged: &[u8],
    plan: &mut [u8],
    list: &mut [u8],
) -> Answer
    ensures { Saves (rescuing first_edition n cells.now damaged.now plan.old list.old) result plan.new list.new }
{
    rescue_for::<PAIRS>(n, cells, damaged, plan, list, switch::first_edition())
}

// The same for an edition, of whose largest switch P are the pairs.
pub fn rescue_for<const P: usize>(
    n: usize,
    cells: &[u32],
    damaged: &[u8],
    plan: &mut [u8],
    list: &mut [u8],
    e: Edition,
) -> Answer
    requires { Bounded e × (e.ports * e.ports ≤ P) × (P < 2 ^ 61) }
    ensures { Saves (rescuing e n cells.now damaged.now plan.old list.old) result plan.new list.new }
{
    rescued_or_refused::<P>(n, cells, damaged, plan, list, e).unwrap_or_else(refused)
}

// A refusal counts nothing.
fn refused(r: Refusal) -> Answer
    ensures { result ≡ refusal r }
{
    Answer {
        outcome: Err(r),
        added: 0,
        dropped: 0,
    }
}

// The same, where a refusal is passed on.
fn rescued_or_refused<const P: usize>(
    n: usize,
    cells: &[u32],
    damaged: &[u8],
    plan: &mut [u8],
    list: &mut [u8],
    e: Edition,
) -> Result<Answer, Refusal>
    requires { Bounded e × (e.ports * e.ports ≤ P) × (P < 2 ^ 61) }
    ensures { Saves (rescuing e n cells.now damaged.now plan.old list.old) (answer_of result) plan.new list.new }
{
    let longest = check_in(n, cells, damaged, e)?;
    let mut left = [0u32; P];
    let stock = take_stock(n, longest, cells, damaged, e, &mut left);
    write_or_refuse(n, damaged, stock, &mut left, plan, list, e)
}

// What the demand is refused for, and then code 10 for the records that come in, of which a torn tail is one; else T.
fn check_in(n: usize, cells: &[u32], damaged: &[u8], e: Edition) -> Result<u64, Refusal>
    requires { Bounded e }
    ensures { result ≡ check_in e n cells.now damaged.now }
{
    let longest = demand::check_demand(n, e.ports, cells)?;
    let records = damaged.len() / (e.width + HEAD);
    if e.records < records + dropping::torn(damaged, e.width) {
        return Err(Refusal::Records(e.records));
    }
    Ok(longest)
}

// Goes over the records, and leaves in the lent cells what the kept ones do not cover.
fn take_stock(
    n: usize,
    longest: u64,
    cells: &[u32],
    damaged: &[u8],
    e: Edition,
    left: &mut [u32],
) -> Stock
    requires { Bounded e × (check_in e n cells.now damaged.now ≡ Ok longest) × Blank (e.ports * e.ports) left.old }
    ensures { Taken e n longest cells.now damaged.now result left.new }
{
    let records = damaged.len() / (e.width + HEAD);
    let kept = keep_records(n, damaged, e, records, left);
    let over = surplus(n, cells, left);
    leave(cells, left);
    let rest = demand::longest_line(left, n);
    Stock {
        longest,
        kept: kept.records,
        dropped: records - kept.records + dropping::torn(damaged, e.width),
        total: kept.total + rest,
        empty: over + demand::empty_slots(n, left, rest),
        left: rest,
    }
}

// Codes 10 for the records that go out, 5 and 16, and else the plan and the list.
fn write_or_refuse<const P: usize>(
    n: usize,
    damaged: &[u8],
    stock: Stock,
    left: &mut [u32; P],
    plan: &mut [u8],
    list: &mut [u8],
    e: Edition,
) -> Result<Answer, Refusal>
    requires { Stocked e n damaged.now stock left.old × (P < 2 ^ 61) }
    ensures { Saves (fitting e n stock.longest stock.empty (kept e.width e.byte n damaged.now) (exact_plan e.width n left.old) (dropped e.width e.byte n damaged.now) plan.old list.old) (answer_of result) plan.new list.new }
{
    let room = plan.len() / (e.width + HEAD);
    let most = e.records.min(room);
    let records = records_known(n, stock.kept, stock.left, left, most);
    if e.records < records {
        return Err(Refusal::Records(e.records));
    }
    if room < records {
        return Err(Refusal::Room(records));
    }
    if list.len() / dropping::ENTRY < stock.dropped {
        return Err(Refusal::ListRoom(stock.dropped));
    }
    Ok(write(n, damaged, stock, left, plan, list, e))
}

// How many records are kept and added, where they are more than `most`; and else a number that is not either. Those to add are counted, on
// a copy, only where there could be too many.
fn records_known<const P: usize>(
    n: usize,
    kept: usize,
    longest: u64,
    left: &[u32; P],
    most: usize,
) -> usize
    requires { (kept ≤ 65536) × Cells n longest left.now }
    ensures { (W : ℕ) → n ≤ W → W ≤ 128 → Known most (kept + length (exact_plan W n left.now)) result }
{
    let mut spare = *left;
    kept + exact::short_of(&mut spare, n, longest, most.saturating_sub(kept)).unwrap_or(0)
}

// Writes the plan and the list where both have room.
fn write(
    n: usize,
    damaged: &[u8],
    stock: Stock,
    left: &mut [u32],
    plan: &mut [u8],
    list: &mut [u8],
    e: Edition,
) -> Answer
    requires { Stocked e n damaged.now stock left.old × ((stock.kept + length (exact_plan e.width n left.old)) * (e.width + 4) ≤ length plan.old) × (stock.dropped * 4 ≤ length list.old) }
    ensures { Saves (writes e n stock.longest stock.empty (kept e.width e.byte n damaged.now) (exact_plan e.width n left.old) (dropped e.width e.byte n damaged.now) plan.old list.old) result plan.new list.new }
{
    let added = lay_rescued(n, damaged, e, stock.kept, left, stock.left, plan);
    dropping::list_dropped(n, damaged, e, list);
    let counts = Counts {
        records: stock.kept + added,
        longest: stock.longest,
        total: stock.total,
        length: 0,
        empty: stock.empty,
    };
    Answer {
        outcome: Ok(counts),
        added,
        dropped: stock.dropped,
    }
}

// One pass over a plan's whole records: the well-formed ones are counted, and each hold goes to the total and to the pairs that the record joins.
fn keep_records(n: usize, plan: &[u8], e: Edition, records: usize, grants: &mut [u32]) -> Kept
    requires { Readable e n plan.now records × Blank (n * n) grants.old }
    ensures { Keeping e.width e.byte n plan.now records result grants.new }
{
    let mut kept = Kept {
        records: 0,
        total: 0,
    };
    for k in 0..records {
        kept = keep_record(n, plan, e, records, k, kept, grants);
    }
    kept
}

// Record k, where it is well formed; else nothing.
fn keep_record(
    n: usize,
    plan: &[u8],
    e: Edition,
    records: usize,
    k: usize,
    kept: Kept,
    grants: &mut [u32],
) -> Kept
    requires { Readable e n plan.now records × (k < records) × Keeping e.width e.byte n plan.now k kept grants.old }
    ensures { Keeping e.width e.byte n plan.now (k + 1) result grants.new × (length grants.new ≡ length grants.old) }
{
    let read = plans::record_at(plan, e.width, k);
    if !records::record_fine(read, n, e.byte) {
        return kept;
    }
    let hold = records::hold_of(read);
    grants::grant_record(read, n, u32::from(hold), grants);
    Kept {
        records: kept.records + 1,
        total: kept.total + u64::from(hold),
    }
}

// What is granted beyond what is asked, over all pairs. The index serves both: of what comes out of two zipped slices a proof is told too little.
fn surplus(n: usize, cells: &[u32], grants: &[u32]) -> u64
    requires { (n ≤ 128) × (length cells.now ≡ n * n) × (n * n ≤ length grants.now) }
    ensures { (result ≡ beyond n (cell n cells.now) (cell n grants.now)) × (result ≤ n * n * 4294967295) }
{
    let mut empty: u64 = 0;
    for k in 0..cells.len() {
        empty += u64::from(grants[k].saturating_sub(cells[k]));
    }
    empty
}

// What is left uncovered, at each pair the larger of 0 and asked less granted, in the place of the grants. The index serves both here too.
fn leave(cells: &[u32], grants: &mut [u32])
    requires { length cells.now ≤ length grants.old }
    ensures { Left (length cells.now) cells.now grants.old grants.new }
{
    for k in 0..cells.len() {
        grants[k] = cells[k].saturating_sub(grants[k]);
    }
}

// Lays the rescued plan over a plan from its start on: the kept records, and behind them the exact plan of what they leave uncovered; and how
// many are added. The cells of what is left are spent.
fn lay_rescued(
    n: usize,
    damaged: &[u8],
    e: Edition,
    kept: usize,
    work: &mut [u32],
    left: u64,
    plan: &mut [u8],
) -> usize
    requires { Readable e n damaged.now (whole e.width damaged.now) × Cells n left work.old × (kept ≡ length (kept_to e.width e.byte n damaged.now (whole e.width damaged.now))) × ((kept + length (exact_plan e.width n work.old)) * (e.width + 4) ≤ length plan.old) }
    ensures { (result ≡ length (exact_plan e.width n work.old)) × (plan.new ≡ laid plan.old 0 (bytes e.byte n (kept_to e.width e.byte n damaged.now (whole e.width damaged.now) ++ exact_plan e.width n work.old))) }
{
    let size = e.width + HEAD;
    lay_kept(n, damaged, e, damaged.len() / size, plan);
    exact::lay(e, work, n, left, 1, plan, kept * size)
}

// Lays the kept records over a plan from its start on.
// Where a record goes depends on those kept before it, so that the place goes on with them.
fn lay_kept(n: usize, damaged: &[u8], e: Edition, records: usize, plan: &mut [u8])
    requires { Readable e n damaged.now records × (length (bytes e.byte n (kept_to e.width e.byte n damaged.now records)) ≤ length plan.old) }
    ensures { plan.new ≡ laid plan.old 0 (bytes e.byte n (kept_to e.width e.byte n damaged.now records)) }
{
    let mut next: usize = 0;
    for k in 0..records {
        next = lay_record(n, damaged, e, records, k, plan, next);
    }
}

// Lays record k at `next`, where it is well formed; and where the one after it goes.
fn lay_record(
    n: usize,
    damaged: &[u8],
    e: Edition,
    records: usize,
    k: usize,
    plan: &mut [u8],
    next: usize,
) -> usize
    requires { Readable e n damaged.now records × (k < records) × (next + length (bytes e.byte n (kept_at e.width e.byte n damaged.now k)) ≤ length plan.old) }
    ensures { (result ≡ next + length (bytes e.byte n (kept_at e.width e.byte n damaged.now k))) × (plan.new ≡ laid plan.old next (bytes e.byte n (kept_at e.width e.byte n damaged.now k))) }
{
    let rec = plans::record_at(damaged, e.width, k);
    if !records::record_fine(rec, n, e.byte) {
        return next;
    }
    let hold = records::hold_of(rec);
    records::put_record(plan, next, e.byte, hold, n, &rec[HEAD..]);
    next + e.width + HEAD
}
