// The quick cover: one record of hold 1 per slot, until nothing is left of the demand.
// It promises the whole answer and every byte of the lent plan, for any N and any cells: the refusals in their order, all known
// before the first byte is written, and else the plan. The lent demand is only read: what is counted down is a working copy.
// What a demand is refused for, how one slot is filled and the layout of a record are left to the crates below.
#![tactic(auto)]

ghost use Rattle.std.specs.Prelude.{◌≡◌, true, ◌+◌, ◌*◌, ◌<◌, ◌≤◌, length};
ghost use Rattle.demand.specs.Lines.{Short};
ghost use Rattle.records.specs.Bytes.{bytes};
ghost use Rattle.records.specs.Laying.{laid_if};
ghost use Rattle.rules.specs.Quick.{quick_plan};
ghost use Rattle.switch.specs.Editions.{first_edition, second_edition};
ghost use Rattle.switch.specs.Result.{Gives};
ghost use Rattle.planner.specs.Planned.{planned_up_to};
ghost use Rattle.slot.specs.Filled.{leftover, Copy};
ghost use Rattle.quick.specs.Lent.{Space, Lent, Asked, CopyChecked, RoomChecked};

use board::{copy, label_rows};
use demand::{asked_slots, check_demand};
use labels::{Inputs, Outputs};
use records::{HEAD, IDLE, put_if};
use room::{MOST_QUICK, quick_records};
use slot::{Rest, fill_slot};
use switch::{Counts, Edition, Outcome, PORTS, Refusal, WIDE_PORTS};

// The cells of a switch of 64 ports, and of 128.
const CELLS: usize = 4096;

const WIDE_CELLS: usize = 16384;

// The quick cover of a demand, written at the start of a lent plan.
pub fn quick_plan(n: usize, cells: &[u32], plan: &mut [u8]) -> Outcome
    ensures { Gives (planned_up_to 1024 first_edition n cells.now (quick_plan 64 n cells.now) plan.old) result plan.new }
{
    plan_for::<PORTS, CELLS>(switch::first_edition(), n, cells, plan)
}

// The quick cover in the second edition.
pub fn quick_plan_second(n: usize, cells: &[u32], plan: &mut [u8]) -> Outcome
    ensures { Gives (planned_up_to 1024 second_edition n cells.now (quick_plan 128 n cells.now) plan.old) result plan.new }
{
    plan_for::<WIDE_PORTS, WIDE_CELLS>(switch::second_edition(), n, cells, plan)
}

// The quick cover of an edition of so many ports, and of so many cells.
pub fn plan_for<const PORTS: usize, const CELLS: usize>(
    e: Edition,
    n: usize,
    cells: &[u32],
    plan: &mut [u8],
) -> Outcome
    requires { Lent e PORTS CELLS }
    ensures { Gives (planned_up_to 1024 e n cells.now (quick_plan e.width n cells.now) plan.old) result plan.new }
{
    let mut work = [0u32; CELLS];
    let mut rows = [Outputs::none(); PORTS];
    let mut out = [IDLE; PORTS];
    let longest = copy_checked(n, e.ports, cells, &mut work)?;
    if MOST_QUICK < longest {
        return Err(Refusal::Longest);
    }
    plan_checked(
        n,
        cells,
        longest,
        e,
        plan,
        &mut work,
        &mut rows[..n],
        &mut out,
    )
}

// Codes 1, 2 and 3, and else T. The demand is copied in before its lines are summed, so that each of the caller's cells is read once;
// one of more cells than any switch here has is refused unread.
fn copy_checked(n: usize, most: usize, cells: &[u32], work: &mut [u32]) -> Result<u64, Refusal>
    requires { (most ≤ 128) × (most * most ≤ length work.old) }
    ensures { CopyChecked most n cells.now work.new result }
{
    let size = cells.len();
    if work.len() < size {
        return check_demand(n, most, cells);
    }
    copy(cells, work);
    check_demand(n, most, &work[..size])
}

// The same for a demand that nothing but the room can refuse, and that is copied in.
fn plan_checked(
    n: usize,
    cells: &[u32],
    longest: u64,
    e: Edition,
    plan: &mut [u8],
    work: &mut [u32],
    rows: &mut [Outputs],
    out: &mut [u8],
) -> Outcome
    requires { Asked e n longest cells.now work.old × Space n work.old rows.old out.old × (length out.old ≡ e.width) }
    ensures { Gives (planned_up_to 1024 e n cells.now (quick_plan e.width n cells.now) plan.old) result plan.new }
{
    check_room(n, cells, longest, e, plan, work, rows, out)?;
    let records = fill_slots(n, e.byte, plan, true, work, rows, out);
    Ok(Counts {
        records,
        longest,
        total: records as u64,
        length: 0,
        empty: 0,
    })
}

// Code 5, where the room is too small for the plan's records. With the room that is promised beforehand they are not counted; with less they
// are, and the demand is copied in again.
fn check_room(
    n: usize,
    cells: &[u32],
    longest: u64,
    e: Edition,
    plan: &mut [u8],
    work: &mut [u32],
    rows: &mut [Outputs],
    out: &mut [u8],
) -> Result<(), Refusal>
    requires { Asked e n longest cells.now work.old × Space n work.old rows.old out.old × (length out.old ≡ e.width) }
    ensures same { plan.new ≡ plan.old }
    ensures room { RoomChecked e.width n cells.now plan.old work.new result }
{
    let room = plan.len() / (e.width + HEAD);
    if quick_records(longest) <= room {
        return Ok(());
    }
    let need = fill_slots(n, e.byte, plan, false, work, rows, out);
    if room < need {
        return Err(Refusal::Room(need));
    }
    copy(cells, work);
    Ok(())
}

// All slots of the working copy, until nothing is left: how many they are, and their records at the plan's start where they are to be written.
// The working copy is spent.
// One loop counts and writes, as in `exact`; how many slots there are is known where nothing is left.
fn fill_slots(
    n: usize,
    edition: u8,
    plan: &mut [u8],
    writes: bool,
    work: &mut [u32],
    rows: &mut [Outputs],
    out: &mut [u8],
) -> usize
    requires { Short n work.old × Space n work.old rows.old out.old × (writes ≡ true → length (bytes edition n (leftover (length out.old) n 0 work.old)) ≤ length plan.old) }
    ensures { (result ≡ length (leftover (length out.old) n 0 work.old)) × (plan.new ≡ laid_if writes plan.old 0 (bytes edition n (leftover (length out.old) n 0 work.old))) }
{
    let mut rest = load(n, work, rows);
    let mut s: usize = 0;
    let mut at: usize = 0;
    while rest.left != 0 {
        rest = fill_slot(n, work, rows, rest, s, out);
        at = put_if(writes, plan, at, edition, 1, n, out);
        s += 1;
    }
    s
}

// The labels of the working copy, and what there is to serve: any input may ask.
fn load(n: usize, work: &[u32], rows: &mut [Outputs]) -> Rest
    requires { Short n work.now × (0 < n) × (length rows.old ≡ n) }
    ensures { Copy n result work.now rows.new }
{
    label_rows(work, n, rows);
    Rest {
        inputs: Inputs::first(n),
        left: asked_slots(n, work),
    }
}
