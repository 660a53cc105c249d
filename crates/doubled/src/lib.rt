// The doubled planner (§7): the exact plan of the quotients by u, held u times as long, and the rotations for what is left over,
// held by the tight rule or, for callers that ask for it by name, every one for u - 1. It promises the whole answer and every byte of the
// lent plan, for any N and any cells: the refusals in their order, all known before the first byte is written, and else the plan.
// The lent demand is only read. The settings of the first part are `exact`'s; u, the quotients, the rotations and their rules are `turns`';
// and what a demand is refused for is `demand`'s: this crate counts what both parts need, and adds up.
#![tactic(auto)]

ghost use Rattle.std.specs.Prelude.{◌≡◌, ℕ, ◌+◌, ◌*◌, ◌<◌, ◌≤◌, length, Ok, ◌^◌};
ghost use Rattle.switch.specs.Editions.{first_edition, second_edition, Bounded};
ghost use Rattle.switch.specs.Result.{Gives};
ghost use Rattle.demand.specs.Check.{check_demand};
ghost use Rattle.rules.specs.Exact.{exact_plan};
ghost use Rattle.rules.specs.Doubled.{divide, every_rotation_plan, doubled_plan, Doubled};
ghost use Rattle.planner.specs.Planned.{planned};
ghost use Rattle.records.specs.Bytes.{bytes, laid};
ghost use Rattle.peel.specs.Standing.{Cells};
ghost use Rattle.exact.specs.Laying.{Place};
ghost use Rattle.turns.specs.declared.Turning.TheVariants.{Forward};
ghost use Rattle.turns.specs.Second.{doubled_rule, parts, Divided, Table};
ghost use Rattle.doubled.specs.Parts.{Needs};

use demand::{check_demand, empty_slots, longest_line};
use records::HEAD;
use switch::{Counts, Edition, Outcome, PORTS, Refusal, WIDE_PORTS};
use turns::{Rule, Turning};

// The cells of a switch of 64 ports, and of 128.
const CELLS: usize = 4096;

const WIDE_CELLS: usize = 16384;

// The doubled plan of a demand, written at the start of a lent plan. Each rotation is held for the largest remainder among its pairs.
pub fn doubled_plan(n: usize, cells: &[u32], plan: &mut [u8]) -> Outcome
    ensures { Gives (planned first_edition n cells.now (doubled_plan 64 n cells.now) plan.old) result plan.new }
{
    plan_for::<CELLS, PORTS>(Rule::Tight, switch::first_edition(), n, cells, plan)
}

// The doubled plan by the old rule: if u is at least 2, every rotation is there, held for u - 1.
pub fn doubled_plan_every_rotation(n: usize, cells: &[u32], plan: &mut [u8]) -> Outcome
    ensures { Gives (planned first_edition n cells.now (every_rotation_plan 64 n cells.now) plan.old) result plan.new }
{
    plan_for::<CELLS, PORTS>(Rule::Every, switch::first_edition(), n, cells, plan)
}

// The doubled plan in the second edition, by the tight rule.
pub fn doubled_plan_second(n: usize, cells: &[u32], plan: &mut [u8]) -> Outcome
    ensures { Gives (planned second_edition n cells.now (doubled_plan 128 n cells.now) plan.old) result plan.new }
{
    plan_for::<WIDE_CELLS, WIDE_PORTS>(Rule::Tight, switch::second_edition(), n, cells, plan)
}

// The doubled plan in the second edition, by the old rule.
pub fn doubled_plan_every_rotation_second(n: usize, cells: &[u32], plan: &mut [u8]) -> Outcome
    ensures { Gives (planned second_edition n cells.now (every_rotation_plan 128 n cells.now) plan.old) result plan.new }
{
    plan_for::<WIDE_CELLS, WIDE_PORTS>(Rule::Every, switch::second_edition(), n, cells, plan)
}

// The doubled plan of an edition by either rule. It has `C` cells, as many as the edition's largest switch, for the quotients, and a hold
// for each of that switch's `P` rotations.
pub fn plan_for<const C: usize, const P: usize>(
    rule: Rule,
    e: Edition,
    n: usize,
    cells: &[u32],
    plan: &mut [u8],
) -> Outcome
    requires { Bounded e × (e.ports * e.ports ≤ C) × (e.ports ≤ P) × (C < 2 ^ 61) × (P < 2 ^ 62) }
    ensures { Gives (planned e n cells.now (doubled_rule rule Forward e.width n cells.now) plan.old) result plan.new }
{
    let longest = check_demand(n, e.ports, cells)?;
    let mut work = [0u32; C];
    let mut holds = [0u16; P];
    let size = cells.len();
    plan_fine(
        rule,
        e,
        n,
        longest,
        cells,
        &mut work[..size],
        &mut holds[..n],
        plan,
    )
}

// The same for a demand that nothing but the room can refuse. If T is 0, the plan is empty, and there is no u to divide by.
fn plan_fine(
    rule: Rule,
    e: Edition,
    n: usize,
    longest: u64,
    cells: &[u32],
    work: &mut [u32],
    holds: &mut [u16],
    plan: &mut [u8],
) -> Outcome
    requires { (check_demand e.ports n cells.now ≡ Ok longest) × Bounded e × (length work.old ≡ length cells.now) × (length holds.old ≡ n) }
    ensures { Gives (planned e n cells.now (doubled_rule rule Forward e.width n cells.now) plan.old) result plan.new }
{
    if longest == 0 {
        return Ok(Counts {
            records: 0,
            longest: 0,
            total: 0,
            length: 0,
            empty: 0,
        });
    }
    let unit = turns::split(rule, Turning::Forward, n, longest, cells, work, holds);
    plan_parts(e, n, longest, unit, cells, work, holds, plan)
}

// The plan of quotients and of holds that meet the remainders: both parts, once it is known that there is room for both.
fn plan_parts(
    e: Edition,
    n: usize,
    longest: u64,
    unit: u32,
    cells: &[u32],
    work: &mut [u32],
    holds: &[u16],
    plan: &mut [u8],
) -> Outcome
    requires { Divided e n longest unit cells.now work.old × Table n holds.now × Doubled n cells.now (parts Forward e.width n unit work.old holds.now) }
    ensures { Gives (planned e n cells.now (parts Forward e.width n unit work.old holds.now) plan.old) result plan.new }
{
    let first = longest_line(work, n);
    let second = turns::measure(n, holds);
    let turns = second.records;
    let width = e.width;
    let room = plan.len() / (width + HEAD);
    let need = needed(cells, work, n, unit, first, turns, room);
    if room < need {
        return Err(Refusal::Room(need));
    }
    let records = lay_parts(e, work, n, first, unit, holds, plan);
    let total = first * unit as u64 + second.total;
    Ok(Counts {
        records: records + turns,
        longest,
        total,
        length: 0,
        empty: empty_slots(n, cells, total),
    })
}

// How many records both parts have, where that could be over the room. A part has no more records than its total, so where the first's
// total fits beside the rotations nothing is counted.
fn needed(
    cells: &[u32],
    work: &mut [u32],
    n: usize,
    unit: u32,
    first: u64,
    turns: usize,
    room: usize,
) -> usize
    requires { Cells n first work.old × (work.old ≡ divide unit cells.now) × (0 < unit) × (turns ≤ n) }
    ensures { (work.new ≡ work.old) × ((W : ℕ) → n ≤ W → W ≤ 128 → Needs room result (length (exact_plan W n work.old) + turns)) }
{
    let most = first as usize + turns;
    if most <= room {
        return most;
    }
    let need = exact::count(work, n, first) + turns;
    turns::quotients(cells, work, unit);
    need
}

// The first part at the plan's start and the second behind it; and how many records the first has. The quotients are spent.
fn lay_parts(
    e: Edition,
    work: &mut [u32],
    n: usize,
    first: u64,
    unit: u32,
    holds: &[u16],
    plan: &mut [u8],
) -> usize
    requires { Cells n first work.old × Table n holds.now × Place n first unit e.width 0 (parts Forward e.width n unit work.old holds.now) plan.old }
    ensures { (result ≡ length (exact_plan e.width n work.old)) × (plan.new ≡ laid plan.old 0 (bytes e.byte n (parts Forward e.width n unit work.old holds.now))) }
{
    let width = e.width;
    let records = exact::lay(e, work, n, first, unit, plan, 0);
    turns::lay(
        Turning::Forward,
        e,
        n,
        holds,
        plan,
        records * (width + HEAD),
    );
    records
}
