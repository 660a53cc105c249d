// Plans for the grating fabric (§13): the doubled plan with anti-rotations in the place of rotations. Of the planner below it knows the
// promises alone: its first part is what the exact call writes for the divided demand. It promises its whole
// answer and every byte of the lent plan, for any N and any cells; all refusals are known before the first byte is written. What a plan
// does to the wavelengths is told by the crate wavelengths.
#![tactic(auto)]

ghost use Rattle.std.specs.Prelude.{◌≡◌, ◌+◌, ◌*◌, ◌≤◌, length, Ok, ◌<◌, ◌^◌};
ghost use Rattle.switch.specs.Editions.{first_edition, Bounded};
ghost use Rattle.switch.specs.Result.{Gives};
ghost use Rattle.switch.specs.Answer.{plan_counts};
ghost use Rattle.demand.specs.Check.{check_demand};
ghost use Rattle.switch.specs.Plan.{total};
ghost use Rattle.records.specs.Bytes.{whole, plan_from, bytes, laid};
ghost use Rattle.planner.specs.Planned.{room_for};
ghost use Rattle.turns.specs.Second.{Table};
ghost use Rattle.grating.specs.Grating.{grating_planned};
ghost use Rattle.grating.specs.Parts.{stretched, made_parts, First, Roomy};

use demand::check_demand;
use plans::record_at;
use records::{HEAD, hold_of, put_record};
use switch::{Counts, Edition, Outcome, PORTS, Refusal};
use turns::{Rule, Turning};

// The cells of a switch of 64 ports.
const CELLS: usize = 4096;

// The first part has no more records than there are ports: 64 records of 68 bytes.
const FIRST: usize = 4352;

// The doubled plan of a demand for the grating fabric, written at the start of the plan buffer: refusals 1, 2, 3 and 5, else its records and total.
pub fn grating_doubled(n: usize, cells: &[u32], plan: &mut [u8]) -> Outcome
    ensures { Gives (grating_planned first_edition n cells.now plan.old) result plan.new }
{
    plan_for::<CELLS, PORTS, FIRST>(switch::first_edition(), n, cells, plan)
}

// The same plan of an edition. It has, for the edition's largest switch, `C` cells for the quotients, as has the exact call's working copy,
// a hold for each of `P` anti-rotations, and `F` bytes for the first part, which has no more records than there are ports.
pub fn plan_for<const C: usize, const P: usize, const F: usize>(
    e: Edition,
    n: usize,
    cells: &[u32],
    plan: &mut [u8],
) -> Outcome
    requires { Roomy e C P F }
    ensures { Gives (grating_planned e n cells.now plan.old) result plan.new }
{
    let longest = check_demand(n, e.ports, cells)?;
    let mut quotients = [0u32; C];
    let mut holds = [0u16; P];
    let mut first = [0u8; F];
    let size = cells.len();
    plan_fine::<C>(
        e,
        n,
        longest,
        cells,
        &mut quotients[..size],
        &mut holds[..n],
        &mut first,
        plan,
    )
}

// The same for a demand that nothing but the room can refuse. If T is 0, the plan is empty, and there is no u to divide by.
fn plan_fine<const C: usize>(
    e: Edition,
    n: usize,
    longest: u64,
    cells: &[u32],
    quotients: &mut [u32],
    holds: &mut [u16],
    first: &mut [u8],
    plan: &mut [u8],
) -> Outcome
    requires { (check_demand e.ports n cells.now ≡ Ok longest) × Bounded e × (length quotients.old ≡ length cells.now) × ((e.ports * e.ports ≤ C) × (C < 2 ^ 61)) × (length holds.old ≡ n) × (e.ports ≤ whole e.width first.old) }
    ensures { Gives (grating_planned e n cells.now plan.old) result plan.new }
{
    if longest == 0 {
        return done(0, 0);
    }
    let unit = turns::split(
        Rule::Tight,
        Turning::Backward,
        n,
        longest,
        cells,
        quotients,
        holds,
    );
    let made = exact::plan_for::<C>(e, n, quotients, first)?;
    lay_parts(e, n, unit, first, made.records, made.total, holds, plan)
}

// Both parts, once it is known that there is room for both: so many records at the start of `first`, with the sum of their holds, and the
// anti-rotations.
fn lay_parts(
    e: Edition,
    n: usize,
    unit: u32,
    first: &[u8],
    records: usize,
    total: u64,
    holds: &[u16],
    plan: &mut [u8],
) -> Outcome
    requires { Table n holds.now × (n ≤ e.width) × (e.width ≤ 128) × First e.width unit first.now records total }
    ensures { Gives (room_for e n 0 0 (made_parts e.width n unit first.now records holds.now) plan.old) result plan.new }
{
    let second = turns::measure(n, holds);
    let need = records + second.records;
    let width = e.width;
    let room = plan.len() / (width + HEAD);
    if room < need {
        return Err(Refusal::Room(need));
    }
    lay_first(e, n, unit, first, records, plan);
    turns::lay(
        Turning::Backward,
        e,
        n,
        holds,
        plan,
        records * (width + HEAD),
    );
    done(need, total * unit as u64 + second.total)
}

// The first part at the plan's start, each hold multiplied by u.
fn lay_first(e: Edition, n: usize, unit: u32, first: &[u8], records: usize, plan: &mut [u8])
    requires { (n ≤ e.width) × (e.width ≤ 128) × First e.width unit first.now records (total (plan_from e.width first.now 0 records)) × (records * (e.width + 4) ≤ length plan.old) }
    ensures { plan.new ≡ laid plan.old 0 (bytes e.byte n (stretched e.width unit first.now records)) }
{
    let width = e.width;
    for k in 0..records {
        let rec = record_at(first, width, k);
        let hold = hold_of(rec) as u32 * unit;
        put_record(
            plan,
            k * (width + HEAD),
            e.byte,
            hold as u16,
            n,
            &rec[HEAD..],
        );
    }
}

// A plan of so many records and so long in all is written.
fn done(records: usize, total: u64) -> Outcome
    ensures { result ≡ Ok (plan_counts records 0 total) }
{
    Ok(Counts {
        records,
        longest: 0,
        total,
        length: 0,
        empty: 0,
    })
}
