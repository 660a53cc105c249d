// The exact planner: a demand is filled to T and peeled, and no plan that covers it has a smaller total hold.
// `exact_plan` promises its answer and every byte of the plan buffer by the definition `exact_plan`; everything is decided before the
// first byte is written. `count` and `lay` do the same for cells at the start of a working copy, for any record width and with holds
// multiplied, so that a planner above needs nothing but their promises.
#![tactic(auto)]

ghost use Rattle.std.specs.Prelude.{◌≡◌, map, ℕ, ◌*◌, ◌≤◌, length, Ok, ◌<◌, ◌^◌};
ghost use Rattle.switch.specs.Editions.{first_edition, second_edition, Bounded};
ghost use Rattle.switch.specs.Result.{Gives};
ghost use Rattle.demand.specs.Check.{check_demand};
ghost use Rattle.rules.specs.Exact.{exact_plan};
ghost use Rattle.rules.specs.Doubled.{stretch};
ghost use Rattle.records.specs.Bytes.{bytes, laid};
ghost use Rattle.records.specs.Laying.{laid_if};
ghost use Rattle.planner.specs.Planned.{planned};
ghost use Rattle.peel.specs.Standing.{Cells, Tables};
ghost use Rattle.exact.specs.Laying.{Exceeds, Place, Goes};

use demand::{check_demand, empty_slots};
use labels::Outputs;
use peel::{nobody, start, take_off};
use records::{HEAD, put_if};
use room::exact_records;
use search::Pairs;
use switch::{Counts, Edition, Outcome, Refusal, WIDE_PORTS};

// The cells of a switch of 64 ports, and of 128.
const CELLS: usize = 4096;

const WIDE_CELLS: usize = 16384;

// What becomes of the records of N ports and a longest line T: they are counted, or written over a plan from `at` on, so many outputs
// each, and each held `unit` times as long. One loop does both: handed what becomes of a record as a closure, its contract would have to
// tell each call of it in order.
#[derive(Clone, Copy)]
struct Job {
    n: usize,
    longest: u64,
    writes: bool,
    edition: u8,
    width: usize,
    unit: u32,
    at: usize,
}

// The exact plan of a demand, written at the start of the plan buffer.
pub fn exact_plan(n: usize, cells: &[u32], plan: &mut [u8]) -> Outcome
    ensures { Gives (planned first_edition n cells.now (exact_plan 64 n cells.now) plan.old) result plan.new }
{
    plan_for::<CELLS>(switch::first_edition(), n, cells, plan)
}

// The exact plan in the second edition.
pub fn exact_plan_second(n: usize, cells: &[u32], plan: &mut [u8]) -> Outcome
    ensures { Gives (planned second_edition n cells.now (exact_plan 128 n cells.now) plan.old) result plan.new }
{
    plan_for::<WIDE_CELLS>(switch::second_edition(), n, cells, plan)
}

// The exact plan of an edition, with a working copy of as many cells as its largest switch has.
pub fn plan_for<const ROOM: usize>(e: Edition, n: usize, cells: &[u32], plan: &mut [u8]) -> Outcome
    requires { Bounded e × (e.ports * e.ports ≤ ROOM) × (ROOM < 2 ^ 61) }
    ensures { Gives (planned e n cells.now (exact_plan e.width n cells.now) plan.old) result plan.new }
{
    let longest = check_demand(n, e.ports, cells)?;
    let mut work = [0u32; ROOM];
    lay_or_refuse(e, n, longest, cells, &mut work, plan)
}

// The exact plan at the plan's start, or code 5. The demand is only read; what is filled and peeled is a working copy.
fn lay_or_refuse(
    e: Edition,
    n: usize,
    longest: u64,
    cells: &[u32],
    work: &mut [u32],
    plan: &mut [u8],
) -> Outcome
    requires { (check_demand e.ports n cells.now ≡ Ok longest) × Bounded e × (n * n ≤ length work.old) }
    ensures { Gives (planned e n cells.now (exact_plan e.width n cells.now) plan.old) result plan.new }
{
    board::copy(cells, work);
    if let Some(need) = short_of(work, n, longest, plan.len() / (e.width + HEAD)) {
        return Err(Refusal::Room(need));
    }
    board::copy(cells, work);
    let records = lay(e, work, n, longest, 1, plan, 0);
    Ok(Counts {
        records,
        longest,
        total: longest,
        length: 0,
        empty: empty_slots(n, cells, longest),
    })
}

// How many records the exact plan has, where the room is too small for them. The cells are spent.
// They are not counted where there is the room that is promised beforehand.
pub fn short_of(work: &mut [u32], n: usize, longest: u64, room: usize) -> Option<usize>
    requires { Cells n longest work.old }
    ensures { (W : ℕ) → n ≤ W → W ≤ 128 → Exceeds room (length (exact_plan W n work.old)) result }
{
    if exact_records(n, longest) <= room {
        return None;
    }
    let need = count(work, n, longest);
    if room < need {
        return Some(need);
    }
    None
}

// How many records the exact plan has. The cells are spent.
pub fn count(work: &mut [u32], n: usize, longest: u64) -> usize
    requires { Cells n longest work.old }
    ensures { (W : ℕ) → n ≤ W → W ≤ 128 → result ≡ length (exact_plan W n work.old) }
{
    let job = Job {
        n,
        longest,
        writes: false,
        edition: 0,
        width: 0,
        unit: 0,
        at: 0,
    };
    let mut nothing = [0u8; 1];
    peel_all(job, work, &mut nothing)
}

// The exact plan's records laid over a plan from `at` on, each held `unit` times as long; and how many they are. The cells are spent.
pub fn lay(
    e: Edition,
    work: &mut [u32],
    n: usize,
    longest: u64,
    unit: u32,
    plan: &mut [u8],
    at: usize,
) -> usize
    requires { Cells n longest work.old × Place n longest unit e.width at (exact_plan e.width n work.old) plan.old }
    ensures { (result ≡ length (exact_plan e.width n work.old)) × (plan.new ≡ laid plan.old at (bytes e.byte n (map (stretch unit) (exact_plan e.width n work.old)))) }
{
    let job = Job {
        n,
        longest,
        writes: true,
        edition: e.byte,
        width: e.width,
        unit,
        at,
    };
    peel_all(job, work, plan)
}

// The settings taken off the working copy, with fresh labels and tables.
fn peel_all(job: Job, work: &mut [u32], plan: &mut [u8]) -> usize
    requires { Cells job.n job.longest work.old × Goes job.n job.longest job.writes job.width job.unit job.at work.old plan.old }
    ensures { ((W : ℕ) → job.n ≤ W → W ≤ 128 → result ≡ length (exact_plan W job.n work.old)) × (plan.new ≡ laid_if job.writes plan.old job.at (bytes job.edition job.n (map (stretch job.unit) (exact_plan job.width job.n work.old)))) }
{
    let n = job.n;
    let mut rows = [Outputs::none(); WIDE_PORTS];
    let mut pairs = Pairs::new();
    peel_off(job, work, &mut rows[..n], &mut pairs, plan)
}

// One setting after the other, until nothing is left: how many they are, and their records where they are to be written.
// There is nothing to walk over: how many settings there are is known where nothing remains.
fn peel_off(
    job: Job,
    work: &mut [u32],
    rows: &mut [Outputs],
    pairs: &mut Pairs,
    plan: &mut [u8],
) -> usize
    requires { Cells job.n job.longest work.old × Tables job.n rows.old pairs.old.by pairs.old.out × Goes job.n job.longest job.writes job.width job.unit job.at work.old plan.old }
    ensures { ((W : ℕ) → job.n ≤ W → W ≤ 128 → result ≡ length (exact_plan W job.n work.old)) × (plan.new ≡ laid_if job.writes plan.old job.at (bytes job.edition job.n (map (stretch job.unit) (exact_plan job.width job.n work.old)))) }
{
    let n = job.n;
    start(work, n, job.longest, rows);
    let width = job.width;
    let mut records: usize = 0;
    let mut seats = nobody(n);
    let mut remains = job.longest;
    let mut next = job.at;
    while 0 < remains {
        let s = take_off(work, n, rows, pairs, seats);
        seats = s.seats;
        remains -= s.hold as u64;
        let hold = (s.hold * job.unit) as u16;
        next = put_if(
            job.writes,
            plan,
            next,
            job.edition,
            hold,
            n,
            &pairs.out[..width],
        );
        records += 1;
    }
    records
}
