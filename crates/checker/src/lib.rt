// The checker (§10): a plan from anywhere held against a demand.
// Nothing is known of the bytes. The call promises its whole answer for any N, demand and plan: each refusal exactly in its case and with its
// place, in the documented order. What a demand is refused for stands in the crate demand, what a plan grants in the crate grants; that
// the planners' plans pass here is a law of the crate promises.
#![tactic(auto)]

ghost use Rattle.std.specs.Prelude.{◌≡◌, ◌*◌, ◌≤◌, length, ◌<◌, ◌^◌};
ghost use Rattle.switch.specs.Demand.{cell};
ghost use Rattle.switch.specs.Editions.{first_edition, second_edition, Bounded};
ghost use Rattle.plans.specs.Reading.{reading};
ghost use Rattle.checker.specs.Check.{meeting, covering, check_plan};

use switch::{Counts, Edition, Outcome, Refusal};

// The pairs of a switch of 64 ports.
const PAIRS: usize = 4096;

// Those of a switch of 128 ports.
const WIDE_PAIRS: usize = 16384;

// Checks a plan from anywhere against a demand: refusals 1, 2, 3, 9, 10, 11 and 13, else its records, T, its total and its empty slots.
pub fn check_plan(n: usize, cells: &[u32], plan: &[u8]) -> Outcome
    ensures { result ≡ check_plan first_edition n cells.now plan.now }
{
    check_for::<PAIRS>(n, cells, plan, switch::first_edition())
}

// The same in the second edition.
pub fn check_plan_second(n: usize, cells: &[u32], plan: &[u8]) -> Outcome
    ensures { result ≡ check_plan second_edition n cells.now plan.now }
{
    check_for::<WIDE_PAIRS>(n, cells, plan, switch::second_edition())
}

// The checker for an edition, with a grant for each pair of its largest switch.
pub fn check_for<const GRANTS: usize>(n: usize, cells: &[u32], plan: &[u8], e: Edition) -> Outcome
    requires { Bounded e × (e.ports * e.ports ≤ GRANTS) × (GRANTS < 2 ^ 61) }
    ensures { result ≡ check_plan e n cells.now plan.now }
{
    let longest = demand::check_demand(n, e.ports, cells)?;
    check_records::<GRANTS>(n, cells, longest, plan, e)
}

// The checker for a demand that is fine.
fn check_records<const GRANTS: usize>(
    n: usize,
    cells: &[u32],
    longest: u64,
    plan: &[u8],
    e: Edition,
) -> Outcome
    requires { Bounded e × (e.ports * e.ports ≤ GRANTS) × (GRANTS < 2 ^ 61) × (length cells.now ≡ n * n) }
    ensures { result ≡ reading e n plan.now (covering longest n cells.now) }
{
    let records = plans::open(n, plan, e)?.records;
    let mut grants = [0u32; GRANTS];
    let pass = grants::grant_plan(n, plan, e, records, &mut grants);
    pass.end?;
    let empty = meet(n, cells, &grants).map_err(Refusal::Uncovered)?;
    Ok(Counts {
        records,
        longest,
        total: pass.total,
        length: 0,
        empty,
    })
}

// One pass over the cells: the first, in cell order, whose granted slots are fewer than asked; or, over all, granted less asked.
// k names the cell in a refusal.
fn meet(n: usize, cells: &[u32], grants: &[u32]) -> Result<u64, usize>
    requires { (n ≤ 128) × (length cells.now ≡ n * n) × (n * n ≤ length grants.now) }
    ensures { result ≡ meeting n (cell n cells.now) (cell n grants.now) }
{
    let mut empty: u64 = 0;
    for (k, cell) in cells.iter().enumerate() {
        if grants[k] < *cell {
            return Err(k);
        }
        empty += u64::from(grants[k] - *cell);
    }
    Ok(empty)
}
