// Which setting is in force at a slot, holds alone counted (§23.1): out of tonight's plan and, once that is over, out of the standby plan.
// Both plans are judged whole, also where the slot falls in tonight's. The part is lent out of the plan that it stands in; `find` says the
// same in numbers, for an edge that returns no reference. Both promise their whole answer for any N, any bytes and any slot of 64 bits.
#![tactic(auto)]

ghost use Rattle.std.specs.Prelude.{◌≡◌, ◌<◌, ◌≤◌};
ghost use Rattle.records.specs.Bytes.{whole, plan_of};
ghost use Rattle.switch.specs.Editions.{first_edition, Bounded};
ghost use Rattle.lookup.specs.Force.{in_force};
ghost use Rattle.lookup.specs.Lookup.{spot_in, spot_of, part_of, found_of, part_found, none_found, Inside, Judged};

use records::HEAD;
use switch::{About, Blamed, Counts, Edition, Outcome, Refusal};

// The numbers of the two plans, for an edge that knows numbers alone.
const TONIGHT: u64 = 1;

const STANDBY: u64 = 2;

// Where the record in force stands.
#[derive(Clone, Copy)]
pub enum Spot {
    // A record of tonight's plan.
    Tonight(usize),
    // A record of the standby plan.
    Standby(usize),
}

// A lookup in numbers: bytes start .. start + size of plan 1, tonight's, or 2, standby's; all three are 0 where it is refused.
#[derive(Clone, Copy)]
pub struct Found {
    pub outcome: Outcome,
    pub about: About,
    pub plan: u64,
    pub start: usize,
    pub size: usize,
}

// The record in force at a slot, its own bytes out of one of the two plans; empty where the lookup is refused.
// Its promise gives bytes in every case, so that they are no Option.
pub fn part_in_force<'a>(n: usize, tonight: &'a [u8], standby: &'a [u8], slot: u64) -> &'a [u8]
    ensures { result.now ≡ part_of first_edition (spot_of first_edition n tonight.now standby.now slot) tonight.now standby.now }
{
    match spot_of(n, tonight, standby, slot, switch::first_edition()) {
        Ok(Spot::Tonight(k)) => plans::record_at(tonight, records::OUTPUTS, k),
        Ok(Spot::Standby(k)) => plans::record_at(standby, records::OUTPUTS, k),
        Err(_) => &[],
    }
}

// The same in numbers. Code 1 comes first, then what either plan is refused for (9, 10, 11), tonight's before standby's, then 14.
pub fn find(n: usize, tonight: &[u8], standby: &[u8], slot: u64) -> Found
    ensures { result ≡ found_of first_edition (spot_of first_edition n tonight.now standby.now slot) }
{
    let e = switch::first_edition();
    found_of(spot_of(n, tonight, standby, slot, e), e)
}

// A spot in numbers.
fn found_of(spot: Result<Spot, Blamed>, e: Edition) -> Found
    requires { Bounded e × Inside e.records e.records spot }
    ensures { result ≡ found_of e spot }
{
    match spot {
        Ok(Spot::Tonight(k)) => part_found(TONIGHT, k, e.width + HEAD),
        Ok(Spot::Standby(k)) => part_found(STANDBY, k, e.width + HEAD),
        Err(blamed) => none_found(blamed),
    }
}

// Record k of a plan of records of a size. Nothing is counted.
fn part_found(plan: u64, k: usize, size: usize) -> Found
    requires { (k < 65536) × (size ≤ 132) }
    ensures { result ≡ part_found plan k size }
{
    Found {
        outcome: Ok(plans::counted(0, 0, 0)),
        about: About::Nothing,
        plan,
        start: k * size,
        size,
    }
}

// An empty part of no plan.
fn none_found(blamed: Blamed) -> Found
    ensures { result ≡ none_found blamed.about blamed.refusal }
{
    Found {
        outcome: Err(blamed.refusal),
        about: blamed.about,
        plan: 0,
        start: 0,
        size: 0,
    }
}

// Where the record in force at a slot stands, in plans of an edition; or why there is none, and which plan that is about.
pub fn spot_of(
    n: usize,
    tonight: &[u8],
    standby: &[u8],
    slot: u64,
    e: Edition,
) -> Result<Spot, Blamed>
    requires { Bounded e }
    ensures { result ≡ spot_of e n tonight.now standby.now slot }
{
    if n == 0 {
        return Err(Refusal::Ports.about(About::Nothing));
    }
    if e.ports < n {
        return Err(Refusal::Ports.about(About::Nothing));
    }
    let first = plans::check_plan(n, tonight, e).map_err(|r| r.about(About::Tonight))?;
    let second = plans::check_plan(n, standby, e).map_err(|r| r.about(About::Standby))?;
    spot_in(tonight, first, standby, second, slot, e.width)
}

// Where both plans are judged. The standby plan starts where tonight's is over, and repeats.
fn spot_in(
    tonight: &[u8],
    first: Counts,
    standby: &[u8],
    second: Counts,
    slot: u64,
    width: usize,
) -> Result<Spot, Blamed>
    requires { (width ≤ 128) × Judged width tonight.now first × Judged width standby.now second }
    ensures { result ≡ spot_in (plan_of width tonight.now) (plan_of width standby.now) slot }
{
    if slot < first.total {
        let k = record_in_force(tonight, width, first.records, slot);
        return Ok(Spot::Tonight(k));
    }
    if second.records == 0 {
        return Err(Refusal::NotInForce.about(About::Nothing));
    }
    let at = (slot - first.total) % second.total;
    let k = record_in_force(standby, width, second.records, at);
    Ok(Spot::Standby(k))
}

// The record in force at a slot of a plan: one pass over the holds, which ends there; the number of records where all are over by then.
// No call comes that late, so that an Option would only be taken apart again.
fn record_in_force(plan: &[u8], width: usize, records: usize, slot: u64) -> usize
    requires { (width ≤ 128) × (records ≡ whole width plan.now) }
    ensures { result ≡ in_force (plan_of width plan.now) slot }
{
    let mut left = slot;
    for k in 0..records {
        let hold = u64::from(records::hold_of(plans::record_at(plan, width, k)));
        if left < hold {
            return k;
        }
        left -= hold;
    }
    records
}
