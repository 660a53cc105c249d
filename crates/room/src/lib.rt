// The room that always suffices: for each planner, from N and T alone, a number of records that no plan of its exceeds, so that memory
// can be set aside before a demand is known. The calls promise their whole answer for any N and any T. That a planner lent this much
// room never refuses for want of it is shown above the planners, which cite the same numbers where they need not count their records.
#![tactic(auto)]

ghost use Rattle.std.specs.Prelude.{◌≡◌, ◌*◌, ◌≤◌};
ghost use Rattle.switch.specs.Editions.{first_edition, second_edition, Bounded};
ghost use Rattle.room.specs.declared.Planner.TheVariants.{Exact, Doubled, Quick};
ghost use Rattle.room.specs.Room.{exact_room, quick_room, sufficing, room_of, roomed};

use switch::{Counts, Edition, LONGEST, Outcome, Refusal};

// The quick cover takes no T above this.
pub const MOST_QUICK: u64 = 1024;

// Whose plan is to find room. The calls' promises name it by value, so that it is told by a case and not handed in as a function.
#[derive(Clone, Copy)]
pub enum Planner {
    Exact,
    Doubled,
    Quick,
}

// The room of the exact plan for N and T.
pub fn exact_room(n: usize, longest: u64) -> Outcome
    ensures { result ≡ roomed first_edition Exact n longest }
{
    room_for(n, longest, Planner::Exact, switch::first_edition())
}

// The room of the doubled plan, by either rule.
pub fn doubled_room(n: usize, longest: u64) -> Outcome
    ensures { result ≡ roomed first_edition Doubled n longest }
{
    room_for(n, longest, Planner::Doubled, switch::first_edition())
}

// The room of the quick cover.
pub fn quick_room(n: usize, longest: u64) -> Outcome
    ensures { result ≡ roomed first_edition Quick n longest }
{
    room_for(n, longest, Planner::Quick, switch::first_edition())
}

// The same three numbers for switches of up to 128 ports: the exact plan's.
pub fn exact_room_second(n: usize, longest: u64) -> Outcome
    ensures { result ≡ roomed second_edition Exact n longest }
{
    room_for(n, longest, Planner::Exact, switch::second_edition())
}

// The doubled plan's.
pub fn doubled_room_second(n: usize, longest: u64) -> Outcome
    ensures { result ≡ roomed second_edition Doubled n longest }
{
    room_for(n, longest, Planner::Doubled, switch::second_edition())
}

// The quick cover's.
pub fn quick_room_second(n: usize, longest: u64) -> Outcome
    ensures { result ≡ roomed second_edition Quick n longest }
{
    room_for(n, longest, Planner::Quick, switch::second_edition())
}

// The room of a planner of an edition: refusals 1, 3 and, for the quick cover, 4.
pub fn room_for(n: usize, longest: u64, planner: Planner, e: Edition) -> Outcome
    requires { Bounded e }
    ensures { result ≡ roomed e planner n longest }
{
    if n == 0 {
        return Err(Refusal::Ports);
    }
    if e.ports < n {
        return Err(Refusal::Ports);
    }
    if LONGEST < longest {
        return Err(Refusal::LongestOver);
    }
    room_of(n, longest, planner)
}

// The same for an N and a T that nothing but the quick cover refuses.
fn room_of(n: usize, longest: u64, planner: Planner) -> Outcome
    requires { (n ≤ 128) × (longest ≤ 65535) }
    ensures { result ≡ room_of planner n longest }
{
    match planner {
        Planner::Exact => suffice(exact_records(n, longest)),
        Planner::Doubled => suffice(doubled_records(n)),
        Planner::Quick => {
            if MOST_QUICK < longest {
                return Err(Refusal::Longest);
            }
            suffice(quick_records(longest))
        }
    }
}

// So many records suffice.
fn suffice(records: usize) -> Outcome
    ensures { result ≡ sufficing records }
{
    Ok(Counts {
        records,
        longest: 0,
        total: 0,
        length: 0,
        empty: 0,
    })
}

// The exact plan: every setting is held for at least one slot of T, and there are never more than N² - 2N + 2 of them.
pub fn exact_records(n: usize, longest: u64) -> usize
    requires { (n ≤ 128) × (longest ≤ 65535) }
    ensures { result ≡ exact_room n longest }
{
    let most = n * n + 2 - 2 * n;
    longest.min(most as u64) as usize
}

// The doubled plan: at most N records in each of its parts.
pub fn doubled_records(n: usize) -> usize
    requires { n ≤ 128 }
    ensures { result ≡ 2 * n }
{
    2 * n
}

// The quick cover: while a pair has slots left, every slot serves its input or its output.
pub fn quick_records(longest: u64) -> usize
    requires { longest ≤ 1024 }
    ensures { result ≡ quick_room longest }
{
    (2 * longest).saturating_sub(1) as usize
}
