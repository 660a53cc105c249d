// Joining equal settings: a plan from anywhere is written anew into a second buffer, each setting once, in order of first appearance and
// held for the sum of its holds. Promised are the whole answer and every byte of the second buffer, for any N and any bytes; in proofs/,
// that every pair is granted just what it was granted before and that joining twice changes nothing further.
// Finding equal settings is left to the crate tally.
#![tactic(auto)]

ghost use Rattle.std.specs.Prelude.{◌≡◌, List, ℕ, ◌+◌, ◌<◌, ◌≤◌, length, ◌^◌};
ghost use Rattle.switch.specs.Result.{Gives};
ghost use Rattle.records.specs.Bytes.{whole, bytes, laid};
ghost use Rattle.switch.specs.Editions.{first_edition, second_edition, Bounded};
ghost use Rattle.tally.specs.Table.{entry_at, entry_sums};
ghost use Rattle.joining.specs.Join.{pieces, cut, joining};

use records::HEAD;
use switch::{Counts, Edition, Outcome, Refusal};
use tally::Entry;

// The most that a hold of two bytes can be.
const MOST: usize = 65535;

// Joins the equal settings of a plan: refusals 1, 9, 10, 11 and 5, else the records and the total of the joined plan.
pub fn join_plan(n: usize, plan: &[u8], joined: &mut [u8]) -> Outcome
    ensures { Gives (joining first_edition n plan.now joined.old) result joined.new }
{
    join_for::<{ switch::RECORDS }>(n, plan, switch::first_edition(), joined)
}

// The same in the second edition.
pub fn join_plan_second(n: usize, plan: &[u8], joined: &mut [u8]) -> Outcome
    ensures { Gives (joining second_edition n plan.now joined.old) result joined.new }
{
    join_for::<{ switch::WIDE_RECORDS }>(n, plan, switch::second_edition(), joined)
}

// Joins a plan of an edition, which has at most M records, by numbers of 16 bits.
pub fn join_for<const M: usize>(n: usize, plan: &[u8], e: Edition, buffer: &mut [u8]) -> Outcome
    requires { Bounded e × (e.records < 65536) × (e.records ≤ M) × (M < 2 ^ 60) }
    ensures { Gives (joining e n plan.now buffer.old) result buffer.new }
{
    let counts = plans::check_plan(n, plan, e)?;
    let mut entries = [Entry::default(); M];
    let count = tally::sum_up(plan, e.width, counts.records, &mut entries);
    let table = &entries[..count];
    let need = count_pieces(table);
    if buffer.len() / (e.width + HEAD) < need {
        return Err(Refusal::Room(need));
    }
    lay_sums(n, plan, e, table, buffer);
    Ok(Counts {
        records: need,
        longest: 0,
        total: counts.total,
        length: 0,
        empty: 0,
    })
}

// How many records the sums become.
fn count_pieces(table: &[Entry]) -> usize
    requires { length table.now ≤ 65536 }
    ensures { (W : ℕ) (plan : List ℕ) → result ≡ length (cut (entry_sums W plan table.now)) }
{
    table
        .iter()
        .map(|t| (t.total as usize).div_ceil(MOST))
        .sum()
}

// The sums laid as records one after the other, from the buffer's start.
fn lay_sums(n: usize, plan: &[u8], e: Edition, table: &[Entry], buffer: &mut [u8])
    requires { (n < 256) × (e.width ≤ 128) × ((k : ℕ) → k < length table.now → (entry_at table.now k).first < whole e.width plan.now) × (length (bytes e.byte n (cut (entry_sums e.width plan.now table.now))) ≤ length buffer.old) }
    ensures { buffer.new ≡ laid buffer.old 0 (bytes e.byte n (cut (entry_sums e.width plan.now table.now))) }
{
    let mut at: usize = 0;
    for entry in table {
        let setting = tally::setting_at(plan, e.width, usize::from(entry.first));
        at = lay_sum(n, e.byte, setting, entry.total as usize, buffer, at);
    }
}

// One sum laid as records from `at` on; and where they end.
// A sum is cut while it is laid: what is left and the place go on together, and no slice holds the pieces.
fn lay_sum(
    n: usize,
    edition: u8,
    setting: &[u8],
    total: usize,
    buffer: &mut [u8],
    at: usize,
) -> usize
    requires { (n < 256) × (at + length (bytes edition n (pieces total setting.now)) ≤ length buffer.old) }
    ensures { (result ≡ at + length (bytes edition n (pieces total setting.now))) × (buffer.new ≡ laid buffer.old at (bytes edition n (pieces total setting.now))) }
{
    let mut left = total;
    let mut next = at;
    while 0 < left {
        let hold = left.min(MOST);
        records::put_record(buffer, next, edition, hold as u16, n, setting);
        next += setting.len() + HEAD;
        left -= hold;
    }
    next
}
