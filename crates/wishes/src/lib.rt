// A wish list to a demand: 8-byte records, each a pair of ports and a binary32 value, to N × N cells.
// Each call answers for every list, of any length and any bytes: codes 1, 2 and 9, then the first faulty record's 11, 12, 6, 7 or 8.
// A refusal changes no cell; a success makes the cell of each named pair its wish's slots, and every other 0.
// What one wish is worth is the crate `wish`'s matter, and whether the lines are too long is for whoever plans the demand.
#![tactic(auto)]

ghost use Rattle.std.specs.Prelude.{◌≡◌, true, ◌+◌, ◌*◌, ◌≤◌, ◌<◌, length};
ghost use Rattle.switch.specs.Editions.{first_edition, second_edition};
ghost use Rattle.switch.specs.Result.{Gives};
ghost use Rattle.wishes.specs.Record.{record_at, well_formed};
ghost use Rattle.wishes.specs.Fault.{wish_fault, fault_of, first_fault};
ghost use Rattle.wish.specs.Wish.{wish_bits, code_of};
ghost use Rattle.wishes.specs.Seen.{Empty, Marks, seen_pair};
ghost use Rattle.wishes.specs.Wishes.{put, demand_of, outcome, cells_after, wishing};

pub use numbers::word_at;
use sets::{Label, NumberSet};
use switch::{Counts, InputPort, Outcome, OutputPort, Refusal};
use wish::{Unfit, Wish};

// A wish record and where its parts stand (§4.5).
const RECORD: usize = 8;

const OUTPUT: usize = 1;

const SPARE0: usize = 2;

const SPARE1: usize = 3;

const VALUE: usize = 4;

// A bit for each pair of the largest switch, in words of 64, and of that of the second edition.
const WORD: usize = 64;

const WORDS: usize = 64;

const WIDE_WORDS: usize = 256;

// One record of a list, as its bytes say it.
#[derive(Clone, Copy)]
pub struct WishRecord {
    pub input: InputPort,
    pub output: OutputPort,
    pub spare0: u8,
    pub spare1: u8,
    pub bits: u32,
}

// Makes a demand of a wish list.
pub fn wishes(n: usize, list: &[u8], cells: &mut [u32]) -> Outcome
    ensures { Gives (wishing first_edition n list.now cells.old) result cells.new }
{
    list_to_demand::<WORDS>(n, switch::PORTS, list, cells)
}

// The same in the second edition.
pub fn wishes_second(n: usize, list: &[u8], cells: &mut [u32]) -> Outcome
    ensures { Gives (wishing second_edition n list.now cells.old) result cells.new }
{
    list_to_demand::<WIDE_WORDS>(n, switch::WIDE_PORTS, list, cells)
}

// The same for a switch of up to `most` ports; `M` words have a bit for each pair.
fn list_to_demand<const M: usize>(n: usize, most: usize, list: &[u8], cells: &mut [u32]) -> Outcome
    requires { (most ≤ 128) × (most * most ≤ 64 * M) × (M ≤ 256) }
    ensures { (result ≡ outcome most n list.now (length cells.old)) × (cells.new ≡ cells_after most n list.now cells.old) }
{
    if n == 0 {
        return Err(Refusal::Ports);
    }
    if most < n {
        return Err(Refusal::Ports);
    }
    let square = n * n;
    if cells.len() != square {
        return Err(Refusal::Cells(square));
    }
    let count = list.len() / RECORD;
    if list.len() % RECORD != 0 {
        return Err(Refusal::Torn(count));
    }
    let mut marks = [0u64; M];
    first_fault(n, list, count, &mut marks)?;
    fill(n, list, count, cells);
    Ok(Counts {
        records: count,
        longest: 0,
        total: 0,
        length: 0,
        empty: 0,
    })
}

// The fault of the first faulty record of the first `count`. Each record is looked at once: the pairs named so far are marked.
// k names the record in a refusal.
fn first_fault(n: usize, list: &[u8], count: usize, marks: &mut [u64]) -> Result<(), Refusal>
    requires { (8 * count ≤ length list.now) × (n ≤ 128) × Empty n marks.old }
    ensures { result ≡ first_fault n list.now count }
{
    for k in 0..count {
        let wanted = record_at(list, k);
        fault_of(n, wanted, k, marks)?;
        mark(n, wanted.input, wanted.output, marks);
    }
    Ok(())
}

// Record k of the list.
fn record_at(list: &[u8], k: usize) -> WishRecord
    requires { 8 * k + 8 ≤ length list.now }
    ensures { result ≡ record_at list.now k }
{
    let at = RECORD * k;
    WishRecord {
        input: InputPort(usize::from(list[at])),
        output: OutputPort(usize::from(list[at + OUTPUT])),
        spare0: list[at + SPARE0],
        spare1: list[at + SPARE1],
        bits: word_at(list, at + VALUE),
    }
}

// The fault of record k, the first of 11, 12, 6, 7, 8 that it has.
fn fault_of(n: usize, wanted: WishRecord, k: usize, marks: &[u64]) -> Result<(), Refusal>
    requires { (n ≤ 128) × (n * n ≤ 64 * length marks.now) }
    ensures { result ≡ fault_of n k (seen_pair n marks.now wanted.input.0 wanted.output.0) wanted }
{
    if !well_formed(n, wanted) {
        return Err(Refusal::Malformed(k));
    }
    if seen(n, wanted.input, wanted.output, marks) {
        return Err(Refusal::Named(k));
    }
    wish_fault(wish::of_bits(wanted.bits), k)
}

// Are both ports below n, and both spare bytes zero?
#[tactic(auto, unfolding(crate::specs::Record::well_formed))]
fn well_formed(n: usize, wanted: WishRecord) -> bool
    ensures { result ≡ well_formed n wanted }
{
    wanted.input.0 < n && wanted.output.0 < n && wanted.spare0 == 0 && wanted.spare1 == 0
}

// Was the pair marked?
fn seen(n: usize, i: InputPort, j: OutputPort, marks: &[u64]) -> bool
    requires { (n ≤ 128) × (i.0 < n) × (j.0 < n) × (n * n ≤ 64 * length marks.now) }
    ensures { result ≡ seen_pair n marks.now i.0 j.0 }
{
    let at = demand::cell_at(n, i, j);
    let word = Label(marks[at / WORD]);
    word.has(at % WORD)
}

// Marks the pair.
fn mark(n: usize, i: InputPort, j: OutputPort, marks: &mut [u64])
    requires { (n ≤ 128) × (i.0 < n) × (j.0 < n) × (n * n ≤ 64 * length marks.old) }
    ensures { Marks (i.0 * n + j.0) marks.old marks.new }
{
    let at = demand::cell_at(n, i, j);
    let word = Label(marks[at / WORD]);
    let marked = word.mark(at % WORD);
    marks[at / WORD] = marked.0;
}

// Codes 6, 7 and 8, for the wish of record k.
// A match: `map_err` would have the same three cases, in a closure.
fn wish_fault(asked: Wish, k: usize) -> Result<(), Refusal>
    ensures { result ≡ wish_fault k asked }
{
    match asked {
        Ok(_) => Ok(()),
        Err(Unfit::NotFinite) => Err(Refusal::NotFinite(k)),
        Err(Unfit::BelowZero) => Err(Refusal::BelowZero(k)),
        Err(Unfit::AboveMost) => Err(Refusal::AboveMost(k)),
    }
}

// Puts the slots of the first `count` records into their cells, and 0 into every other.
fn fill(n: usize, list: &[u8], count: usize, cells: &mut [u32])
    requires { (8 * count ≤ length list.now) × (n ≤ 128) × (length cells.old ≡ n * n) × (first_fault n list.now count ≡ Ok tt) }
    ensures { cells.new ≡ demand_of n list.now count }
{
    cells.fill(0);
    for k in 0..count {
        put(n, record_at(list, k), cells);
    }
}

// Puts the slots of one record, which was judged, into its cell.
fn put(n: usize, wanted: WishRecord, cells: &mut [u32])
    requires { (n ≤ 128) × (n * n ≤ length cells.old) × (well_formed n wanted ≡ true) × (code_of (wish_bits wanted.bits) ≡ 0) }
    ensures { cells.new ≡ put n wanted cells.old }
{
    let at = demand::cell_at(n, wanted.input, wanted.output);
    cells[at] = wish::slots_given(wanted.bits);
}
