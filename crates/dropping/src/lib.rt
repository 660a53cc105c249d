// What is dropped of a damaged plan (§19.2): which records are not well formed, each with the first reason that applies, and a torn tail;
// and the list of them, 4 bytes each. It promises each reason and every byte of the list by the definitions of the crate rescue_rule, for
// records of any edition. What is kept, and whether the list has room, is left to the crate above.
#![tactic(auto)]

ghost use Rattle.std.specs.Prelude.{◌≡◌, false, [], ◌∷◌, length, ◌+◌, ◌-◌, ◌<◌, ◌≤◌};
ghost use Rattle.records.specs.Record.{all, inside, outputs_fine};
ghost use Rattle.records.specs.Bytes.{whole, laid};
ghost use Rattle.plans.specs.Reading.{Readable};
ghost use Rattle.dropping.specs.Reason.{number_of, told};
ghost use Rattle.rescue_rule.specs.Reason.{outputs_reason, reason_of};
ghost use Rattle.rescue_rule.specs.Rescue.{dropped_to, dropped_at, dropped, torn_tail, entry_bytes};

use records::HEAD;
use switch::Edition;

// Why a record is dropped (§19.2): no hold, another number of ports, another spare byte, an output out of range, a port twice, an output
// past the last input, or bytes that are no whole record.
#[derive(Clone, Copy, PartialEq, Eq)]
pub enum Reason {
    Hold,
    Ports,
    Spare,
    Range,
    Twice,
    Past,
    Torn,
}

impl Reason {
    // Its number in the list.
    pub fn number(self) -> u8
        ensures { result ≡ number_of self }
    {
        match self {
            Reason::Hold => 1,
            Reason::Ports => 2,
            Reason::Spare => 3,
            Reason::Range => 4,
            Reason::Twice => 5,
            Reason::Past => 6,
            Reason::Torn => 7,
        }
    }
}

// An entry of the list of dropped records has 4 bytes.
pub const ENTRY: usize = 4;

// How many torn tails a plan has: one or none.
// A number and no bool, since it is added to the records that are dropped.
pub fn torn(damaged: &[u8], width: usize) -> usize
    requires { width ≤ 128 }
    ensures { result ≡ length (torn_tail width damaged.now) }
{
    usize::from(damaged.len() % (width + HEAD) != 0)
}

// Lists all that is dropped of a plan: the records that are not well formed, and then a torn tail.
pub fn list_dropped(n: usize, damaged: &[u8], e: Edition, list: &mut [u8])
    requires { Readable e n damaged.now (whole e.width damaged.now) × (whole e.width damaged.now + length (torn_tail e.width damaged.now) ≤ 65536) × (length (entry_bytes (dropped e.width e.byte n damaged.now)) ≤ length list.old) }
    ensures { list.new ≡ laid list.old 0 (entry_bytes (dropped e.width e.byte n damaged.now)) }
{
    let records = damaged.len() / (e.width + HEAD);
    let next = list_whole(n, damaged, e, records, list);
    if torn(damaged, e.width) == 0 {
        return;
    }
    put_entry(list, next, records, Reason::Torn);
}

// Lists the dropped ones among a plan's whole records from the list's start on, 4 bytes each; and where the next entry goes.
// k is the number that is listed, and where its entry goes depends on those before.
fn list_whole(n: usize, damaged: &[u8], e: Edition, records: usize, list: &mut [u8]) -> usize
    requires { Readable e n damaged.now records × (length (entry_bytes (dropped_to e.width e.byte n damaged.now records)) ≤ length list.old) }
    ensures { (result ≡ length (entry_bytes (dropped_to e.width e.byte n damaged.now records))) × (list.new ≡ laid list.old 0 (entry_bytes (dropped_to e.width e.byte n damaged.now records))) }
{
    let mut next: usize = 0;
    for k in 0..records {
        next = list_record(n, damaged, e, records, k, list, next);
    }
    next
}

// Lists record k at `next`, where it is dropped; and where the entry after it goes.
fn list_record(
    n: usize,
    damaged: &[u8],
    e: Edition,
    records: usize,
    k: usize,
    list: &mut [u8],
    next: usize,
) -> usize
    requires { Readable e n damaged.now records × (k < records) × (next + length (entry_bytes (dropped_at e.width e.byte n damaged.now k)) ≤ length list.old) }
    ensures { (result ≡ next + length (entry_bytes (dropped_at e.width e.byte n damaged.now k))) × (list.new ≡ laid list.old next (entry_bytes (dropped_at e.width e.byte n damaged.now k))) }
{
    let rec = plans::record_at(damaged, e.width, k);
    let Some(why) = reason_of(rec, n, e.byte) else {
        return next;
    };
    put_entry(list, next, k, why);
    next + ENTRY
}

// Lays one entry over a list from `at` on: a number in two bytes, low first, a reason, a zero byte.
fn put_entry(list: &mut [u8], at: usize, k: usize, reason: Reason)
    requires { (k < 65536) × (at + 4 ≤ length list.old) }
    ensures { list.new ≡ laid list.old at (entry_bytes (record { number = k; reason = number_of reason } ∷ [])) }
{
    let [low, high] = (k as u16).to_le_bytes();
    list[at..at + ENTRY].copy_from_slice(&[low, high, reason.number(), 0]);
}

// Why a record is dropped: the first reason that applies, if one does. Most are well formed, so that is asked first.
fn reason_of(rec: &[u8], n: usize, edition: u8) -> Option<Reason>
    requires { (n ≤ 128) × (n + 4 ≤ length rec.now) }
    ensures { told result ≡ reason_of (length rec.now - 4) edition n rec.now }
{
    if records::record_fine(rec, n, edition) {
        return None;
    }
    if records::hold_of(rec) == 0 {
        return Some(Reason::Hold);
    }
    if usize::from(rec[2]) != n {
        return Some(Reason::Ports);
    }
    if rec[3] != edition {
        return Some(Reason::Spare);
    }
    Some(outputs_reason(&rec[HEAD..], n))
}

// Which is the first reason that applies to outputs that are not fine.
fn outputs_reason(outputs: &[u8], n: usize) -> Reason
    requires { (n ≤ 128) × (n ≤ length outputs.now) × (outputs_fine (length outputs.now) n outputs.now ≡ false) }
    ensures { number_of result ≡ outputs_reason (length outputs.now) n outputs.now }
{
    if !in_range(outputs, n) {
        return Reason::Range;
    }
    if !records::setting_fine(outputs, n) {
        return Reason::Twice;
    }
    Reason::Past
}

// Has every one of n inputs a port for its output, or none?
fn in_range(outputs: &[u8], n: usize) -> bool
    requires { n ≤ length outputs.now }
    ensures { result ≡ all n (inside n outputs.now) }
{
    outputs[..n]
        .iter()
        .all(|b| usize::from(*b) < n || *b == records::IDLE)
}
