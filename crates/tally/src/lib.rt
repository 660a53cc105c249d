// The settings of a plan: each once, in order of first appearance, with the first record that has it and the sum of its holds.
// Promised is the list that specs/ gives, for any plan whose records are well formed, and nothing of time. So that not every pair of
// settings is compared, a setting is looked for among those of its bucket only; a bucket is any number that equal settings share.
// The memory is lent by the caller; what is done with the sums is left to the crates above.
#![tactic(auto)]

ghost use Rattle.std.specs.Prelude.{◌≡◌, ◌+◌, ◌<◌, ◌≤◌, length};
ghost use Rattle.records.specs.Record.{outputs};
ghost use Rattle.records.specs.Bytes.{record_at, whole};
ghost use Rattle.tally.specs.Sums.{same_outputs};
ghost use Rattle.tally.specs.Table.{Listed, buckets, stir, bucket_of, Chained, Found};

use records::HEAD;

// Chains of entries, as many as a plan of the first edition has records.
// A map of std needs a heap, which this library does without.
const BUCKETS: usize = 8192;

// An odd number near 2^32 divided by the golden ratio: it spreads the outputs over all bits.
const STIR: u64 = 2654435761;

// 2^32: a number of 64 bits has two halves.
const HALF: u64 = 4294967296;

// Of a stirred number the upper 13 bits name a bucket.
const LOWER: u64 = 2251799813685248;

// Outputs are stirred in eight at a time.
const LONG: usize = 8;

// A setting: the record at which it first appears, and its holds, summed. `next` links the entries of a bucket: it is the number, and one
// more, of the last entry before this one there, and 0 where there is none. An `Option` would take twice the memory.
#[derive(Clone, Copy, Default)]
pub struct Entry {
    pub first: u16,
    pub next: u16,
    pub total: u32,
}

// Sums the holds of a plan's records by setting; and how many settings there are. A record's number, and an entry's and one more, have 16 bits.
// k is what an entry keeps of the record at which its setting first appears.
pub fn sum_up(plan: &[u8], width: usize, records: usize, entries: &mut [Entry]) -> usize
    requires { (width ≤ 128) × (records ≡ whole width plan.now) × (records < 65536) × (records ≤ length entries.old) }
    ensures { Listed width plan.now records result entries.new }
{
    let mut heads = [0u16; BUCKETS];
    let mut count: usize = 0;
    for k in 0..records {
        count = enter(plan, width, k, count, &mut heads, entries);
    }
    count
}

// Adds the hold of record k to the sum of its setting, which gets an entry where it has none; and how many entries there are.
fn enter(
    plan: &[u8],
    width: usize,
    k: usize,
    count: usize,
    heads: &mut [u16],
    entries: &mut [Entry],
) -> usize
    requires { (width ≤ 128) × (k < whole width plan.now) × (k < 65535) × (k < length entries.old) × Listed width plan.now k count entries.old × Chained width plan.now count heads.old entries.old }
    ensures { Listed width plan.now (k + 1) result entries.new × Chained width plan.now result heads.new entries.new }
{
    let hold = u32::from(records::hold_of(plans::record_at(plan, width, k)));
    let setting = setting_at(plan, width, k);
    let bucket = bucket_of(setting);
    if let Some(e) = entry_of(plan, width, setting, bucket, count, heads, entries) {
        entries[e].total += hold;
        return count;
    }
    entries[count] = Entry {
        first: k as u16,
        next: heads[bucket],
        total: hold,
    };
    heads[bucket] = (count + 1) as u16;
    count + 1
}

// The entry of a setting, if it has one. Only the entries of its bucket are looked at, the last first.
fn entry_of(
    plan: &[u8],
    width: usize,
    setting: &[u8],
    bucket: usize,
    count: usize,
    heads: &[u16],
    entries: &[Entry],
) -> Option<usize>
    requires { (width ≤ 128) × (length setting.now ≡ width) × (bucket ≡ bucket_of setting.now) × (bucket < buckets) × (count ≤ length entries.now) × Chained width plan.now count heads.now entries.now }
    ensures { Found width plan.now count entries.now setting.now result }
{
    let mut link = usize::from(heads[bucket]);
    while 0 < link {
        let e = link - 1;
        let entry = entries[e];
        if same_outputs(setting_at(plan, width, usize::from(entry.first)), setting) {
            return Some(e);
        }
        link = usize::from(entry.next);
    }
    None
}

// The setting of record k.
pub fn setting_at(plan: &[u8], width: usize, k: usize) -> &[u8]
    requires { (width ≤ 128) × (k < whole width plan.now) }
    ensures { result.now ≡ outputs (record_at width plan.now k) }
{
    let rec = plans::record_at(plan, width, k);
    &rec[HEAD..]
}

// The bucket of a setting.
fn bucket_of(setting: &[u8]) -> usize
    ensures { (result ≡ bucket_of setting.now) × (result < buckets) }
{
    let (longs, _) = setting.as_chunks::<LONG>();
    let h = longs
        .iter()
        .fold(0, |h, long| stir(h ^ u64::from_le_bytes(*long)));
    (stir(h) / LOWER) as usize
}

// The lower half of a number is spread over all its bits, and the upper half goes below.
fn stir(h: u64) -> u64
    ensures { result ≡ stir h }
{
    (h % HALF) * STIR + h / HALF
}

// Are two settings the same? All outputs are compared, many at once: the library's `==`, which stops at the first that differs, takes 5 ns more
// for a pair of settings, and so a joining up to 16 in 100 more.
pub fn same_outputs(a: &[u8], b: &[u8]) -> bool
    requires { length a.now ≡ length b.now }
    ensures { result ≡ same_outputs a.now b.now }
{
    let mut same = true;
    for i in 0..a.len() {
        same = same & (a[i] == b[i]);
    }
    same
}
