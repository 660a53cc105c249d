// A schedule as bytes, 12 for each task (§21.3), and its reader: one call over all records, which promises its whole answer for any N and any
// bytes. A record is refused where it breaks a rule of its own, does not rise from the one before it, or overlaps any before it on a port
// (§21.7). Since starts rise, the latest end on each port decides the last, so that one pass does. What a schedule is for is left to the
// crates above.
#![tactic(auto)]

ghost use Rattle.std.specs.Prelude.{◌≡◌, ◌+◌, ◌*◌, ◌<◌, ◌≤◌, length};
ghost use Rattle.records.specs.Bytes.{laid};
ghost use Rattle.tasks.specs.Bytes.{task, encode};
ghost use Rattle.tasks.specs.Read.{alone, follows, fits, reading, Judges};

use numbers::word_at;
use switch::{Counts, InputPort, Outcome, OutputPort, PORTS, Refusal};

// Input, output, two zero bytes, and start and end in four bytes each, low first.
pub const TASK: usize = 12;

pub const START: usize = 4;

pub const END: usize = 8;

// Reads all tasks for n: refusals 1, 9 and 11, else their number and the latest end.
pub fn read_tasks(n: usize, tasks: &[u8]) -> Outcome
    ensures { result ≡ reading n tasks.now }
{
    if n == 0 || PORTS < n {
        return Err(Refusal::Ports);
    }
    let records = tasks.len() / TASK;
    if tasks.len() % TASK != 0 {
        return Err(Refusal::Torn(records));
    }
    let latest = judge_all(n, tasks)?;
    Ok(Counts {
        records,
        longest: 0,
        total: u64::from(latest),
        length: 0,
        empty: 0,
    })
}

// The latest end, where no record breaks a rule, and else the first that does. Kept are each port's latest end, and the start and output to
// rise from.
fn judge_all(n: usize, tasks: &[u8]) -> Result<u32, Refusal>
    requires { n ≤ 64 }
    ensures { Judges n tasks.now result }
{
    let mut ins = [0u32; PORTS];
    let mut outs = [0u32; PORTS];
    let mut start: u32 = 0;
    let mut least: usize = 0;
    let mut latest: u32 = 0;
    let (records, _) = tasks.as_chunks::<TASK>();
    for (k, rec) in records.iter().enumerate() {
        if !fitting(rec, n, start, least, &ins, &outs) {
            return Err(Refusal::Malformed(k));
        }
        let i = usize::from(rec[0]);
        let j = usize::from(rec[1]);
        let end = word_at(rec, END);
        ins[i] = end;
        outs[j] = end;
        start = word_at(rec, START);
        least = j + 1;
        latest = latest.max(end);
    }
    Ok(latest)
}

// Does a record break no rule, where its ports' latest ends are kept in ins and outs, and it must rise from a start and an output?
// One test after the other here and below: of one chain of && the answer did not follow.
fn fitting(rec: &[u8], n: usize, start: u32, least: usize, ins: &[u32], outs: &[u32]) -> bool
    requires { (n ≤ 64) × (length rec.now ≡ 12) × (length ins.now ≡ 64) × (length outs.now ≡ 64) }
    ensures { result ≡ fits n rec.now start least ins.now outs.now }
{
    if !fine_alone(rec, n) {
        return false;
    }
    let i = usize::from(rec[0]);
    let j = usize::from(rec[1]);
    let begin = word_at(rec, START);
    if !rising(start, least, begin, j) {
        return false;
    }
    if begin < ins[i] {
        return false;
    }
    outs[j] <= begin
}

// Are a record's ports below n, its spare bytes zero, and its start below its end?
fn fine_alone(rec: &[u8], n: usize) -> bool
    requires { length rec.now ≡ 12 }
    ensures { result ≡ alone n rec.now }
{
    if n <= usize::from(rec[0]) {
        return false;
    }
    if n <= usize::from(rec[1]) {
        return false;
    }
    if rec[2] != 0 {
        return false;
    }
    if rec[3] != 0 {
        return false;
    }
    word_at(rec, START) < word_at(rec, END)
}

// Is a start later than s, or s with an output of o or higher?
fn rising(s: u32, o: usize, start: u32, output: usize) -> bool
    ensures { result ≡ follows s o start output }
{
    s < start || s == start && o <= output
}

// Lays one task's record over a schedule from `at` on.
pub fn put_task(tasks: &mut [u8], at: usize, i: InputPort, j: OutputPort, start: u32, end: u32)
    requires { (at + 12 ≤ length tasks.old) × (i.0 < 256) × (j.0 < 256) }
    ensures { tasks.new ≡ laid tasks.old at (encode (task i.0 j.0 start end)) }
{
    let [s0, s1, s2, s3] = start.to_le_bytes();
    let [e0, e1, e2, e3] = end.to_le_bytes();
    tasks[at..at + TASK].copy_from_slice(&[
        i.0 as u8, j.0 as u8, 0, 0, s0, s1, s2, s3, e0, e1, e2, e3,
    ]);
}
