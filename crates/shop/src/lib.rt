// The open-shop plan (§21), for a switch whose ports move on their own: each pair with slots is a task lasting the switching time and its
// slots. It promises the whole answer and every byte of the lent buffer, for any N and any cells: the refusals in their order, all known
// before the first byte is written, and else the plan on paper. Kept are, for each output, the set of the inputs with unstarted tasks for it,
// and for each port the time at which it is idle again; the demand is only read. The layout of a task is left to the crate below.
#![tactic(auto)]

ghost use Rattle.std.specs.Prelude.{◌≡◌, ◌==◌, not, count_by, ℕ, ◌+◌, ◌*◌, ◌<◌, ◌≤◌, max, length, get_or};
ghost use Rattle.switch.specs.Demand.{cell, longest};
ghost use Rattle.switch.specs.Result.{Gives};
ghost use Rattle.shop_rule.specs.Shop.{sooner, next, shop_plan};
ghost use Rattle.shop.specs.Shopped.{room_for, shopped};
ghost use Rattle.shop.specs.Sets.{numbers_of};
ghost use Rattle.shop.specs.Kept.{Idle, Column, TurnPre, TurnPost, MomentPre, MomentPost, RunPre, RunPost};

use demand::check_demand;
use labels::PortSet;
use sets::Label;
use switch::{Counts, InputPort, Outcome, OutputPort, PORTS, Refusal};
use tasks::{TASK, put_task};

// A set of inputs: one word holds those of a switch of 64 ports.
pub type InputSet = PortSet<InputPort, Label>;

// How many tasks are started, and the latest end of them.
#[derive(Clone, Copy)]
pub struct Begun {
    pub records: usize,
    pub latest: u32,
}

// What a turn passes on: the inputs that are idle, and what is started.
#[derive(Clone, Copy)]
pub struct Turned {
    pub idle: InputSet,
    pub begun: Begun,
}

// The ports, the switching time, and the moment that is planned.
#[derive(Clone, Copy)]
pub struct Clock {
    pub n: usize,
    pub d: u32,
    pub t: u32,
}

// The open-shop plan of a demand, d being the switching time, written at the start of a lent buffer.
pub fn shop_plan(n: usize, cells: &[u32], d: u16, tasks: &mut [u8]) -> Outcome
    ensures { Gives (shopped n d cells.now tasks.old) result tasks.new }
{
    check_demand(n, PORTS, cells)?;
    plan_checked(n, cells, u32::from(d), tasks)
}

// The same for a demand that nothing but the room can refuse.
fn plan_checked(n: usize, cells: &[u32], d: u32, tasks: &mut [u8]) -> Outcome
    requires { (n ≤ 64) × (length cells.now ≡ n * n) × (longest n (cell n cells.now) ≤ 65535) × (d ≤ 65535) }
    ensures { Gives (room_for (shop_plan n d cells.now) tasks.old) result tasks.new }
{
    let need = count_tasks(cells);
    if tasks.len() / TASK < need {
        return Err(Refusal::Room(need));
    }
    let mut waiting = [0u64; PORTS];
    let mut ins = [0u32; PORTS];
    let mut outs = [0u32; PORTS];
    label_columns(cells, n, &mut waiting);
    let begun = run(n, cells, d, &mut waiting, &mut ins, &mut outs, tasks);
    Ok(Counts {
        records: begun.records,
        longest: 0,
        total: u64::from(begun.latest),
        length: 0,
        empty: 0,
    })
}

// How many pairs have slots.
// By an index: a filter that is counted branches at each cell, and a refusal of the room took several times as long; of ones that are summed
// it was not proved that the sum fits.
fn count_tasks(cells: &[u32]) -> usize
    ensures { result ≡ count_by (λ c. not (c == 0)) cells.now }
{
    let mut count: usize = 0;
    for k in 0..cells.len() {
        if cells[k] != 0 {
            count += 1;
        }
    }
    count
}

// The set of each output: the inputs with slots for it.
// j is the output, whose column is read and whose set is written.
fn label_columns(cells: &[u32], n: usize, waiting: &mut [u64])
    requires { (n ≤ 64) × (n * n ≤ length cells.now) × (length waiting.old ≡ 64) }
    ensures { (length waiting.new ≡ 64) × ((j : ℕ) → j < n → Column n n cells.now j (get_or waiting.new j 0)) }
{
    for j in 0..n {
        let asks = label_column(cells, n, OutputPort(j));
        waiting[j] = asks.numbers.0;
    }
}

// The set of one output.
// A column's cells stand n apart, so that its inputs are counted and no slice is walked.
fn label_column(cells: &[u32], n: usize, j: OutputPort) -> InputSet
    requires { (n ≤ 64) × (n * n ≤ length cells.now) × (j.0 < n) }
    ensures { Column n n cells.now j.0 (numbers_of result) }
{
    let output = j.0;
    let mut asks = InputSet::none();
    for i in 0..n {
        if cells[i * n + output] != 0 {
            asks = asks.mark(InputPort(i));
        }
    }
    asks
}

// All moments, from time 0 on: the tasks of the plan over the start of the lent buffer, how many they are and their latest end.
fn run(
    n: usize,
    cells: &[u32],
    d: u32,
    waiting: &mut [u64],
    ins: &mut [u32],
    outs: &mut [u32],
    tasks: &mut [u8],
) -> Begun
    requires { RunPre n cells.now d waiting.old ins.old outs.old tasks.old }
    ensures { RunPost n cells.now d tasks.old result tasks.new }
{
    let mut t: u32 = 0;
    let mut begun = Begun {
        records: 0,
        latest: 0,
    };
    loop {
        begun = moment(Clock { n, d, t }, cells, begun, waiting, ins, outs, tasks);
        let later = next_finish(outs, n, t);
        if later == t {
            return begun;
        }
        t = later;
    }
}

// One moment: every output has its turn, in ascending order.
// j is an output: it has its set and its time.
fn moment(
    clock: Clock,
    cells: &[u32],
    begun: Begun,
    waiting: &mut [u64],
    ins: &mut [u32],
    outs: &mut [u32],
    tasks: &mut [u8],
) -> Begun
    requires { MomentPre clock.n cells.now clock.d clock.t begun waiting.old ins.old outs.old tasks.old }
    ensures { MomentPost clock.n cells.now clock.d clock.t begun waiting.old ins.old outs.old tasks.old result waiting.new ins.new outs.new tasks.new }
{
    let mut so = Turned {
        idle: idle_inputs(ins, clock.n, clock.t),
        begun,
    };
    for j in 0..clock.n {
        so = turn(clock, cells, OutputPort(j), so, waiting, ins, outs, tasks);
    }
    so.begun
}

// Output j's turn: if it is idle, it starts a task with the lowest idle input that has one for it.
fn turn(
    clock: Clock,
    cells: &[u32],
    j: OutputPort,
    so: Turned,
    waiting: &mut [u64],
    ins: &mut [u32],
    outs: &mut [u32],
    tasks: &mut [u8],
) -> Turned
    requires { TurnPre clock.n cells.now clock.d clock.t j.0 so.begun.records waiting.old ins.old outs.old tasks.old }
    ensures { TurnPost clock.n cells.now clock.d clock.t j.0 so waiting.old ins.old outs.old tasks.old result waiting.new ins.new outs.new tasks.new }
{
    let output = j.0;
    if clock.t < outs[output] {
        return so;
    }
    let idle = so.idle;
    let begun = so.begun;
    let asks = InputSet::of(Label(waiting[output]));
    let both = asks.common(idle);
    let found = both.lowest();
    let Some(i) = found else {
        return so;
    };
    let input = i.0;
    let end = clock.t + (clock.d + cells[input * clock.n + output]);
    put_task(tasks, begun.records * TASK, i, j, clock.t, end);
    let rest = asks.without(i);
    waiting[output] = rest.numbers.0;
    ins[input] = end;
    outs[output] = end;
    Turned {
        idle: idle.without(i),
        begun: one_more(begun, end),
    }
}

// One more task is started, which ends at `end`.
fn one_more(begun: Begun, end: u32) -> Begun
    requires { begun.records ≤ 4096 }
    ensures { (result.records ≡ begun.records + 1) × (result.latest ≡ max begun.latest end) }
{
    Begun {
        records: begun.records + 1,
        latest: begun.latest.max(end),
    }
}

// The inputs that are idle at time t.
fn idle_inputs(ins: &[u32], n: usize, t: u32) -> InputSet
    requires { (n ≤ 64) × (n ≤ length ins.now) }
    ensures { Idle n t ins.now (numbers_of result) }
{
    let mut idle = InputSet::none();
    for (i, end) in ins[..n].iter().enumerate() {
        if *end <= t {
            idle = idle.mark(InputPort(i));
        }
    }
    idle
}

// The first finish after t of the first n outputs, or t where none is running.
fn next_finish(outs: &[u32], n: usize, t: u32) -> u32
    requires { n ≤ length outs.now }
    ensures { result ≡ next n t (λ j. get_or outs.now j 0) }
{
    let mut soonest = t;
    for end in &outs[..n] {
        soonest = sooner_of(t, soonest, *end);
    }
    soonest
}

// The sooner of two finishes of which only those after t count.
fn sooner_of(t: u32, m: u32, e: u32) -> u32
    ensures { result ≡ sooner t m e }
{
    if e <= t {
        return m;
    }
    if m <= t {
        return e;
    }
    if e < m {
        return e;
    }
    m
}
