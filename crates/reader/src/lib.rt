// The reader: it keeps a plan's bytes and the place reached, and `plans` opens the plan and takes each step.
// A caller that keeps the place itself reads by `open_answer` and `step_from`, whose parameters are plain.
// What a step gives is promised by `plans`; here it is promised that the place goes on with it and the plan stays.
#![tactic(auto)]

ghost use Rattle.std.specs.Prelude.{◌≡◌};
ghost use Rattle.switch.specs.Editions.{first_edition};
ghost use Rattle.plans.specs.Read.{opening, step_at};
ghost use Rattle.reader.specs.Reader.{starting, moved_to};

use plans::Stepped;
use switch::Outcome;

// A plan opened for n, and the record that the next step is at.
#[derive(Clone, Copy)]
pub struct Reader<'a> {
    pub n: usize,
    pub plan: &'a [u8],
    pub at: usize,
}

// What opening gives: its answer and the reader.
// The promise gives a reader with a refusal too, all of whose steps are the end.
#[derive(Clone, Copy)]
pub struct Opened<'a> {
    pub answer: Outcome,
    pub reader: Reader<'a>,
}

// Opens a plan for n. Where opening is refused every step of the reader is the end.
pub fn open<'a>(n: usize, plan: &'a [u8]) -> Opened<'a>
    ensures { (result.answer ≡ opening first_edition n plan.now) × (result.reader ≡ starting n plan.entry) }
{
    let answer = plans::open_plan(n, plan);
    let reader = standing(n, plan, 0);
    Opened { answer, reader }
}

impl<'a> Reader<'a> {
    // The step at the reader's place, and the reader goes on to the next.
    pub fn step(&mut self) -> Stepped<64>
        ensures { (result ≡ step_at first_edition self.old.n self.old.plan.now self.old.at) × (self.new ≡ moved_to self.old result.next) }
    {
        let s = plans::step_at(self.n, self.plan, self.at);
        self.at = s.next;
        s
    }
}

// What opening a plan answers, its reader let go.
pub fn open_answer(n: usize, plan: &[u8]) -> Outcome
    ensures { result ≡ opening first_edition n plan.now }
{
    open(n, plan).answer
}

// The step at record `at` of a plan, by a reader that stands there.
pub fn step_from(n: usize, plan: &[u8], at: usize) -> Stepped<64>
    ensures { result ≡ step_at first_edition n plan.now at }
{
    let mut r = standing(n, plan, at);
    r.step()
}

// A reader at a record of a plan.
fn standing<'a>(n: usize, plan: &'a [u8], at: usize) -> Reader<'a>
    ensures { result ≡ moved_to (starting n plan.entry) at }
{
    Reader { n, plan, at }
}
