// Answers as numbers, for callers that are not written in Rattle: the structs that cross the edge, and every kind of answer flattened to
// one of them. Each field is given by a definition of specs/Flat; what does not apply to a call is 0.
#![tactic(auto)]

ghost use Rattle.std.specs.Prelude.{◌≡◌};
ghost use Rattle.plans.specs.Read.{step_place};
ghost use Rattle.answers.specs.Flat.{version, flat_about, kind_of};

use carry::Carried;
use lookup::Found;
use plans::{Step, Stepped};
use rescue::Answer;
use switch::{About, Outcome};
use wish::Wish;

// The version of the structs and functions below. A struct that is returned by value cannot grow: whoever adds a field makes it one more.
const VERSION: u64 = 1;

// What every call answers; what does not apply is 0.
#[repr(C)]
#[derive(Clone, Copy)]
pub struct CvAnswer {
    pub code: u64,
    pub place: u64,
    pub side: u64,
    pub records: u64,
    pub longest: u64,
    pub total: u64,
    pub length: u64,
    pub empty: u64,
    // How many records a rescue added and dropped.
    pub added: u64,
    pub dropped: u64,
    // What a refusal is about, where a call reads more than one plan or demand.
    pub about: u64,
}

// One step of reading a plan: kind 0 is a record, 1 the end, 2 code 11.
#[repr(C)]
#[derive(Clone, Copy)]
pub struct CvStep {
    pub kind: u64,
    pub place: u64,
    pub hold: u64,
    pub outputs: [u8; 64],
}

// The same in the second edition.
// C has no struct over a number of outputs, so that there are two.
#[repr(C)]
#[derive(Clone, Copy)]
pub struct Cv2Step {
    pub kind: u64,
    pub place: u64,
    pub hold: u64,
    pub outputs: [u8; 128],
}

// Where the record in force stands: bytes start .. start + size of plan 1, tonight's, or 2, standby's; all 0 where the lookup is refused.
#[repr(C)]
#[derive(Clone, Copy)]
pub struct CvPart {
    pub answer: CvAnswer,
    pub plan: u64,
    pub start: u64,
    pub size: u64,
}

// The version of the structs, and of the calls that give them.
pub fn version() -> u64
    ensures { result ≡ version }
{
    VERSION
}

// What does not apply to a call.
const NOTHING: CvAnswer = CvAnswer {
    code: 0,
    place: 0,
    side: 0,
    records: 0,
    longest: 0,
    total: 0,
    length: 0,
    empty: 0,
    added: 0,
    dropped: 0,
    about: 0,
};

// A wish: its code, and its slots as total.
impl From<Wish> for CvAnswer {
    ghost use Rattle.std.specs.Prelude.{◌≡◌};
    ghost use Rattle.answers.specs.Flat.{flat_wish};

    ghost from_gives = { λ asked r. r ≡ flat_wish asked };

    fn from(asked: Wish) -> CvAnswer {
        CvAnswer {
            code: u64::from(wish::code_of(asked)),
            total: u64::from(wish::slots_of(asked)),
            ..NOTHING
        }
    }
}

// An outcome in numbers, where there is one plan or demand to be about.
impl From<Outcome> for CvAnswer {
    ghost use Rattle.std.specs.Prelude.{◌≡◌};
    ghost use Rattle.answers.specs.Flat.{flat};

    ghost from_gives = { λ o r. r ≡ flat o };

    fn from(o: Outcome) -> CvAnswer {
        answer_about(o, About::Nothing)
    }
}

// A carry-over's answer in numbers; nothing is counted.
impl From<Carried> for CvAnswer {
    ghost use Rattle.std.specs.Prelude.{◌≡◌};
    ghost use Rattle.answers.specs.Flat.{flat_carried};

    ghost from_gives = { λ c r. r ≡ flat_carried c };

    fn from(c: Carried) -> CvAnswer {
        match c {
            Ok(()) => NOTHING,
            Err(blamed) => answer_about(Err(blamed.refusal), blamed.about),
        }
    }
}

// A rescue's answer in numbers.
impl From<Answer> for CvAnswer {
    ghost use Rattle.std.specs.Prelude.{◌≡◌};
    ghost use Rattle.answers.specs.Flat.{flat_rescue};

    ghost from_gives = { λ a r. r ≡ flat_rescue a };

    fn from(a: Answer) -> CvAnswer {
        let told = CvAnswer::from(a.outcome);
        CvAnswer {
            added: a.added as u64,
            dropped: a.dropped as u64,
            ..told
        }
    }
}

// Where a lookup found the record in force.
impl From<Found> for CvPart {
    ghost use Rattle.std.specs.Prelude.{◌≡◌};
    ghost use Rattle.answers.specs.Flat.{flat_part};

    ghost from_gives = { λ f r. r ≡ flat_part f };

    fn from(f: Found) -> CvPart {
        CvPart {
            answer: answer_about(f.outcome, f.about),
            plan: f.plan,
            start: f.start as u64,
            size: f.size as u64,
        }
    }
}

// A step of the first edition.
impl From<Stepped<64>> for CvStep {
    ghost use Rattle.std.specs.Prelude.{◌≡◌};
    ghost use Rattle.answers.specs.Flat.{flat_step};

    ghost from_gives = { λ s r. r ≡ flat_step s };

    fn from(s: Stepped<64>) -> CvStep {
        let outputs = s.outputs;
        CvStep {
            kind: kind_of(s.step),
            place: place_of(s.step),
            hold: u64::from(s.hold),
            outputs,
        }
    }
}

// A step of the second.
impl From<Stepped<128>> for Cv2Step {
    ghost use Rattle.std.specs.Prelude.{◌≡◌};
    ghost use Rattle.answers.specs.Flat.{flat_wide};

    ghost from_gives = { λ s r. r ≡ flat_wide s };

    fn from(s: Stepped<128>) -> Cv2Step {
        let outputs = s.outputs;
        Cv2Step {
            kind: kind_of(s.step),
            place: place_of(s.step),
            hold: u64::from(s.hold),
            outputs,
        }
    }
}

// A step's kind, as C counts it.
pub fn kind_of(step: Step) -> u64
    ensures { result ≡ kind_of step }
{
    match step {
        Step::Record => 0,
        Step::End => 1,
        Step::Malformed(_) => 2,
    }
}

// The record that a step finds damaged, 0 for C where it finds none.
pub fn place_of(step: Step) -> u64
    ensures { result ≡ step_place step }
{
    match step {
        Step::Record | Step::End => 0,
        Step::Malformed(k) => k as u64,
    }
}

// An outcome in numbers, and what it is about.
fn answer_about(o: Outcome, about: About) -> CvAnswer
    ensures { result ≡ flat_about o about }
{
    let told = switch::numbers_of(o);
    let counts = told.counts;
    CvAnswer {
        code: told.code,
        place: told.place as u64,
        side: told.side,
        records: counts.records as u64,
        longest: counts.longest,
        total: counts.total,
        length: counts.length,
        empty: counts.empty,
        added: 0,
        dropped: 0,
        about: switch::about_number(about),
    }
}
