// The model: ports, sides, refusals and the outcome of a call, with the numbers of §9 for each of its cases.
// What a demand, a line, T, a setting, a plan, its grants, its cover and its empty slots are stands in specs/, over any number of ports, and
// in proofs/ that no plan that covers a demand is held for less than T. Checking a demand and planning it are left to the crates above.
#![tactic(auto)]

ghost use Rattle.std.specs.Prelude.{◌≡◌};
ghost use Rattle.switch.specs.Editions.{first_edition, second_edition};
ghost use Rattle.switch.specs.Answer.{refusal_code, refusal_place, refusal_side, no_counts, blamed, numbers_of, about_number};

// N is 1 to 64.
pub const PORTS: usize = 64;

// A plan has at most 8,192 records.
pub const RECORDS: usize = 8192;

// The second edition's N is 1 to 128, its plans have at most 32,768 records, and this byte tells its records from the first one's.
pub const WIDE_PORTS: usize = 128;

pub const WIDE_RECORDS: usize = 32768;

pub const WIDE_BYTE: u8 = 2;

// A line sums to at most 65,535, the most that a hold of two bytes can be.
pub const LONGEST: u64 = 65535;

// The records of an edition: how many outputs each has, the byte behind N, the largest N, and how many records a plan may have.
#[derive(Clone, Copy)]
pub struct Edition {
    pub width: usize,
    pub byte: u8,
    pub ports: usize,
    pub records: usize,
}

// The two sides are counted apart (§3.2): no function can take an input for an output.
#[derive(Clone, Copy)]
pub struct InputPort(pub usize);

#[derive(Clone, Copy)]
pub struct OutputPort(pub usize);

// Which line of a demand: an input's row or an output's column.
#[derive(Clone, Copy)]
pub enum Side {
    Input(InputPort),
    Output(OutputPort),
}

// Why a call refuses: codes 1 to 13 in this order, then those of later requests. What a case holds is its place.
#[derive(Clone, Copy)]
pub enum Refusal {
    // N is not a number of ports.
    Ports,
    // The cells lent are not N², which it holds.
    Cells(usize),
    // A line sums over 65,535.
    Line(Side),
    // T is over what the quick cover takes.
    Longest,
    // There is too little room for the plan; it holds how many records that has.
    Room(usize),
    // A wish is a NaN or an infinity.
    NotFinite(usize),
    // A wish is below zero.
    BelowZero(usize),
    // A wish is above 65,535.
    AboveMost(usize),
    // The bytes are not a multiple of the record size; it holds the whole records.
    Torn(usize),
    // The plan has more records than it may, which is what it holds.
    Records(usize),
    // A record is not well formed.
    Malformed(usize),
    // A wish is for a pair that an earlier record names.
    Named(usize),
    // A pair, given by its cell, is not covered.
    Uncovered(usize),
    // T alone is told and is over 65,535: code 3 with no line to name.
    LongestOver,
    // Tonight's plan has run out and there is no standby plan.
    NotInForce,
    // More first records are asked for than the plan has, which is what it holds.
    FirstOver(usize),
    // The list has no room for all its entries; it holds how many they are.
    ListRoom(usize),
    // At most 0 inputs may share a wavelength.
    Limit,
}

// What a refusal is about, where a call reads more than one plan or demand.
#[derive(Clone, Copy)]
pub enum About {
    Nothing,
    Tonight,
    Standby,
    Plan,
    Demand,
    Wished,
    Sum,
}

// A refusal, and what it is about.
#[derive(Clone, Copy)]
pub struct Blamed {
    pub about: About,
    pub refusal: Refusal,
}

impl Refusal {
    // The refusal with what it is about.
    pub fn about(self, about: About) -> Blamed
        ensures { result ≡ blamed about self }
    {
        Blamed {
            about,
            refusal: self,
        }
    }
}

// What a call counted; what does not apply is 0.
// C's answer has each of the five, as the calls' definitions have, so that none is an Option.
#[derive(Clone, Copy)]
pub struct Counts {
    pub records: usize,
    pub longest: u64,
    pub total: u64,
    pub length: u64,
    // Slots granted beyond what was asked; it may need more than 32 bits.
    pub empty: u64,
}

// What a call answers.
pub type Outcome = Result<Counts, Refusal>;

// An outcome on paper.
// C and the lister take numbers alone, and what is not there is 0 for them.
#[derive(Clone, Copy)]
pub struct Numbers {
    // 0 where nothing is refused.
    pub code: u64,
    pub place: usize,
    // 1 where a refused line is an input's, 2 where it is an output's, else 0.
    pub side: u64,
    pub counts: Counts,
}

// The numbers of an outcome (§9).
pub fn numbers_of(o: Outcome) -> Numbers
    ensures { result ≡ numbers_of o }
{
    match o {
        Ok(counts) => Numbers {
            code: 0,
            place: 0,
            side: 0,
            counts,
        },
        Err(r) => refused(entry_of(r)),
    }
}

// A refusal's code, place and side.
#[derive(Clone, Copy)]
struct Entry(u64, usize, u64);

// The tables of codes and places.
fn entry_of(r: Refusal) -> Entry
    ensures { (result.0 ≡ refusal_code r) × (result.1 ≡ refusal_place r) × (result.2 ≡ refusal_side r) }
{
    match r {
        Refusal::Ports => Entry(1, 0, 0),
        Refusal::Cells(k) => Entry(2, k, 0),
        Refusal::Line(s) => match s {
            Side::Input(p) => Entry(3, p.0, 1),
            Side::Output(p) => Entry(3, p.0, 2),
        },
        Refusal::Longest => Entry(4, 0, 0),
        Refusal::Room(k) => Entry(5, k, 0),
        Refusal::NotFinite(k) => Entry(6, k, 0),
        Refusal::BelowZero(k) => Entry(7, k, 0),
        Refusal::AboveMost(k) => Entry(8, k, 0),
        Refusal::Torn(k) => Entry(9, k, 0),
        Refusal::Records(k) => Entry(10, k, 0),
        Refusal::Malformed(k) => Entry(11, k, 0),
        Refusal::Named(k) => Entry(12, k, 0),
        Refusal::Uncovered(k) => Entry(13, k, 0),
        Refusal::LongestOver => Entry(3, 0, 0),
        Refusal::NotInForce => Entry(14, 0, 0),
        Refusal::FirstOver(k) => Entry(15, k, 0),
        Refusal::ListRoom(k) => Entry(16, k, 0),
        Refusal::Limit => Entry(17, 0, 0),
    }
}

// A refusal counts nothing.
fn refused(entry: Entry) -> Numbers
    ensures { result ≡ record { code = entry.0; place = entry.1; side = entry.2; counts = no_counts } }
{
    let counts = Counts {
        records: 0,
        longest: 0,
        total: 0,
        length: 0,
        empty: 0,
    };
    Numbers {
        code: entry.0,
        place: entry.1,
        side: entry.2,
        counts,
    }
}

// The number of what a refusal is about.
// C reads these numbers in an answer.
pub fn about_number(about: About) -> u64
    ensures { result ≡ about_number about }
{
    match about {
        About::Nothing => 0,
        About::Tonight => 1,
        About::Standby => 2,
        About::Plan => 3,
        About::Demand => 4,
        About::Wished => 5,
        About::Sum => 6,
    }
}

// The edition for switches of 64 ports.
pub fn first_edition() -> Edition
    ensures { result ≡ first_edition }
{
    Edition {
        width: PORTS,
        byte: 0,
        ports: PORTS,
        records: RECORDS,
    }
}

// The edition for switches of 128 ports.
pub fn second_edition() -> Edition
    ensures { result ≡ second_edition }
{
    Edition {
        width: WIDE_PORTS,
        byte: WIDE_BYTE,
        ports: WIDE_PORTS,
        records: WIDE_RECORDS,
    }
}
