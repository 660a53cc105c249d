// What the first records of a plan grant each pair: one pass, which a record that is not well formed stops.
// The checker holds the grants of a whole plan against a demand, and a carry-over takes those of the records that were run off what was
// asked. Which plans there are and what a well-formed record is stand below; what the grants are held against is left to the crates above.
#![tactic(auto)]

ghost use Rattle.std.specs.Prelude.{◌≡◌, ◌*◌};
ghost use Rattle.records.specs.Record.{decoded};
ghost use Rattle.records.specs.Bytes.{plan_from};
ghost use Rattle.plans.specs.Read.{malformed};
ghost use Rattle.plans.specs.Reading.{Readable, passing};
ghost use Rattle.switch.specs.Plan.{total};
ghost use Rattle.switch.specs.Demand.{Blank};
ghost use Rattle.grants.specs.Grants.{Grants, Granting, Granted};

use records::HEAD;
use switch::{Edition, InputPort, OutputPort, Refusal};

// What a pass over a plan's records came to: the holds that were granted, summed, and the refusal where a damaged record stopped it.
#[derive(Clone, Copy)]
pub struct Pass {
    pub total: u64,
    pub end: Result<(), Refusal>,
}

// One pass over a plan's first records, up to the first that is not well formed: each hold goes to the total and to the pairs that the record
// joins.
// k names the record in a refusal.
pub fn grant_plan(n: usize, plan: &[u8], e: Edition, records: usize, grants: &mut [u32]) -> Pass
    requires { Readable e n plan.now records × Blank (n * n) grants.old }
    ensures end { result.end ≡ passing e n plan.now records (λ p. tt) }
    ensures held { result.total ≡ total (plan_from e.width plan.now 0 (malformed e.width e.byte n plan.now records 0)) }
    ensures granted { Grants n (plan_from e.width plan.now 0 (malformed e.width e.byte n plan.now records 0)) grants.new }
{
    let mut total: u64 = 0;
    for k in 0..records {
        let rec = plans::record_at(plan, e.width, k);
        if !records::record_fine(rec, n, e.byte) {
            return Pass {
                total,
                end: Err(Refusal::Malformed(k)),
            };
        }
        let hold = u32::from(records::hold_of(rec));
        grant_record(rec, n, hold, grants);
        total += u64::from(hold);
    }
    Pass { total, end: Ok(()) }
}

// Adds a record's hold to the grant of each pair that the record joins. An idle input's 255 is no output.
pub fn grant_record(rec: &[u8], n: usize, hold: u32, grants: &mut [u32])
    requires { Granting n rec.now hold grants.old }
    ensures { Granted n hold (decoded rec.now) grants.old grants.new }
{
    let outputs = &rec[HEAD..HEAD + n];
    for (i, b) in outputs.iter().enumerate() {
        let j = usize::from(*b);
        if j < n {
            let at = demand::cell_at(n, InputPort(i), OutputPort(j));
            grants[at] += hold;
        }
    }
}
