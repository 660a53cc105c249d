// The demand that is left of a batch stopped after its first records, with the new wishes added (§23.4).
// The answer and every lent cell are promised for any N, cells, plan and number of records. The demand and the wishes are only read, and the
// new cells are computed in working memory, so that nothing is written before all is known.
#![tactic(auto)]

ghost use Rattle.std.specs.Prelude.{◌≡◌, ◌*◌, length, ◌≤◌, ◌<◌, ◌^◌};
ghost use Rattle.switch.specs.Editions.{first_edition, Bounded};
ghost use Rattle.demand.specs.Lines.{Sized};
ghost use Rattle.carry.specs.Rest.{Renewing, Renewed};
ghost use Rattle.carry.specs.Carry.{lines_of, after_records, fault_of, cells_after, Carries};

use switch::{About, Blamed, Edition, Refusal};

// The pairs of a switch of 64 ports.
const PAIRS: usize = 4096;

// What a carry-over answers: nothing is counted.
pub type Carried = Result<(), Blamed>;

// Writes the new demand: in each cell what was asked and not granted by the plan's first `first` records, plus the new wish.
// Codes 1, 2, those of the whole plan, 15, and then 3, which the demand, the new wishes and their sum are tried for in this order.
pub fn carry_over(
    n: usize,
    asked: &[u32],
    plan: &[u8],
    first: usize,
    wished: &[u32],
    cells: &mut [u32],
) -> Carried
    ensures { Carries first_edition n asked.now plan.now first wished.now cells.old result cells.new }
{
    carry_for::<PAIRS>(
        n,
        asked,
        plan,
        first,
        wished,
        cells,
        switch::first_edition(),
    )
}

// The same for an edition, with a grant for each pair of its largest switch.
pub fn carry_for<const GRANTS: usize>(
    n: usize,
    asked: &[u32],
    plan: &[u8],
    first: usize,
    wished: &[u32],
    cells: &mut [u32],
    e: Edition,
) -> Carried
    requires { Bounded e × (e.ports * e.ports ≤ GRANTS) × (GRANTS < 2 ^ 61) }
    ensures { Carries e n asked.now plan.now first wished.now cells.old result cells.new }
{
    fault_of(n, asked, plan, first, wished, cells.len(), e)?;
    let mut granted = [0u32; GRANTS];
    // The whole plan was judged, so that this pass is not refused.
    grants::grant_plan(n, plan, e, first, &mut granted);
    let sum = &mut granted[..n * n];
    renew(asked, wished, sum);
    write_sum(n, sum, cells)
}

// What is refused before the sum is known; done where nothing is.
fn fault_of(
    n: usize,
    asked: &[u32],
    plan: &[u8],
    first: usize,
    wished: &[u32],
    room: usize,
    e: Edition,
) -> Carried
    requires { Bounded e }
    ensures { result ≡ fault_of e n asked.now plan.now first wished.now room }
{
    if n == 0 {
        return Err(Refusal::Ports.about(About::Nothing));
    }
    if e.ports < n {
        return Err(Refusal::Ports.about(About::Nothing));
    }
    let square = n * n;
    if asked.len() != square {
        return Err(Refusal::Cells(square).about(About::Nothing));
    }
    if wished.len() != square {
        return Err(Refusal::Cells(square).about(About::Nothing));
    }
    if room != square {
        return Err(Refusal::Cells(square).about(About::Nothing));
    }
    let counts = plans::check_plan(n, plan, e).map_err(|r| r.about(About::Plan))?;
    fault_after(n, asked, counts.records, first, wished)
}

// Where the whole plan is judged.
fn fault_after(n: usize, asked: &[u32], records: usize, first: usize, wished: &[u32]) -> Carried
    requires { Sized n asked.now × Sized n wished.now }
    ensures { result ≡ after_records n asked.now records first wished.now }
{
    if records < first {
        return Err(Refusal::FirstOver(records).about(About::Nothing));
    }
    lines_of(n, asked, About::Demand)?;
    lines_of(n, wished, About::Wished)
}

// Code 3 with the name of what it is about.
fn lines_of(n: usize, cells: &[u32], about: About) -> Carried
    requires { Sized n cells.now }
    ensures { result ≡ lines_of about n cells.now }
{
    demand::check_lines(n, cells).map_err(|r| r.about(about))?;
    Ok(())
}

// Each grant gives way to its cell of the new demand.
fn renew(asked: &[u32], wished: &[u32], granted: &mut [u32])
    requires { Renewing asked.now wished.now granted.old × (length granted.old ≡ length asked.now) }
    ensures { Renewed asked.now wished.now granted.old granted.new }
{
    for (k, cell) in granted.iter_mut().enumerate() {
        *cell = asked[k].saturating_sub(*cell) + wished[k];
    }
}

// Writes a new demand that no line refuses.
fn write_sum(n: usize, sum: &[u32], cells: &mut [u32]) -> Carried
    requires { Sized n sum.now × (length sum.now ≡ length cells.old) }
    ensures { (result ≡ lines_of About.Sum n sum.now) × (cells.new ≡ cells_after result sum.now cells.old) }
{
    lines_of(n, sum, About::Sum)?;
    cells.copy_from_slice(sum);
    Ok(())
}
