// The least total that any plan within a wavelength limit can have on the grating fabric: the larger of T and, rounded up, the most slots
// asked on one wavelength over the limit. It promises its whole answer for any N, any cells and any limit. That no plan within the limit has
// a smaller total is a law of the crate quiet_rule; nothing is planned here.
#![tactic(auto)]

ghost use Rattle.std.specs.Prelude.{◌≡◌, ◌<◌};
ghost use Rattle.switch.specs.Demand.{cell};
ghost use Rattle.switch.specs.Editions.{first_edition};
ghost use Rattle.demand.specs.Lines.{Sized};
ghost use Rattle.quiet_rule.specs.Limit.{band, busiest};
ghost use Rattle.least.specs.Least.{least_of};

use demand::{cell_at, check_demand};
use switch::{Counts, InputPort, Outcome, OutputPort, PORTS, Refusal};

// The least total within a limit, and T: refusals 1, 2, 3 and 17.
pub fn least_within(n: usize, cells: &[u32], limit: u64) -> Outcome
    ensures { result ≡ least_of first_edition n cells.now limit }
{
    let longest = check_demand(n, PORTS, cells)?;
    if limit == 0 {
        return Err(Refusal::Limit);
    }
    let shared = busiest_sum(n, cells).div_ceil(limit);
    Ok(Counts {
        records: 0,
        longest,
        total: longest.max(shared),
        length: 0,
        empty: 0,
    })
}

// The most slots asked on one wavelength. A loop, since a chain over a range does not tell that it left no wavelength out.
fn busiest_sum(n: usize, cells: &[u32]) -> u64
    requires { Sized n cells.now }
    ensures { result ≡ busiest n (cell n cells.now) }
{
    let mut most: u64 = 0;
    for w in 0..n {
        most = most.max(band_sum(n, cells, w));
    }
    most
}

// The slots asked on wavelength w, which leads from input i to output (i + w) mod N. They may need more than 32 bits.
// A loop here too: that the sum of a chain fits 64 bits did not follow.
fn band_sum(n: usize, cells: &[u32], w: usize) -> u64
    requires { Sized n cells.now × (w < n) }
    ensures { result ≡ band n (cell n cells.now) w }
{
    let mut sum: u64 = 0;
    for i in 0..n {
        let at = cell_at(n, InputPort(i), OutputPort((i + w) % n));
        sum += u64::from(cells[at]);
    }
    sum
}
