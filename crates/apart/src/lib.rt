// Outputs told apart, many at once. The place of an output in a word of 64 is its number modulo 64, so that ports of at most 64 have places
// of their own: where as many places are set as there are outputs, no two are the same. An idle input has the last place, as port 63 has; so
// that place is left out where some are idle, and that port, of which there may be one, is counted by itself.
// A yes is promised to be right. After a no the outputs may be fine all the same: to tell them one by one is left to the caller.
#![tactic(auto)]

ghost use Rattle.std.specs.Prelude.{◌≡◌, true, false, ◌<◌, ◌≤◌, length};
ghost use Rattle.apart.specs.Places.{places_of, placed_below, Once};
ghost use Rattle.apart.specs.Fine.{Ports, Fine};

// The output of an input that is joined to none.
const IDLE: u8 = 255;

// A word: so many places, all of them set, the last one, and its bit.
const WORD: usize = 64;

const EVERY: u64 = 0xffff_ffff_ffff_ffff;

const LAST: usize = 63;

const LAST_PLACE: u64 = 0x8000_0000_0000_0000;

// Are the outputs of the n inputs surely ports or idle, and none of the ports there twice?
pub fn surely_fine(outputs: &[u8], n: usize) -> bool
    requires { n ≤ length outputs.now }
    ensures { result ≡ true → Fine n outputs.now }
{
    if n == 0 || WORD < n {
        return false;
    }
    let own = &outputs[..n];
    if !all_inside(own) {
        return false;
    }
    let seen = places(own);
    if seen == EVERY >> (WORD - n) {
        return true;
    }
    if last_twice(own) {
        return false;
    }
    u64::count_ones(seen % LAST_PLACE) == u32::from(placed(own))
}

// The loops below go on after a no, and count in a byte: so the compiler takes many outputs at a time.

// Are all outputs ports or idle?
fn all_inside(outputs: &[u8]) -> bool
    requires { length outputs.now ≤ 64 }
    ensures { result ≡ true → Ports (length outputs.now) outputs.now (length outputs.now) }
{
    let end = outputs.len() as u8;
    let mut fine = true;
    for b in outputs {
        fine = fine & ((*b < end) | (*b == IDLE));
    }
    fine
}

// The places that the outputs have.
fn places(outputs: &[u8]) -> u64
    ensures { result ≡ places_of outputs.now (length outputs.now) }
{
    let mut seen: u64 = 0;
    for b in outputs {
        seen = seen | (1u64 << (usize::from(*b) % WORD));
    }
    seen
}

// How many of the outputs have another place than the last.
fn placed(outputs: &[u8]) -> u8
    requires { length outputs.now ≤ 64 }
    ensures { result ≡ placed_below 63 outputs.now (length outputs.now) }
{
    let mut count: u8 = 0;
    for b in outputs {
        count += u8::from(usize::from(*b) % WORD < LAST);
    }
    count
}

// Is port 63 there twice? Switches of fewer ports than 64 do not have it.
fn last_twice(outputs: &[u8]) -> bool
    requires { length outputs.now ≤ 64 }
    ensures { result ≡ false → length outputs.now ≡ 64 → Once 63 outputs.now (length outputs.now) }
{
    if outputs.len() < WORD {
        return false;
    }
    let mut count: u8 = 0;
    for b in outputs {
        count += u8::from(usize::from(*b) == LAST);
    }
    1 < count
}
