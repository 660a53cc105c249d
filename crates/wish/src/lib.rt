// One wish: how many whole slots a binary32 value asks for, or why it is refused (codes 6, 7, 8).
// Both calls answer for every input: every float, and each of the 2^32 patterns of bits.
// Where a wish stands in a list, and for which pair of ports, is the crate `wishes`'s matter.
#![tactic(auto)]

ghost use Rattle.std.specs.Prelude.{◌≡◌};
ghost use Rattle.wish.specs.Wish.{wish_of, wish_bits, worth, ceil_of, InRange, code_of, slots_of};

// The most slots that a wish may ask for: a line of a demand sums to no more (code 8).
const MOST_SLOTS: f32 = 65535.0;

// The bits of a binary32 but for its sign: those of an infinity, past which each is a NaN's, and how many there are.
const INFINITE: u32 = 0x7f80_0000;

const UNSIGNED: u32 = 0x8000_0000;

// 2^23, from which on a binary32 has no digit for a fraction: added to a wish and taken off again, it leaves the nearest whole number.
const NO_FRACTION: f32 = 8388608.0;

// Why a wish is refused.
#[derive(Clone, Copy)]
pub enum Unfit {
    // Code 6: a NaN or an infinity.
    NotFinite,
    // Code 7: below zero.
    BelowZero,
    // Code 8: above 65,535.
    AboveMost,
}

// What a wish comes to: the slots that it is given, or why it is refused.
pub type Wish = Result<u32, Unfit>;

// The wish of 32 bits. A NaN's are told by their number, since no float may be made of them.
pub fn of_bits(bits: u32) -> Wish
    ensures { result ≡ wish_bits bits }
{
    if INFINITE < bits % UNSIGNED {
        return Err(Unfit::NotFinite);
    }
    classify(f32::from_bits(bits))
}

// The wish x. A NaN is tested for first, since every comparison below is false of it: it alone differs from itself.
pub fn classify(x: f32) -> Wish
    ensures { result ≡ wish_of x }
{
    if x != x {
        return Err(Unfit::NotFinite);
    }
    let infinite: f32 = 1.0 / 0.0;
    if x == infinite {
        return Err(Unfit::NotFinite);
    }
    if x == -infinite {
        return Err(Unfit::NotFinite);
    }
    if x < 0.0 {
        return Err(Unfit::BelowZero);
    }
    if x > MOST_SLOTS {
        return Err(Unfit::AboveMost);
    }
    Ok(worth_of(rounded_up(x)))
}

// The slots of 32 bits whose wish is not refused: a caller who has judged them need not have them judged again.
pub fn slots_given(bits: u32) -> u32
    requires { code_of (wish_bits bits) ≡ 0 }
    ensures { result ≡ slots_of (wish_bits bits) }
{
    worth_of(rounded_up(f32::from_bits(bits)))
}

// The code of a wish, 0 where nothing is refused.
// C has no Result: it is told a code and slots, each a number.
pub fn code_of(wish: Wish) -> u8
    ensures { result ≡ code_of wish }
{
    match wish {
        Ok(_) => 0,
        Err(Unfit::NotFinite) => 6,
        Err(Unfit::BelowZero) => 7,
        Err(Unfit::AboveMost) => 8,
    }
}

// A wish's slots, 0 where it is refused.
pub fn slots_of(wish: Wish) -> u32
    ensures { result ≡ slots_of wish }
{
    wish.unwrap_or(0)
}

// The least whole number not below x: the nearest one, or the next where that is below x.
fn rounded_up(x: f32) -> u32
    requires { InRange x }
    ensures { result ≡ ceil_of x }
{
    let near = (x + NO_FRACTION) - NO_FRACTION;
    let whole = near as u32;
    if near < x {
        return whole + 1;
    }
    whole
}

// What a wish is worth whose least whole number not below it is `whole`. The counters throw the first slot away, so one is never enough.
#[tactic(auto, unfolding(crate::specs::Wish::worth))]
fn worth_of(whole: u32) -> u32
    ensures { result ≡ worth whole }
{
    if whole == 1 {
        return 2;
    }
    whole
}
