// Numbers: two steps on plain numbers that several crates take, each proved once: four bytes read as a word, and cells copied. Nothing is said
// of a switch. What std has, as the smaller of two numbers or a difference that stops at 0, is taken from there.
#![tactic(auto)]

ghost use Rattle.std.specs.Prelude.{◌≡◌, ◌++◌, ◌+◌, ◌≤◌, length, drop};
ghost use Rattle.numbers.specs.Word.{word};

// Four bytes from `at` on, low byte first.
pub fn word_at(bytes: &[u8], at: usize) -> u32
    requires { at + 4 ≤ length bytes.now }
    ensures { result ≡ word bytes.now at }
{
    u32::from_le_bytes([bytes[at], bytes[at + 1], bytes[at + 2], bytes[at + 3]])
}

// Copies cells over the first of others. By a loop: std's copy calls memmove here, which the header does not ask of who links the archive.
pub fn copy(from: &[u32], to: &mut [u32])
    requires { length from.now ≤ length to.old }
    ensures { to.new ≡ from.now ++ drop (length from.now) to.old }
{
    for k in 0..from.len() {
        to[k] = from[k];
    }
}
