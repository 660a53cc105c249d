// The lister: a wish list at standard input, its exact plan at standard output.
// It reads and writes and nothing else; what it prints is the promise of `listing`. What can't be read or written ends it with the error.
#![tactic(auto)]

use std::io;
use std::io::Write;

fn main(rt: HostRuntime) -> io::Result<()> {
    let mut bytes = [0u8; listing::LISTED];
    let size = input::read_full(&mut rt.stdin(), &mut bytes)?;
    let mut text = [0u8; listing::TEXT];
    let end = listing::listing(&bytes[..size], &mut text);
    rt.stdout().write_all(&text[..end])
}
