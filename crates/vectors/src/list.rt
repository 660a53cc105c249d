// The lister's text for an input: that of `listing`, as the program `lister` writes it; a run of that has one input, and this has them all.
use crate::show;
use std::io;

// What the lister prints for the input that is laid.
pub fn list(rt: &impl Print, input: &[u8]) -> io::Result<()> {
    let mut text = [0u8; listing::TEXT];
    let end = listing::listing(input, &mut text);
    show::text(rt, &text[..end])
}
