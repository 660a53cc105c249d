// The lister's text: the bytes of a wish list to the exact plan of its demand, or to the line of what is refused.
// `listing` promises the text to the byte, for any bytes, and that it fits; the program `lister` only reads and writes.
// How a line is laid out is the crate `text`'s matter, and the plan the planner's.
#![tactic(auto)]

ghost use Rattle.std.specs.Prelude.{◌≡◌, ◌+◌, ◌*◌, ◌<◌, ◌≤◌, length, take};
ghost use Rattle.records.specs.Bytes.{laid};
ghost use Rattle.text.specs.Put.{Put};
ghost use Rattle.listing.specs.Listing.{ports_of, demand_text, wish_text, listing_of};

use switch::Refusal;
use text::{put_plan, put_refusal};

// What is behind so many bytes of the input does not count.
pub const LISTED: usize = 4096;

// The bytes of a text that every listing fits: a first line and 226 lines of records take fewer.
pub const TEXT: usize = 16384;

// The most ports that are listed, and the cells of their demand.
const PORTS: usize = 16;

const CELLS: usize = 256;

// The bytes of 226 plan records, the most that the exact plan has for 16 ports: 16² - 2 × 16 + 2.
const PLAN: usize = 15368;

// The bytes of a wish record.
const RECORD: usize = 8;

// Puts at the text's start what the lister prints for the bytes of its input, and answers how long that is. It always fits.
pub fn listing(input: &[u8], text: &mut [u8; TEXT]) -> usize
    ensures { (result ≡ length (listing_of input.now)) × (text.new ≡ laid text.old 0 (listing_of input.now)) × (take result text.new ≡ listing_of input.now) }
{
    let end = input.len().min(LISTED);
    list_text(&input[..end], text)
}

// The text of a wish list, whole; code 1 where it names no port or too many.
fn list_text(list: &[u8], text: &mut [u8]) -> usize
    requires { 16384 ≤ length text.old }
    ensures { Put (wish_text (ports_of list.now) list.now) text.old 0 text.new result }
{
    let n = ports_of(list);
    if n == 0 || PORTS < n {
        return put_refusal(text, Refusal::Ports);
    }
    let mut cells = [0u32; CELLS];
    let square = n * n;
    wish_text(n, list, &mut cells[..square], text)
}

// How many ports a list names: its largest, and one.
fn ports_of(list: &[u8]) -> usize
    ensures { result ≡ ports_of list.now }
{
    let (records, _) = list.as_chunks::<RECORD>();
    let mut n: usize = 0;
    for rec in records {
        n = n.max(above(rec[0])).max(above(rec[1]));
    }
    n
}

// One more than a port.
fn above(port: u8) -> usize
    ensures { result ≡ port + 1 }
{
    usize::from(port) + 1
}

// The text of a wish list for n ports.
fn wish_text(n: usize, list: &[u8], cells: &mut [u32], text: &mut [u8]) -> usize
    requires { (0 < n) × (n ≤ 16) × (length cells.old ≡ n * n) × (16384 ≤ length text.old) }
    ensures { Put (wish_text n list.now) text.old 0 text.new result }
{
    let outcome = wishes::wishes(n, list, cells);
    match outcome {
        Err(refusal) => put_refusal(text, refusal),
        Ok(_) => demand_text(n, cells, text),
    }
}

// The exact plan of a demand as text. The plan's room is for the most records that there can be, so it is never too small.
fn demand_text(n: usize, cells: &[u32], text: &mut [u8]) -> usize
    requires { (0 < n) × (n ≤ 16) × (length cells.now ≡ n * n) × (16384 ≤ length text.old) }
    ensures { Put (demand_text n cells.now) text.old 0 text.new result }
{
    let mut plan = [0u8; PLAN];
    let outcome = exact::exact_plan(n, cells, &mut plan);
    match outcome {
        Err(refusal) => put_refusal(text, refusal),
        Ok(counts) => {
            let end = counts.records * records::RECORD;
            put_plan(text, n, counts, &plan[..end])
        }
    }
}
