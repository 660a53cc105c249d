// The lister's lines: a plan, or a refusal, as text. Words, decimal numbers and plan records are put into a lent text, one after the other.
// Each function promises the bytes it puts, that it touches no other, and the place after them; what a caller shows is that they fit.
// Which text is printed for a wish list is left to `listing`. It is not `write!`: of that no promise says which bytes it puts into a lent text.
// A text and the place reached in it are passed as two: a struct of both would have each contract name both of its parts, before and after.
#![tactic(auto)]

ghost use Rattle.std.specs.Prelude.{[], ◌∷◌, ◌++◌, map, ◌+◌, ◌*◌, ◌≤◌, length};
ghost use Rattle.switch.specs.Answer.{refusal_side, side_number};
ghost use Rattle.records.specs.Record.{decoded};
ghost use Rattle.records.specs.Bytes.{plan_from};
ghost use Rattle.text.specs.Decimal.{digit, decimal};
ghost use Rattle.text.specs.Line.{space, spaced};
ghost use Rattle.text.specs.Text.{first_line, output_field, record_line, record_lines, plan_text, side_field, refused_line};
ghost use Rattle.text.specs.Put.{Put};

use records::{HEAD, RECORD};
use switch::{Counts, Refusal, Side};

// The byte of the digit 0; the others follow it.
const ZERO: u8 = b'0';

// Puts a plan at the text's start: the first line, with what its planner counted, then a line for each record.
pub fn put_plan(text: &mut [u8], n: usize, counts: Counts, plan: &[u8]) -> usize
    requires { (n ≤ 64) × (counts.records * 68 ≤ length plan.now) × (length (plan_text n counts (plan_from 64 plan.now 0 counts.records)) ≤ length text.old) }
    ensures { Put (plan_text n counts (plan_from 64 plan.now 0 counts.records)) text.old 0 text.new result }
{
    let at = put_first_line(text, n, counts);
    let (whole, _) = plan.as_chunks::<RECORD>();
    let lines = &whole[..counts.records];
    put_record_lines(text, at, n, lines)
}

// The words ports, longest, records, total, empty, each followed by its number.
fn put_first_line(text: &mut [u8], n: usize, counts: Counts) -> usize
    requires { length (first_line n counts) ≤ length text.old }
    ensures { Put (first_line n counts) text.old 0 text.new result }
{
    let ports = put_field(text, 0, b"ports", n as u64);
    let longest = put_field(text, ports, b" longest", counts.longest);
    let records = put_field(text, longest, b" records", counts.records as u64);
    let total = put_field(text, records, b" total", counts.total);
    let empty = put_field(text, total, b" empty", counts.empty);
    put_bytes(text, empty, b"\n")
}

// A line for each of the records.
fn put_record_lines(text: &mut [u8], at: usize, n: usize, plan: &[[u8; RECORD]]) -> usize
    requires { (n ≤ 64) × (at + length (record_lines n (map decoded plan.now)) ≤ length text.old) }
    ensures { Put (record_lines n (map decoded plan.now)) text.old at text.new result }
{
    let mut to = at;
    for rec in plan {
        to = put_record_line(text, to, n, rec);
    }
    to
}

// The hold of a record, then its outputs by input.
fn put_record_line(text: &mut [u8], at: usize, n: usize, rec: &[u8]) -> usize
    requires { (n + 4 ≤ length rec.now) × (at + length (record_line n (decoded rec.now)) ≤ length text.old) }
    ensures { Put (record_line n (decoded rec.now)) text.old at text.new result }
{
    let hold = put_decimal(text, at, u64::from(records::hold_of(rec)));
    let outputs = put_outputs(text, hold, &rec[HEAD..HEAD + n]);
    put_bytes(text, outputs, b"\n")
}

// Outputs, each after a space.
fn put_outputs(text: &mut [u8], at: usize, outputs: &[u8]) -> usize
    requires { at + length (spaced (map output_field outputs.now)) ≤ length text.old }
    ensures { Put (spaced (map output_field outputs.now)) text.old at text.new result }
{
    let mut to = at;
    for output in outputs {
        to = put_output(text, to, *output);
    }
    to
}

// A space and an output, a dash where the input is idle.
fn put_output(text: &mut [u8], at: usize, output: u8) -> usize
    requires { at + (length (output_field output) + 1) ≤ length text.old }
    ensures { Put (space ∷ output_field output) text.old at text.new result }
{
    if output == records::IDLE {
        return put_bytes(text, at, b" -");
    }
    put_number(text, at, u64::from(output))
}

// Puts a refusal at the text's start: `refused`, code, place, and before the place of code 3 the word input or output.
// 64 bytes hold it: two numbers of at most 20 digits, two words, and what parts them.
pub fn put_refusal(text: &mut [u8], refusal: Refusal) -> usize
    requires { 64 ≤ length text.old }
    ensures { Put (refused_line refusal) text.old 0 text.new result }
{
    let told = switch::numbers_of(Err(refusal));
    let after_code = put_field(text, 0, b"refused", told.code);
    let after_side = put_side(text, after_code, refusal);
    let after_place = put_number(text, after_side, told.place as u64);
    put_bytes(text, after_place, b"\n")
}

// A space and the word of the refused line's side; nothing where no line is refused.
fn put_side(text: &mut [u8], at: usize, refusal: Refusal) -> usize
    requires { at + length (spaced (side_field (refusal_side refusal))) ≤ length text.old }
    ensures { Put (spaced (side_field (refusal_side refusal))) text.old at text.new result }
{
    match refusal {
        Refusal::Line(side) => put_word(text, at, side),
        _ => at,
    }
}

// A space and the word of a side.
fn put_word(text: &mut [u8], at: usize, side: Side) -> usize
    requires { at + length (spaced (side_field (side_number side))) ≤ length text.old }
    ensures { Put (spaced (side_field (side_number side))) text.old at text.new result }
{
    match side {
        Side::Input(_) => put_bytes(text, at, b" input"),
        _ => put_bytes(text, at, b" output"),
    }
}

// A word and its number.
fn put_field(text: &mut [u8], at: usize, word: &[u8], number: u64) -> usize
    requires { at + length (word.now ++ space ∷ decimal number) ≤ length text.old }
    ensures { Put (word.now ++ space ∷ decimal number) text.old at text.new result }
{
    let after = put_bytes(text, at, word);
    put_number(text, after, number)
}

// A space and a number.
fn put_number(text: &mut [u8], at: usize, number: u64) -> usize
    requires { at + (length (decimal number) + 1) ≤ length text.old }
    ensures { Put (space ∷ decimal number) text.old at text.new result }
{
    let after = put_bytes(text, at, b" ");
    put_decimal(text, after, number)
}

// A number in decimal: all its digits but the last are those of its tenth.
fn put_decimal(text: &mut [u8], at: usize, number: u64) -> usize
    requires { at + length (decimal number) ≤ length text.old }
    ensures { Put (decimal number) text.old at text.new result }
{
    if number < 10 {
        return put_digit(text, at, number);
    }
    let last = put_decimal(text, at, number / 10);
    put_digit(text, last, number % 10)
}

// One digit.
fn put_digit(text: &mut [u8], at: usize, number: u64) -> usize
    requires { (number ≤ 9) × (at + 1 ≤ length text.old) }
    ensures { Put (digit number ∷ []) text.old at text.new result }
{
    text[at] = ZERO + number as u8;
    at + 1
}

// Bytes as they are.
fn put_bytes(text: &mut [u8], at: usize, bytes: &[u8]) -> usize
    requires { at + length bytes.now ≤ length text.old }
    ensures { Put bytes.now text.old at text.new result }
{
    let end = at + bytes.len();
    text[at..end].copy_from_slice(bytes);
    end
}
