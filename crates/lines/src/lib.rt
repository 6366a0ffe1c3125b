// The text of the listing (01, "One log by hand"; 02, wish 1), gathered in a buffer. Each function puts its text behind the
// first `at` bytes of the buffer, which stay as they are, and answers how many bytes are in use then.
#![tactic(auto)]

ghost use Rattle.std.specs.Prelude.{◌≡◌, ◌+◌, ◌≤◌, length};
ghost use Rattle.lines.specs.Text.{numeral, side_text, line_text, named_text, units_text, refused_text};
ghost use Rattle.lines.specs.Gathered.{Gathered};

use itoa::Buffer;
use model::Side;

// The most bytes that a line of the listing takes.
pub const LINE: usize = 65;

pub fn gather(buffer: &mut [u8], at: usize, text: &[u8]) -> usize
    requires { at + length text.now ≤ length buffer.old }
    ensures { Gathered buffer.old at text.now buffer.new result }
{
    codec::copy_front(&mut buffer[at..], text);
    at + text.len()
}

// A number in decimal.
pub fn put_number(buffer: &mut [u8], at: usize, n: u64) -> usize
    requires { at + 20 ≤ length buffer.old }
    ensures gathered { Gathered buffer.old at (numeral n) buffer.new result }
    ensures short { result ≤ at + 20 }
{
    let mut digits = Buffer::new();
    gather(buffer, at, digits.format(n).as_bytes())
}

fn put_side(buffer: &mut [u8], at: usize, side: Side) -> usize
    requires { at + 3 ≤ length buffer.old }
    ensures gathered { Gathered buffer.old at (side_text side) buffer.new result }
    ensures short { result ≤ at + 3 }
{
    match side {
        Side::Earlier => gather(buffer, at, b" E "),
        Side::Later => gather(buffer, at, b" L "),
    }
}

// The line of one request time.
pub fn put_line(buffer: &mut [u8], at: usize, time: u64, page: u32, side: Side, rows: u32) -> usize
    requires { at + 65 ≤ length buffer.old }
    ensures gathered { Gathered buffer.old at (line_text time page side rows) buffer.new result }
    ensures short { result ≤ at + 65 }
{
    let timed = put_number(buffer, at, time);
    let parted = gather(buffer, timed, b" ");
    let paged = put_number(buffer, parted, page as u64);
    let sided = put_side(buffer, paged, side);
    let counted = put_number(buffer, sided, rows as u64);
    gather(buffer, counted, b"\n")
}

// A line of one word, with its space, and a number.
fn put_named(buffer: &mut [u8], at: usize, word: &[u8], n: u64) -> usize
    requires { at + length word.now + 21 ≤ length buffer.old }
    ensures gathered { Gathered buffer.old at (named_text word.now n) buffer.new result }
    ensures short { result ≤ at + length word.now + 21 }
{
    let named = gather(buffer, at, word);
    let numbered = put_number(buffer, named, n);
    gather(buffer, numbered, b"\n")
}

// The last line: the units on hand.
pub fn put_units(buffer: &mut [u8], at: usize, units: u64) -> usize
    requires { at + 27 ≤ length buffer.old }
    ensures gathered { Gathered buffer.old at (units_text units) buffer.new result }
    ensures short { result ≤ at + 27 }
{
    put_named(buffer, at, b"units ", units)
}

// What is printed of an opening that is refused by question k.
pub fn put_refused(buffer: &mut [u8], at: usize, k: u8) -> usize
    requires { at + 29 ≤ length buffer.old }
    ensures gathered { Gathered buffer.old at (refused_text k) buffer.new result }
    ensures short { result ≤ at + 29 }
{
    put_named(buffer, at, b"refused ", k as u64)
}
