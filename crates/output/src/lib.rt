#![tactic(auto)]

// Numbers and entries as lines of text.
ghost use Rattle.std.specs.Prelude.{◌≡◌, ◌+◌, ◌<◌, ◌≤◌, max, length, [], ◌∷◌, ◌++◌, OnOk};
ghost use Rattle.std.specs.Io.KnownBytes.{Appends};

use itoa::Integer;
use std::fmt::Display;
use std::io;
use std::io::Write;

#[derive(Clone, Copy)]
pub struct Limits;

impl Limits {
    // Bytes of the buffer through which a program writes.
    pub const BUFFER: usize = 65536;
}

// A number's decimal digits, after a `-` if it is negative, and a byte.
pub fn put_number<W: Write, T: Integer>(out: &mut W, x: T, end: u8) -> io::Result<()>
    ensures { OnOk result (Appends (W.contents out.old) (W.contents out.new) (T.text x ++ end ∷ [])) }
{
    let mut digits = itoa::Buffer::new();
    out.write_all(digits.format(x).as_bytes())?;
    out.write_all(&[end])
}

// Numbers that are written at once, and room for the digits of one and the byte after them.
#[derive(Clone, Copy)]
struct Group;

impl Group {
    const SIZE: usize = 8;

    const ROOM: usize = 41;
}

// Puts a number's digits and a byte before the bytes from `at`, and answers where they begin.
fn put_before<T: Integer>(text: &mut [u8], at: usize, x: T, end: u8) -> usize
    requires { (41 ≤ at) × (at ≤ length text.old) }
    ensures begins { (result < at) × (at ≤ result + 41) }
    ensures length { length text.new ≡ length text.old }
{
    let before = at - 1;
    text[before] = end;
    match text[..before].last_chunk_mut() {
        Some(digits) => at - Group::ROOM + x.write(digits),
        None => before,
    }
}

// Numbers with a byte after each and another after the last, from the last to the first.
fn put_group<W: Write, T: Integer>(out: &mut W, numbers: &[T], gap: u8, end: u8) -> io::Result<()>
    requires { length numbers.now ≤ 8 }
{
    let mut text = [0u8; Group::SIZE * Group::ROOM];
    let mut at = text.len();
    let mut after = end;
    let mut left = numbers.len();
    while left > 0 {
        left -= 1;
        at = put_before(&mut text, at, numbers[left], after);
        after = gap;
    }
    out.write_all(&text[at..])
}

// What stands after a number of a line, of which so many are left: a gap, or the line's end.
fn after(left: usize, gap: u8) -> u8 {
    if left == 0 { b'\n' } else { gap }
}

// A line of numbers, with a byte between them.
pub fn put_line_bytes<W: Write, T: Integer>(out: &mut W, numbers: &[T], gap: u8) -> io::Result<()> {
    let mut left = numbers.len();
    for group in numbers.chunks(Group::SIZE) {
        left = left.saturating_sub(group.len());
        put_group(out, group, gap, after(left, gap))?;
    }
    Ok(())
}

// What stands after number i of a line of n: a gap, or the line's end.
fn gap_after(i: usize, n: usize, gap: char) -> char
    requires { i < n }
{
    if n - i == 1 { '\n' } else { gap }
}

// A line of numbers, or of whatever can be displayed, with any letter between them.
pub fn put_line<W: Write, T: Display>(out: &mut W, numbers: &[T], gap: char) -> io::Result<()> {
    for (i, x) in numbers.iter().enumerate() {
        write!(out, "{x}{}", gap_after(i, numbers.len(), gap))?;
    }
    Ok(())
}

// How rows are written: what each line begins with, and what stands between its numbers.
#[derive(Clone, Copy)]
pub struct ByteStyle<'a> {
    pub begin: &'a [u8],
    pub gap: u8,
}

// The same with a text and a letter.
#[derive(Clone, Copy)]
pub struct Style<'a> {
    pub begin: &'a str,
    pub gap: char,
}

// A row with all its numbers, on a line. The width is said for the contract: it keeps a short rest of the numbers from being a row.
fn put_row<W: Write>(out: &mut W, row: &[u64], width: usize, style: ByteStyle) -> io::Result<()>
    requires { length row.now ≡ max width 1 }
{
    out.write_all(style.begin)?;
    put_line_bytes(out, row, style.gap)
}

// The same with a text and a letter.
fn put_text_row<W: Write>(out: &mut W, row: &[u64], width: usize, style: Style) -> io::Result<()>
    requires { length row.now ≡ max width 1 }
{
    write!(out, "{}", style.begin)?;
    put_line(out, row, style.gap)
}

// The first rows of so many numbers each, at least one, as far as they are there, each on a line of its own. The width is a number and no const parameter: as_chunks
// asks for one above 0, and this answers any, 0 as 1.
pub fn put_rows_bytes<W: Write>(
    out: &mut W,
    numbers: &[u64],
    width: usize,
    count: u64,
    style: ByteStyle,
) -> io::Result<()> {
    for row in numbers.chunks_exact(width.max(1)).take(count as usize) {
        put_row(out, row, width, style)?;
    }
    Ok(())
}

// The same with a text and a letter.
pub fn put_rows<W: Write>(
    out: &mut W,
    numbers: &[u64],
    width: usize,
    count: u64,
    style: Style,
) -> io::Result<()> {
    let rows = numbers.chunks_exact(width.max(1));
    for row in rows.take(count as usize) {
        put_text_row(out, row, width, style)?;
    }
    Ok(())
}

// The first entries of a listing.
pub fn put_entries_bytes<W: Write>(
    out: &mut W,
    listing: &[u64],
    count: u64,
    style: ByteStyle,
) -> io::Result<()> {
    put_rows_bytes(out, listing, listing::Limits::ENTRY, count, style)
}

// The same with a text and a letter.
pub fn put_entries<W: Write>(
    out: &mut W,
    listing: &[u64],
    count: u64,
    style: Style,
) -> io::Result<()> {
    put_rows(out, listing, listing::Limits::ENTRY, count, style)
}

#[cfg(test)]
mod tests;
