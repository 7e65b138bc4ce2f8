// What stands after the first five bytes of `independent I J`, read byte by byte, however long it is.
ghost use Rattle.std.specs.Prelude.{◌≡◌};
ghost use Rattle.lines.specs.Two.{word_next, digit_next, letter_next, paired};

use crate::bytes;
use crate::bytes::ByteByByte;
use crate::line::Line;

// So many bytes of the word `endent `; the word and a number; a blank after them; a second number; or something else, as in Rest not an Option.
#[derive(Clone, Copy)]
pub enum Two {
    Word(usize),
    First(u64),
    Gap(u64),
    Both(u64, u64),
    Other,
}

#[derive(Clone, Copy)]
pub struct Word;

impl Word {
    // Bytes of the word, the blank after it included.
    pub const LENGTH: u64 = 7;
}

const WORD: [u8; Word::LENGTH as usize] = *b"endent ";

// The word with one more byte.
fn in_word(n: usize, b: u8) -> Two
    ensures { result ≡ word_next n b }
{
    if n < WORD.len() && WORD[n] == b {
        return Two::Word(n + 1);
    }
    Two::Other
}

// The first digit, after the whole word.
fn first_digit(n: usize, d: u64) -> Two
    ensures { result ≡ digit_next (Two.Word n) d }
{
    if n == WORD.len() {
        return Two::First(d);
    }
    Two::Other
}

// A byte that is no digit, after a first number.
fn after_first(v: u64, b: u8) -> Two
    ensures { result ≡ letter_next (Two.First v) b }
{
    if b == b' ' {
        return Two::Gap(v);
    }
    Two::Other
}

impl ByteByByte for Two {
    ghost digit_next = { digit_next };

    ghost letter_next = { letter_next };

    fn with_digit(self, d: u64) -> Self {
        match self {
            Two::Word(n) => first_digit(n, d),
            Two::First(v) => bytes::grow(v, d).map_or(Two::Other, Two::First),
            Two::Gap(v) => Two::Both(v, d),
            // By a match: a closure for `map_or` would capture v, and too little is told of what it gives.
            Two::Both(v, w) => match bytes::grow(w, d) {
                Some(w) => Two::Both(v, w),
                None => Two::Other,
            },
            Two::Other => Two::Other,
        }
    }

    fn with_letter(self, b: u8) -> Self {
        match self {
            Two::Word(n) => in_word(n, b),
            Two::First(v) => after_first(v, b),
            _ => Two::Other,
        }
    }
}

// What the line says, if it is whole.
pub fn says(two: Two) -> Option<Line>
    ensures { result ≡ paired two }
{
    match two {
        Two::Both(v, w) => Some(Line::Independent(v, w)),
        _ => None,
    }
}
