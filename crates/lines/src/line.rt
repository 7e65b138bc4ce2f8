// A line of a script, read byte by byte, however long it is.
ghost use Rattle.std.specs.Prelude.{◌≡◌, ℕ, cond, nat_lt, List, [], ◌∷◌, ◌++◌, None};
ghost use Rattle.std.specs.Prelude.{◌≤◌};
ghost use Rattle.lines.specs.Line.{line_of, digit_next, letter_next, rest_next, number_in, small, sought_by, begun_by, bytes_next, three_bytes, kept_next, empty, Reads};

use crate::bytes;
use crate::bytes::ByteByByte;
use crate::two::Two;

// What a line says.
#[derive(Clone, Copy)]
pub enum Line {
    Open(u64),
    Steady(u64),
    List,
    Step(u64),
    State,
    Report,
    // How many bytes of the line are kept, the word's own among them: the others are the name.
    Save(u64),
    Return(u64),
    Forget(u64),
    Time(u64),
    Wait(u64),
    Clock,
    Independent(u64, u64),
    // A depth, and how many bytes of the line are kept.
    Search(u64, u64),
    Word(u64),
    Run(u64),
    // A depth, and how many bytes of the line are kept.
    Begin(u64, u64),
    Carry(u64),
}

// What stands after a line's first bytes, which are four to seven (Reading); `T` is the last byte of `report`.
// `Other`, not an Option of the rest: a line is read on to its end whatever stands in it, so that each byte would take the Option apart and make it again.
#[derive(Clone, Copy)]
pub enum Rest {
    Nothing,
    Number(u64),
    T,
    Other,
}

impl Rest {
    // The number, if digits alone stand there and it fits.
    fn number(self) -> Option<u64>
        ensures { result ≡ number_in self }
    {
        match self {
            Rest::Number(n) => Some(n),
            _ => None,
        }
    }
}

// A line so far: its first five bytes, as digits of base 256 after a 1, what stands after the first four, what stands after all five, the first two bytes of that, likewise, what stands after the first of them and after both, the first three bytes, how many bytes of the line are kept, and what stands after the first five as a word and two numbers.
#[derive(Clone, Copy)]
pub struct Reading {
    pub head: u64,
    pub early: Rest,
    pub rest: Rest,
    pub after: u64,
    pub mid: Rest,
    pub late: Rest,
    pub further: u64,
    pub kept: u64,
    pub two: Two,
}

// Numbers, not byte strings: of a match on the bytes the last arm is reached by 55 ways, and for each the proof would have to tell fifteen words apart from them; of the numbers it is reached by one.
// Written out, since the value of a constant may not call `from_be_bytes`.
#[derive(Clone, Copy)]
pub struct Head;

impl Head {
    // The head of no byte, and the least one of five.
    pub const EMPTY: u64 = 1;

    pub const FULL: u64 = 0x100_0000_0000;

    // The most bytes of a line that are kept: a word and a name that is too long already.
    pub const KEPT: u64 = 25;

    // The heads of `list`, `state`, `report`, `open `, `step `, `save `, `return `, `forget `, `time `, `wait `, `clock`, `independent `, `steady `, `seek `, `word `, `begin ` and `carry `, and what follows those of `return `, `forget ` and `steady `.
    pub const LIST: u64 = 0x1_6c69_7374;

    pub const STATE: u64 = 0x173_7461_7465;

    pub const REPORT: u64 = 0x172_6570_6f72;

    pub const OPEN: u64 = 0x16f_7065_6e20;

    pub const STEP: u64 = 0x173_7465_7020;

    pub const INDEPENDENT: u64 = 0x169_6e64_6570;

    pub const SAVE: u64 = 0x173_6176_6520;

    pub const RETURN: u64 = 0x172_6574_7572;

    pub const FORGET: u64 = 0x166_6f72_6765;

    pub const TIME: u64 = 0x174_696d_6520;

    pub const WAIT: u64 = 0x177_6169_7420;

    pub const CLOCK: u64 = 0x163_6c6f_636b;

    pub const STEADY: u64 = 0x173_7465_6164;

    pub const SEEK: u64 = 0x173_6565_6b20;

    pub const WORD: u64 = 0x177_6f72_6420;

    pub const BEGIN: u64 = 0x162_6567_696e;

    pub const CARRY: u64 = 0x163_6172_7279;

    // The least head of four bytes, and that of `run `.
    pub const FOUR: u64 = 0x1_0000_0000;

    pub const RUN: u64 = 0x1_7275_6e20;

    // A waiting draw is below this.
    pub const DRAWS: u64 = 0x1_0000;

    // The least numbers of one byte, of two and of three.
    pub const ONE: u64 = 0x100;

    pub const TWO: u64 = 0x1_0000;

    pub const THREE: u64 = 0x100_0000;

    pub const RETURN_END: u64 = 0x1_6e20;

    pub const FORGET_END: u64 = 0x1_7420;

    pub const STEADY_END: u64 = 0x1_7920;

    // A digit after a 1: from `0` to `9`.
    pub const ZERO: u64 = 0x130;

    pub const NINE: u64 = 0x139;

    // The same after a blank, and a blank after a 1.
    pub const PARTED_ZERO: u64 = 0x1_2030;

    pub const PARTED_NINE: u64 = 0x1_2039;

    pub const PARTED: u64 = 0x120;

    pub const BLANK: u64 = 0x20;
}

impl ByteByByte for Rest {
    ghost digit_next = { digit_next };

    ghost letter_next = { letter_next };

    fn with_digit(self, d: u64) -> Self {
        match self {
            Rest::Nothing => Rest::Number(d),
            Rest::Number(v) => bytes::grow(v, d).map_or(Rest::Other, Rest::Number),
            _ => Rest::Other,
        }
    }

    fn with_letter(self, b: u8) -> Self {
        match self {
            Rest::Nothing if b == b't' => Rest::T,
            _ => Rest::Other,
        }
    }
}

// A line with a waiting draw, if it is one.
fn draw_line(n: u64) -> Option<Line>
    ensures { result ≡ small n }
{
    (n < Head::DRAWS).then_some(Line::Wait(n))
}

// The number of a rest, if the word before it is right to its end.
fn number_if(right: bool, rest: Rest) -> Option<u64>
    ensures { result ≡ cond right (number_in rest) None }
{
    if right { rest.number() } else { None }
}

// A digit and a blank after the first five bytes.
fn seek_line(after: u64, kept: u64) -> Option<Line>
    ensures { result ≡ sought_by after kept }
{
    if after % 256 != Head::BLANK {
        return None;
    }
    let digit = after / 256;
    match digit {
        Head::ZERO..=Head::NINE => Some(Line::Search(digit - Head::ZERO, kept)),
        _ => None,
    }
}

// A blank, a digit and a blank after the first five bytes.
fn begin_line(further: u64, kept: u64) -> Option<Line>
    ensures { result ≡ begun_by further kept }
{
    if further % 256 != Head::BLANK {
        return None;
    }
    let digit = further / 256;
    match digit {
        Head::PARTED_ZERO..=Head::PARTED_NINE => {
            Some(Line::Begin(digit - Head::PARTED_ZERO, kept))
        }
        _ => None,
    }
}

// Bytes with one more byte, up to the number of them whose least number is `full`.
fn next_bytes(read: u64, full: u64, b: u8) -> u64
    requires { full ≤ three_bytes }
    ensures { result ≡ bytes_next full read b }
{
    if read < full {
        return read * 256 + u64::from(b);
    }
    read
}

// A rest with one more byte, once the bytes before it are there: `read`, which has those so far after a 1, is then `least` or more.
fn next_rest(read: u64, least: u64, rest: Rest, b: u8) -> Rest
    ensures { result ≡ cond (nat_lt read least) rest (rest_next rest b) }
{
    if read < least {
        return rest;
    }
    bytes::with_byte(rest, b)
}

// How many bytes are kept with one more.
fn next_kept(kept: u64) -> u64
    ensures { result ≡ kept_next kept }
{
    if kept < Head::KEPT { kept + 1 } else { kept }
}

impl Reading {
    pub fn new() -> Self
        ensures { result ≡ empty }
    {
        Reading {
            head: Head::EMPTY,
            early: Rest::Nothing,
            rest: Rest::Nothing,
            after: Head::EMPTY,
            mid: Rest::Nothing,
            late: Rest::Nothing,
            further: Head::EMPTY,
            kept: 0,
            two: Two::Word(0),
        }
    }

    // The line goes on with one more byte. Each number is grown from those before the byte: `early` before `head`, and `mid` and `late` before `after`.
    pub fn push(&mut self, b: u8)
        ensures { (s : List ℕ) → Reads s self.old → Reads (s ++ (b ∷ [])) self.new }
    {
        self.kept = next_kept(self.kept);
        self.early = next_rest(self.head, Head::FOUR, self.early, b);
        if self.head < Head::FULL {
            self.head = self.head * 256 + u64::from(b);
            return;
        }
        self.rest = bytes::with_byte(self.rest, b);
        self.mid = next_rest(self.after, Head::ONE, self.mid, b);
        self.late = next_rest(self.after, Head::TWO, self.late, b);
        self.after = next_bytes(self.after, Head::TWO, b);
        self.further = next_bytes(self.further, Head::THREE, b);
        self.two = bytes::with_byte(self.two, b);
    }

    // The same of a line by value.
    pub fn with(self, b: u8) -> Self
        ensures { (s : List ℕ) → Reads s self → Reads (s ++ (b ∷ [])) result }
    {
        let mut reading = self;
        reading.push(b);
        reading
    }

    // What the whole line says, if it has a form.
    pub fn says(self) -> Option<Line>
        ensures { (s : List ℕ) → Reads s self → result ≡ line_of s }
    {
        let Reading {
            head,
            early,
            rest,
            after,
            mid,
            late,
            further,
            kept,
            two,
        } = self;
        match head {
            Head::LIST => Some(Line::List),
            Head::STATE => matches!(rest, Rest::Nothing).then_some(Line::State),
            Head::REPORT => matches!(rest, Rest::T).then_some(Line::Report),
            Head::OPEN => rest.number().map(Line::Open),
            Head::STEP => rest.number().map(Line::Step),
            Head::SAVE => Some(Line::Save(kept)),
            Head::RETURN => (after == Head::RETURN_END).then_some(Line::Return(kept)),
            Head::FORGET => (after == Head::FORGET_END).then_some(Line::Forget(kept)),
            Head::TIME => rest.number().map(Line::Time),
            Head::WAIT => rest.number().and_then(draw_line),
            Head::CLOCK => matches!(rest, Rest::Nothing).then_some(Line::Clock),
            Head::INDEPENDENT => crate::two::says(two),
            Head::STEADY => number_if(after == Head::STEADY_END, late).map(Line::Steady),
            Head::SEEK => seek_line(after, kept),
            Head::WORD => rest.number().map(Line::Word),
            Head::BEGIN => begin_line(further, kept),
            Head::CARRY => number_if(after / 256 == Head::PARTED, mid).map(Line::Carry),
            // The head has one byte more than this word.
            _ => number_if(head / 256 == Head::RUN, early).map(Line::Run),
        }
    }
}
