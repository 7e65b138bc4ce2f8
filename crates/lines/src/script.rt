// A script, read byte by byte: lines, and the bytes of texts.
ghost use Rattle.std.specs.Prelude.{◌≡◌, ℕ, List, [], ◌∷◌, ◌++◌, OnErr};
ghost use Rattle.lines.specs.declared.line.Line.{Line as Asked};
ghost use Rattle.lines.specs.Script.{number_after, LineBegun, Stands, Pushes, Takes, Ends, next, fresh, ended};

use crate::line::{Head, Line, Reading};

// The text that a line asks for, of so many bytes, of which so many were taken.
// The size is the number that the line says, which not every line has.
#[derive(Clone, Copy)]
pub struct Text {
    pub asked: Line,
    pub size: u64,
    pub taken: u64,
}

// Where a script stands: in a line, or in a text.
#[derive(Clone, Copy)]
pub enum Part {
    InLine(Reading),
    InText(Text),
}

// The line that goes on, and the line that the present item began with, from 1.
#[derive(Clone, Copy)]
pub struct Script {
    pub line: u64,
    pub from: u64,
    pub part: Part,
}

// What a byte does that is right: the item goes on, or it ends and asks for this.
// Not an Option of a Line: what is promised of the two cases differs, and is said of each by its name.
#[derive(Clone, Copy)]
pub enum Pushed {
    Goes,
    Asks(Line),
}

// The same, with the script after the byte.
// Not a Script with an Option of a Line: what is promised of the two cases differs, and is said of each by its name.
#[derive(Clone, Copy)]
pub enum Taken {
    Goes(Script),
    Asks(Line, Script),
}

// A byte is wrong, or the script ends, within an item that began with this line.
#[derive(Clone, Copy)]
pub struct Broken {
    pub from: u64,
}

fn next_line(line: u64) -> u64
    ensures { result ≡ next line }
{
    line.wrapping_add(1)
}

// The number of the line after a byte of a text.
fn line_after(line: u64, b: u8) -> u64
    ensures { (s : List ℕ) → line ≡ number_after s → result ≡ number_after (s ++ (b ∷ [])) }
{
    if b == b'\n' {
        return next_line(line);
    }
    line
}

// Before an item.
fn begin(line: u64) -> Script
    ensures { result ≡ fresh line }
{
    Script {
        line,
        from: line,
        part: Part::InLine(Reading::new()),
    }
}

fn line_at_end(from: u64, reading: Reading) -> Result<(), Broken>
    ensures { (s : List ℕ) (qs : List Asked) → LineBegun s qs from reading → Ends s qs result }
{
    if reading.head == Head::EMPTY {
        return Ok(());
    }
    Err(Broken { from })
}

impl Script {
    pub fn new() -> Self
        ensures { Stands [] [] result }
    {
        begin(1)
    }

    // The line ends that the item began with.
    fn end_line(&mut self, says: Line) -> Pushed
        ensures { (result, self.new) ≡ ended self.old.from says }
    {
        let next = next_line(self.from);
        match says {
            Line::Open(size) | Line::Steady(size) => {
                self.line = next;
                self.part = Part::InText(Text {
                    asked: says,
                    size,
                    taken: 0,
                });
                Pushed::Goes
            }
            asked => {
                *self = begin(next);
                Pushed::Asks(asked)
            }
        }
    }

    // What the next byte does, which leaves the script as it was if it is wrong.
    pub fn push(&mut self, b: u8) -> Result<Pushed, Broken>
        ensures pushes { (s : List ℕ) (qs : List Asked) → Stands s qs self.old → Pushes s qs b result self.new }
        ensures kept { OnErr result (self.new ≡ self.old) }
    {
        match &mut self.part {
            Part::InLine(reading) => {
                if b != b'\n' {
                    reading.push(b);
                    return Ok(Pushed::Goes);
                }
                match reading.says() {
                    Some(says) => Ok(self.end_line(says)),
                    None => Err(Broken { from: self.from }),
                }
            }
            Part::InText(text) => {
                if text.taken < text.size {
                    text.taken += 1;
                    self.line = line_after(self.line, b);
                    return Ok(Pushed::Goes);
                }
                if b != b'\n' {
                    return Err(Broken { from: self.from });
                }
                let asked = text.asked;
                *self = begin(next_line(self.line));
                Ok(Pushed::Asks(asked))
            }
        }
    }

    // The same of a script by value.
    pub fn take(self, b: u8) -> Result<Taken, Broken>
        ensures { (s : List ℕ) (qs : List Asked) → Stands s qs self → Takes s qs b result }
    {
        let mut script = self;
        match script.push(b) {
            Ok(Pushed::Goes) => Ok(Taken::Goes(script)),
            Ok(Pushed::Asks(asked)) => Ok(Taken::Asks(asked, script)),
            Err(broken) => Err(broken),
        }
    }

    // What the script's end finds.
    pub fn at_end(self) -> Result<(), Broken>
        ensures { (s : List ℕ) (qs : List Asked) → Stands s qs self → Ends s qs result }
    {
        let Script { from, part, .. } = self;
        match part {
            Part::InLine(reading) => line_at_end(from, reading),
            Part::InText(_) => Err(Broken { from }),
        }
    }
}
