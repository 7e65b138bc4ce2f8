#![tactic(auto)]

// Runs a script of calls from standard input, or from each file that an argument names, after a line `== NAME`. Each script has a fresh engine.
//
// A script has lines `open N` and `steady N`, which a text of N bytes and an LF follow, `list`, `step D`, `report`, `save NAME`, `return NAME`, `forget NAME`, `independent I J`, `state`, `wait W`, `time D`,
// `clock`, `seek D NAME`, `begin D NAME`, `carry N`, `word U` and `run N`. N, D, I, J, U and W are decimal digits alone, below 2^64, W below 65,536, leading zeros or not, each after a single blank; NAME is all bytes after the blank, perhaps none. Every line
// ends with an LF, also the last. Lines are counted from 1 by their LFs, those within texts too.
//
// Each call prints `number place branch count total chosen`, then each entry of the listing on a line of its own, after two blanks, and a report that is accepted
// its 64 numbers on one such line; `state` prints the state's numbers. `independent` calls nothing: it prints 1 where the entries I and J, counted from 0, of the last listing that
// was filled are independent, and else 0, also where there is no such entry or listing.
// `wait W` prints nothing: it puts a waiting draw after those so far. `time D` is a timed step with these, up to 4,096 of them, after which there are none; `clock` prints the clock's ticks and draws.
// `word U` prints nothing: it puts a word after those so far. `run N` is a run of at most N steps with these words and waiting draws, up to 4,096 of each, after which there are none, and room for 1,024 events:
// it prints its number, the steps, words and waiting draws that it used, the count and the total of its last listing, then the eight numbers of each event on a line of its own, after two blanks.
// `seek D NAME`, D being one digit, searches to the depth D for the wait NAME, and prints its number, the run's length and eight entry numbers.
// `begin D NAME` begins such a search, and is a call as `save NAME` is. `carry N` carries it on by N states, and prints its number, the count, 1 if it ended and else 0, the run's length and eight entry numbers.
// A line of another form prints `bad,LINE` and ends the script; so does `open N` or `steady N` whose text is cut short or has no LF after it. Nothing is called for it.
// The argument `rows` names no file: it runs the rows of rows.rt, of right lengths and of wrong ones, by script::run, all but a last one by one call, and prints how many were run, the answers, the first numbers of the outputs and the clock.
// A text is lent to open up to 16,385 bytes, a name up to 20: as many are too many already, so the bytes after them change no answer.
mod rows;

use arrayvec::ArrayVec;
use lines::line::Line;
use lines::script::{Broken, Part, Pushed, Script};
use script::Row;
use std::fs::File;
use std::io::{BufWriter, Read, Write};
use std::rt::Files;
use std::{env, io};
use store::Engine;

#[derive(Clone, Copy)]
struct Limits;

impl Limits {
    // Bytes of a text that are kept: one more than a text may have.
    const TEXT: usize = token::Limits::READ;

    // Bytes of one read.
    const READ: usize = 65536;

    // Bytes of a line before its name: `save `, `return `, `forget ` or `seek D `, and `begin D `.
    const SAVE: u64 = 5;

    const RETURN: u64 = 7;

    const BEGIN: u64 = 8;

    // Waiting draws and words that are kept.
    const DRAWS: usize = 4096;

    const WORDS: usize = 4096;

    // Numbers of an event.
    const EVENT: usize = 1 + listing::Limits::ENTRY;

    // Numbers of a run that a search found: its length and eight entry numbers; and where they stand in an answer.
    const FOUND: usize = 9;

    const FOUND_AT: usize = 6;
}

type Text = [u8; Limits::TEXT];

type Listing = [u64; Engine::LISTING];

// A call, with the size of its text; or how many bytes of its line are kept, a name the last of them; or a draw, a limit or a number of states. Not a Line: five lines are no call and have no row.
#[derive(Clone, Copy)]
enum Call {
    Open(u64),
    Steady(u64),
    List,
    Step(u64),
    Timed(u64),
    Report,
    Save(u64),
    Return(u64),
    Forget(u64),
    // A depth, and how many bytes of the line are kept.
    Search(u64, u64),
    Begin(u64, u64),
    Carry(u64),
    Run(u64),
}

// A row that lends a name, which stands after so many bytes of a line of which so many are kept, and no listing.
fn with_name(kind: u64, word: u64, kept: u64, row: Row) -> Row {
    Row {
        kind,
        text: word as usize,
        size: kept.saturating_sub(word) as usize,
        output: 0,
        ..row
    }
}

// A row that lends a text of so many bytes, as far as they are kept.
fn with_text(kind: u64, size: u64, row: Row) -> Row {
    Row {
        kind,
        size: size.min(Limits::TEXT as u64) as usize,
        ..row
    }
}

impl Call {
    // The row of a script that makes this call.
    fn row(self, lent: Lent) -> Row {
        let row = lent.listing();
        match self {
            Call::Open(size) => with_text(Row::OPEN, size, row),
            Call::Steady(size) => with_text(Row::STEADY, size, row),
            Call::List => row,
            Call::Step(number) => Row {
                kind: Row::STEP,
                number,
                ..row
            },
            Call::Timed(number) => Row {
                kind: Row::TIMED,
                number,
                ..row
            },
            Call::Report => Row {
                kind: Row::REPORT,
                output: Engine::REPORT,
                ..row
            },
            Call::Save(kept) => with_name(Row::SAVE, Limits::SAVE, kept, row),
            Call::Return(kept) => with_name(Row::RETURN, Limits::RETURN, kept, row),
            Call::Forget(kept) => with_name(Row::FORGET, Limits::RETURN, kept, row),
            Call::Search(number, kept) => Row {
                number,
                ..with_name(Row::SEARCH, Limits::RETURN, kept, row)
            },
            Call::Begin(number, kept) => Row {
                number,
                ..with_name(Row::BEGIN, Limits::BEGIN, kept, row)
            },
            Call::Carry(number) => Row {
                kind: Row::CARRY,
                number,
                output: 0,
                ..row
            },
            Call::Run(number) => Row {
                kind: Row::RUN,
                number,
                output: Row::OUTPUT,
                ..row
            },
        }
    }
}

// What a call may read: the bytes of texts and names, waiting draws and words.
#[derive(Clone, Copy)]
struct Lent<'a> {
    text: &'a Text,
    waiting: &'a [u16],
    words: &'a [u64],
}

impl<'a> Lent<'a> {
    // A text or a name alone.
    fn bytes(text: &'a Text) -> Self {
        Lent {
            text,
            waiting: &[],
            words: &[],
        }
    }

    // The row of a list that is lent all this.
    fn listing(self) -> Row {
        Row {
            kind: Row::LIST,
            text: 0,
            size: 0,
            from: 0,
            count: self.waiting.len(),
            number: 0,
            output: Engine::LISTING,
            model: Engine::MODEL,
            state: Engine::STATE,
            saves: Engine::SAVES,
            search: Engine::SEARCH,
            start: 0,
            words: self.words.len(),
        }
    }
}

// A row as script::run reads it. No From: neither a Row nor an array is of this crate.
fn numbers_of(row: Row) -> [u64; Row::WIDTH] {
    [
        row.kind,
        row.text as u64,
        row.size as u64,
        row.from as u64,
        row.count as u64,
        row.number,
        row.output as u64,
        row.model as u64,
        row.state as u64,
        row.saves as u64,
        row.search as u64,
        row.start as u64,
        row.words as u64,
    ]
}

// What a call answers: the six numbers of every call, what a search found, and how much a run used, or whether a search has ended.
#[derive(Clone, Copy)]
struct Answer {
    number: u64,
    place: u64,
    branch: u64,
    count: u64,
    total: u64,
    chosen: u64,
    found: [u64; Limits::FOUND],
    steps: u64,
    words: u64,
    waiting: u64,
}

// An answer as script::run wrote it.
impl From<[u64; Row::ANSWER]> for Answer {
    fn from(numbers: [u64; Row::ANSWER]) -> Self {
        let [
            number,
            place,
            branch,
            count,
            total,
            chosen,
            ..,
            steps,
            words,
            waiting,
        ] = numbers;
        let mut found = [0u64; Limits::FOUND];
        found.copy_from_slice(&numbers[Limits::FOUND_AT..][..Limits::FOUND]);
        Answer {
            number,
            place,
            branch,
            count,
            total,
            chosen,
            found,
            steps,
            words,
            waiting,
        }
    }
}

impl Answer {
    fn accepted(&self) -> bool {
        self.number == 0
    }

    // Whether a search that was carried on has ended, which stands where a run's steps do.
    fn ended(&self) -> u64 {
        self.steps
    }

    // The six numbers that every call answers.
    fn put(&self, out: &mut impl Write) -> io::Result<()> {
        let shown = [
            self.number,
            self.place,
            self.branch,
            self.count,
            self.total,
            self.chosen,
        ];
        output::put_line_bytes(out, &shown, b' ')
    }

    // These, and as many entries as are counted: none where the listing isn't filled.
    fn put_listed(&self, out: &mut impl Write, listing: &Listing) -> io::Result<()> {
        self.put(out)?;
        output::put_entries_bytes(
            out,
            listing,
            self.count,
            output::ByteStyle {
                begin: b"  ",
                gap: b' ',
            },
        )
    }
}

// An engine's buffers.
#[derive(Drop)]
pub struct Machine {
    model: [u8; Engine::MODEL],
    state: [i64; Engine::STATE],
    saves: [i64; Engine::SAVES],
    search: [i64; Engine::SEARCH],
    clock: [u64; Row::CLOCK],
}

impl Machine {
    // A fresh engine's.
    fn new() -> Self {
        Machine {
            model: [0; Engine::MODEL],
            state: [0; Engine::STATE],
            saves: [0; Engine::SAVES],
            search: [0; Engine::SEARCH],
            clock: [0; Row::CLOCK],
        }
    }

    // Makes one call by a row of a script.
    fn call(&mut self, call: Call, lent: Lent, outputs: &mut [u64]) -> Answer {
        let row = numbers_of(call.row(lent));
        let Lent {
            text,
            waiting,
            words,
        } = lent;
        let mut answer = [0u64; Row::ANSWER];
        script::run(
            &row,
            text,
            waiting,
            words,
            &mut self.model,
            &mut self.state,
            &mut self.saves,
            &mut self.search,
            &mut self.clock,
            outputs,
            &mut answer,
        );
        Answer::from(answer)
    }
}

// A script at work: where it stands, its engine, the bytes of the line or text that it is in, the waiting draws and words so far, and the last listing.
#[derive(Drop)]
struct Bench {
    script: Script,
    machine: Machine,
    text: Text,
    waiting: ArrayVec<u16, { Limits::DRAWS }>,
    words: ArrayVec<u64, { Limits::WORDS }>,
    listing: Listing,
}

// Where the next byte of a line or a text is kept.
fn kept_at(part: Part) -> u64 {
    match part {
        Part::InLine(reading) => reading.kept,
        Part::InText(text) => text.taken,
    }
}

// Whether the entries i and j of a listing are independent. Numbers that aren't there are no entry's.
fn judge(listing: &Listing, i: u64, j: u64) -> bool {
    let entry = |k: u64| listing.chunks_exact(listing::Limits::ENTRY).nth(k as usize);
    match (entry(i), entry(j)) {
        (Some(a), Some(b)) => independence::independent(a, b),
        _ => false,
    }
}

// An item that is wrong or cut short.
fn put_broken(out: &mut impl Write, broken: Broken) -> io::Result<()> {
    writeln!(out, "bad,{}", broken.from)
}

impl Bench {
    fn new() -> Self {
        Bench {
            script: Script::new(),
            machine: Machine::new(),
            text: [0; Limits::TEXT],
            waiting: ArrayVec::new(),
            words: ArrayVec::new(),
            listing: [0; Engine::LISTING],
        }
    }

    // Keeps a byte of a line or a text, if there is room.
    fn keep(&mut self, b: u8) {
        if let Some(kept) = self.text.get_mut(kept_at(self.script.part) as usize) {
            *kept = b;
        }
    }

    // A call's answer and its entries.
    fn put_listed(&mut self, out: &mut impl Write, call: Call) -> io::Result<()> {
        let lent = Lent::bytes(&self.text);
        let answer = self.machine.call(call, lent, &mut self.listing);
        answer.put_listed(out, &self.listing)
    }

    // A timed step with the waiting draws so far.
    fn put_timed(&mut self, out: &mut impl Write, draw: u64) -> io::Result<()> {
        let lent = Lent {
            waiting: self.waiting.as_slice(),
            ..Lent::bytes(&self.text)
        };
        let answer = self
            .machine
            .call(Call::Timed(draw), lent, &mut self.listing);
        self.waiting.clear();
        answer.put_listed(out, &self.listing)
    }

    // A report's answer, and its numbers where it is accepted. The last listing stays.
    fn put_report(&mut self, out: &mut impl Write) -> io::Result<()> {
        let mut report = [0u64; Engine::REPORT];
        let lent = Lent::bytes(&self.text);
        let answer = self.machine.call(Call::Report, lent, &mut report);
        answer.put(out)?;
        if !answer.accepted() {
            return Ok(());
        }
        write!(out, "  ")?;
        output::put_line_bytes(out, &report, b' ')
    }

    // Makes a call that lists nothing. The last listing stays.
    fn call_named(&mut self, call: Call) -> Answer {
        let lent = Lent::bytes(&self.text);
        self.machine.call(call, lent, &mut self.listing)
    }

    // A search: its number, the run's length and eight entry numbers.
    fn put_search(&mut self, out: &mut impl Write, depth: u64, kept: u64) -> io::Result<()> {
        let answer = self.call_named(Call::Search(depth, kept));
        output::put_number(out, answer.number, b' ')?;
        output::put_line_bytes(out, &answer.found, b' ')
    }

    // A search that is carried on: its number, the count, whether it ended, the run's length and eight entry numbers.
    fn put_carried(&mut self, out: &mut impl Write, number: u64) -> io::Result<()> {
        let answer = self.call_named(Call::Carry(number));
        for x in [answer.number, answer.count, answer.ended()] {
            output::put_number(out, x, b' ')?;
        }
        output::put_line_bytes(out, &answer.found, b' ')
    }

    // A run with the waiting draws and words so far: what it answers, and the events that it wrote. The last listing stays.
    fn put_run(&mut self, out: &mut impl Write, limit: u64) -> io::Result<()> {
        let mut events = [0u64; Row::OUTPUT];
        let lent = Lent {
            text: &self.text,
            waiting: self.waiting.as_slice(),
            words: self.words.as_slice(),
        };
        let Answer {
            number,
            steps,
            words,
            waiting,
            count,
            total,
            ..
        } = self.machine.call(Call::Run(limit), lent, &mut events);
        self.waiting.clear();
        self.words.clear();
        let shown = [number, steps, words, waiting, count, total];
        output::put_line_bytes(out, &shown, b' ')?;
        output::put_rows_bytes(
            out,
            &events,
            Limits::EVENT,
            steps,
            output::ByteStyle {
                begin: b"  ",
                gap: b' ',
            },
        )
    }

    // Keeps a waiting draw, if there is room. A line gives none of more than 16 bits.
    fn keep_draw(&mut self, draw: u64) {
        let Ok(draw) = u16::try_from(draw) else {
            return;
        };
        let _ = self.waiting.try_push(draw);
    }

    // Keeps a word, if there is room.
    fn keep_word(&mut self, word: u64) {
        let _ = self.words.try_push(word);
    }

    // Does what an item of the script asks for.
    fn ask(&mut self, out: &mut impl Write, asked: Line) -> io::Result<()> {
        match asked {
            Line::Open(size) => self.put_listed(out, Call::Open(size)),
            Line::Steady(size) => self.put_listed(out, Call::Steady(size)),
            Line::List => self.put_listed(out, Call::List),
            Line::Step(draw) => self.put_listed(out, Call::Step(draw)),
            Line::Time(draw) => self.put_timed(out, draw),
            Line::Run(limit) => self.put_run(out, limit),
            Line::Report => self.put_report(out),
            Line::Save(kept) => self.call_named(Call::Save(kept)).put(out),
            Line::Return(kept) => self.call_named(Call::Return(kept)).put(out),
            Line::Forget(kept) => self.call_named(Call::Forget(kept)).put(out),
            Line::Search(depth, kept) => self.put_search(out, depth, kept),
            Line::Begin(depth, kept) => self.call_named(Call::Begin(depth, kept)).put(out),
            Line::Carry(number) => self.put_carried(out, number),
            Line::State => output::put_line_bytes(out, &self.machine.state, b' '),
            Line::Clock => output::put_line_bytes(out, &self.machine.clock, b' '),
            Line::Independent(i, j) => {
                output::put_number(out, u64::from(judge(&self.listing, i, j)), b'\n')
            }
            Line::Wait(draw) => {
                self.keep_draw(draw);
                Ok(())
            }
            Line::Word(word) => {
                self.keep_word(word);
                Ok(())
            }
        }
    }

    // Takes bytes up to the one that ends the script, and answers whether one does.
    fn take_all(&mut self, out: &mut impl Write, bytes: &[u8]) -> io::Result<bool> {
        for &b in bytes {
            self.keep(b);
            match self.script.push(b) {
                Ok(Pushed::Goes) => (),
                Ok(Pushed::Asks(asked)) => self.ask(out, asked)?,
                Err(broken) => {
                    put_broken(out, broken)?;
                    return Ok(true);
                }
            }
        }
        Ok(false)
    }

    // The script has no more bytes.
    fn end(&self, out: &mut impl Write) -> io::Result<()> {
        match self.script.at_end() {
            Ok(()) => Ok(()),
            Err(broken) => put_broken(out, broken),
        }
    }
}

// Runs a script on a fresh engine. A proved loop has to end, so it counts its reads up to a number that no script reaches.
fn run_script(out: &mut impl Write, from: &mut impl Read) -> io::Result<()> {
    let mut bench = Bench::new();
    let mut space = [0u8; Limits::READ];
    for _ in 0..u64::MAX {
        let n = from.read(&mut space)?;
        if n == 0 {
            bench.end(out)?;
            return out.flush();
        }
        let over = bench.take_all(out, &space[..n])?;
        out.flush()?;
        if over {
            return Ok(());
        }
    }
    Ok(())
}

fn run_file(
    rt: &(impl Print + Eprint + Files),
    out: &mut impl Write,
    name: &str,
) -> io::Result<()> {
    writeln!(out, "== {name}")?;
    if name == "rows" {
        return rows::run(out);
    }
    out.flush()?;
    match File::open(rt, name) {
        Ok(mut file) => run_script(out, &mut file),
        Err(e) => eprintln!(rt; "{name}: {e}"),
    }
}

fn main(rt: HostRuntime) -> io::Result<()> {
    let mut out = BufWriter::with_capacity(rt.alloc(), output::Limits::BUFFER, io::writer(&rt))?;
    let names = env::args(&rt)?;
    if names.len() < 2 {
        return run_script(&mut out, &mut rt.stdin());
    }
    for name in names.skip(1) {
        run_file(&rt, &mut out, name.as_str())?;
    }
    out.flush()
}
