#![tactic(auto)]

// The bench sheet: reads a model from standard input and prints its first listing, or `refused`, the refusal's number and its place, and for 12 also the branch.
use clock::Clock;
use engine::Answer;
use std::io;
use std::io::{BufWriter, Write};
use store::Engine;

// The refusal that carries a branch, by its number: engine's answer is lent to C as numbers, and has no enum.
const NO_VALUE: u64 = 12;

fn put_refused(out: &mut impl Write, answer: Answer) -> io::Result<()> {
    write!(out, "refused,{},{}", answer.number, answer.place)?;
    if answer.number == NO_VALUE {
        write!(out, ",{}", answer.branch)?;
    }
    writeln!(out)
}

fn put_sheet(out: &mut impl Write, answer: Answer, listing: &[u64]) -> io::Result<()> {
    writeln!(out, "kind,place,branch,partner,pbranch,pair,weight")?;
    output::put_entries_bytes(
        out,
        listing,
        answer.count,
        output::ByteStyle {
            begin: b"",
            gap: b',',
        },
    )?;
    writeln!(out, "total,{}", answer.total)
}

// An answer that is no refusal, or one that is.
fn accepted(answer: Answer) -> Result<Answer, Answer> {
    if answer.number == 0 {
        Ok(answer)
    } else {
        Err(answer)
    }
}

// Opens a text and lists what can happen at its start.
fn list(text: &[u8], listing: &mut [u64; Engine::LISTING]) -> Result<Answer, Answer> {
    let mut model = [0u8; Engine::MODEL];
    let mut state = [0i64; Engine::STATE];
    let mut saves = [0i64; Engine::SAVES];
    let mut search = [0i64; Engine::SEARCH];
    let opened = engine::open(
        text,
        &mut model,
        &mut state,
        &mut saves,
        &mut search,
        Clock::fresh(),
    );
    accepted(opened.answer)?;
    accepted(engine::list(&model, &state, listing))
}

// A text's first listing, or its refusal.
fn put_model(out: &mut impl Write, text: &[u8]) -> io::Result<()> {
    let mut listing = [0u64; Engine::LISTING];
    match list(text, &mut listing) {
        Ok(answer) => put_sheet(out, answer, &listing),
        Err(refusal) => put_refused(out, refusal),
    }
}

fn main(rt: HostRuntime) -> io::Result<()> {
    let mut text = [0u8; token::Limits::READ];
    let n = reading::read_full(&mut rt.stdin(), &mut text)?;
    let mut out = BufWriter::with_capacity(rt.alloc(), output::Limits::BUFFER, io::writer(&rt))?;
    put_model(&mut out, &text[..n])?;
    out.flush()
}
