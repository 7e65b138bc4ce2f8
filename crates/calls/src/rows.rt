// A list of rows, of right lengths and of wrong ones, run by one call of `script::run` on a fresh engine, then one row more on a clock close to its limit.
use crate::Machine;
use script::Row;
use std::io;
use std::io::Write;

#[derive(Clone, Copy)]
struct Size;

impl Size {
    const ROWS: usize = 27;

    // Numbers of their answers and of their outputs, with room for one part more.
    const ANSWERS: usize = 486;

    const OUTPUTS: usize = 229376;

    // The first numbers of each output are shown.
    const SHOWN: usize = 20;

    // Ticks from which the wait of two draws 9 reaches the limit, at a total of 10,000.
    const LATE: u64 = 9223372036854775807 - 13732;
}

// A text, and the names s and a.
fn texts() -> [u8; 25] {
    *b"A[]={a,0.0001}.A[];A[];sa"
}

// Waiting draws.
fn draws() -> [u16; 10] {
    [9, 9, 0, 0, 0, 0, 9, 9, 9, 9]
}

// Words; at a total of 10,000 the second is turned away.
fn words() -> [u64; 6] {
    [7, 18446744073709551615, 20003, 0, 0, 0]
}

// The rows: list where nothing is open; open with a model one byte short, with a search one number short, and whole; list with a listing one number short, one too long, and whole; a step with a draw of the total, and with a state one number short;
// runs up to their limit, up to their room with seven numbers past it, without room, without words, without waiting draws, with a model one byte short, and with a whole part of the outputs;
// a timed step; a save with saves one number short; a report; a search; a beginning with a search one number short, and whole; its search carried on with one number short, by one state, up to its end, and past it;
// and a run that is lent more than its part, which is no call.
fn script() -> [[u64; Row::WIDTH]; Size::ROWS] {
    [
        [2, 0, 0, 0, 0, 0, 7168, 16386, 5122, 41008, 5135, 0, 0],
        [1, 0, 23, 0, 0, 0, 0, 16385, 5122, 41008, 5135, 0, 0],
        [1, 0, 23, 0, 0, 0, 0, 16386, 5122, 41008, 5134, 0, 0],
        [1, 0, 23, 0, 0, 0, 0, 16386, 5122, 41008, 5135, 0, 0],
        [2, 0, 0, 0, 0, 0, 7167, 16386, 5122, 41008, 5135, 0, 0],
        [2, 0, 0, 0, 0, 0, 7169, 16386, 5122, 41008, 5135, 0, 0],
        [2, 0, 0, 0, 0, 0, 7168, 16386, 5122, 41008, 5135, 0, 0],
        [3, 0, 0, 0, 0, 10000, 7168, 16386, 5122, 41008, 5135, 0, 0],
        [3, 0, 0, 0, 0, 9999, 7168, 16386, 5121, 41008, 5135, 0, 0],
        [11, 0, 0, 0, 4, 2, 16, 16386, 5122, 41008, 5135, 0, 3],
        [11, 0, 0, 2, 6, 9, 23, 16386, 5122, 41008, 5135, 3, 3],
        [11, 0, 0, 0, 4, 5, 7, 16386, 5122, 41008, 5135, 0, 3],
        [11, 0, 0, 0, 4, 5, 80, 16386, 5122, 41008, 5135, 6, 0],
        [11, 0, 0, 10, 0, 5, 80, 16386, 5122, 41008, 5135, 0, 1],
        [11, 0, 0, 0, 4, 5, 80, 16385, 5122, 41008, 5135, 0, 3],
        [11, 0, 0, 6, 2, 5, 8192, 16386, 5122, 41008, 5135, 0, 1],
        [8, 0, 0, 0, 2, 3, 7168, 16386, 5122, 41008, 5135, 0, 0],
        [5, 23, 1, 0, 0, 0, 0, 16386, 5122, 41007, 5135, 0, 0],
        [4, 0, 0, 0, 0, 0, 64, 16386, 5122, 41008, 5135, 0, 0],
        [10, 24, 1, 0, 0, 3, 0, 16386, 5122, 41008, 5135, 0, 0],
        [12, 24, 1, 0, 0, 3, 0, 16386, 5122, 41008, 5134, 0, 0],
        [12, 24, 1, 0, 0, 3, 0, 16386, 5122, 41008, 5135, 0, 0],
        [13, 0, 0, 0, 0, 1, 0, 16386, 5122, 41008, 5134, 0, 0],
        [13, 0, 0, 0, 0, 1, 0, 16386, 5122, 41008, 5135, 0, 0],
        [13, 0, 0, 0, 0, 5, 0, 16386, 5122, 41008, 5135, 0, 0],
        [13, 0, 0, 0, 0, 1, 0, 16386, 5122, 41008, 5135, 0, 0],
        [11, 0, 0, 6, 2, 5, 8193, 16386, 5122, 41008, 5135, 3, 3],
    ]
}

// Two timed steps, of which the second would bring the clock past its limit.
fn late() -> [u64; Row::WIDTH] {
    [11, 0, 0, 6, 4, 5, 80, 16386, 5122, 41008, 5135, 3, 3]
}

// The first numbers of so many parts of the outputs.
fn put_firsts(out: &mut impl Write, outputs: &[u64], count: usize) -> io::Result<()> {
    for part in outputs.chunks_exact(Row::OUTPUT).take(count) {
        let shown = part.get(..Size::SHOWN).unwrap_or(part);
        write!(out, "  ")?;
        output::put_line_bytes(out, shown, b' ')?;
    }
    Ok(())
}

// Runs rows, and shows how many were run, the answers, the first numbers of the outputs and the clock.
fn run_rows(out: &mut impl Write, rows: &[u64], machine: &mut Machine) -> io::Result<()> {
    let count = rows.len() / Row::WIDTH;
    let mut outputs = [9u64; Size::OUTPUTS];
    let mut answers = [8u64; Size::ANSWERS];
    let ran = script::run(
        rows,
        &texts(),
        &draws(),
        &words(),
        &mut machine.model,
        &mut machine.state,
        &mut machine.saves,
        &mut machine.search,
        &mut machine.clock,
        &mut outputs,
        &mut answers,
    );
    writeln!(out, "{ran}")?;
    output::put_rows_bytes(
        out,
        &answers,
        Row::ANSWER,
        count as u64,
        output::ByteStyle {
            begin: b"",
            gap: b' ',
        },
    )?;
    put_firsts(out, &outputs, count)?;
    output::put_line_bytes(out, &machine.clock, b' ')
}

// Runs the rows on a fresh engine, and the late one.
pub fn run(out: &mut impl Write) -> io::Result<()> {
    let mut machine = Machine::new();
    run_rows(out, script().as_flattened(), &mut machine)?;
    machine.clock[0] = Size::LATE;
    run_rows(out, &late(), &mut machine)?;
    out.flush()
}
