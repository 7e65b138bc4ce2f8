#![tactic(auto)]

// Runs the test of a state on damaged numbers, and the changes of a state on a small one.
ghost use Rattle.std.specs.Prelude.{◌≡◌, true};
ghost use Rattle.state.specs.Read.{Passed};

use state::{Layout, Shape};
use std::io;
use value::Range;

type Numbers = [i64; Layout::NUMBERS];

type Row = [i64; Layout::PAIR];

// Whether these are the numbers of a state over the sample: a model with three sums and two channel names. Sum 1 stands in definition 1, the others in definition 0.
fn is_good(state: &Numbers) -> bool
    ensures { result ≡ true → Passed state.now }
{
    let shape = Shape {
        scopes: &[2, 16, 8],
        channels: 2,
    };
    state::is_state(state, shape)
}

fn test(rt: &impl Print, label: &str, state: &Numbers) -> io::Result<()> {
    let answer = if is_good(state) { "yes" } else { "no" };
    println!(rt; "{label},{answer}")
}

// The changes ask `is_good` each for itself: what it ensures is what a change of a state requires.
fn push(state: &mut Numbers, sum: u8, locals: &[i64], definition: u8) {
    if is_good(state)
        && state::process_count(state) + 1 < Layout::PROCESS_COUNTS
        && locals.len() < Layout::DEFINITION
    {
        state::push_process(state, sum as usize, locals, definition as usize);
    }
}

fn launch(state: &mut Numbers, row: &Row) {
    if is_good(state) && state::pair_count(state) + 1 < Layout::PAIR_COUNTS {
        state::launch_pair(state, row);
    }
}

fn kill(state: &mut Numbers, row: &Row) {
    if is_good(state) {
        state::kill_pair(state, row);
    }
}

// The processes of `fresh` take the place of a process.
fn replace(state: &mut Numbers, place: usize, fresh: &[i64]) {
    if !is_good(state) {
        return;
    }
    let n = state::process_count(state);
    let count = fresh.len() / Layout::PROCESS;
    if place < n && n + count <= Layout::PROCESS_COUNTS {
        state::splice(state, place, fresh, count);
    }
}

// Three processes and three pairs.
fn filled() -> Numbers {
    let mut state = [0; Layout::NUMBERS];
    push(&mut state, 0, &[5, 7], 0);
    push(&mut state, 2, &[1, 2, 3, 4, 5, 6, 7, 8], 0);
    push(&mut state, 1, &[0; 0], 1);
    launch(&mut state, &[1, 1, 1, 0, 0, 0, 0, 1, 9, 0]);
    launch(&mut state, &[1, 0, 4, 0, 0, 0, 0, 2, 1, 2]);
    launch(&mut state, &[1, 0, 4, 0, 0, 0, 0, 1, 1, 0]);
    state
}

// Pairs on a number, on two numbers, on a name and a number, and on a number, a name and a number.
fn listed() -> Numbers {
    let mut state = [0; Layout::NUMBERS];
    launch(&mut state, &[3, 0, 1, 1, 0, 0, 2, 1, 7, 0]);
    launch(&mut state, &[2, 1, 1, 0, 5, 0, 0, 2, 3, 4]);
    launch(&mut state, &[1, 0, 4, 0, 0, 0, 0, 1, 1, 0]);
    launch(&mut state, &[2, 0, 9, 0, 0, 0, 0, 1, 1, 0]);
    state
}

// The tests of a sample with another number at a place, for each label.
fn damaged(rt: &impl Print, sample: &Numbers, damages: &[(&str, usize, i64)]) -> io::Result<()> {
    for &(label, at, z) in damages {
        let mut state = *sample;
        if at < Layout::NUMBERS {
            state[at] = z;
        }
        test(rt, label, &state)?;
    }
    Ok(())
}

// In the filled sample the first process stands at 2, the first pair at 2562.
fn counts(rt: &impl Print) -> io::Result<()> {
    damaged(
        rt,
        &filled(),
        &[
            ("processes -1", 0, -1),
            ("processes 4", 0, 4),
            ("processes 2", 0, 2),
            ("processes 257", 0, 257),
            ("processes least", 0, i64::MIN),
            ("processes greatest", 0, i64::MAX),
            ("pairs -1", 1, -1),
            ("pairs 4", 1, 4),
            ("pairs 2", 1, 2),
            ("pairs 257", 1, 257),
            ("pairs least", 1, i64::MIN),
            ("pairs greatest", 1, i64::MAX),
        ],
    )
}

fn processes(rt: &impl Print) -> io::Result<()> {
    damaged(
        rt,
        &filled(),
        &[
            ("sum 3", 2, 3),
            ("sum -1", 2, -1),
            ("sum least", 2, i64::MIN),
            ("sum greatest", 2, i64::MAX),
            ("sum of fewer locals", 2, 1),
            ("sum of more locals", 2, 2),
            ("local least", 3, Range::LEAST),
            ("local below least", 3, Range::LEAST - 1),
            ("local greatest", 4, Range::GREATEST),
            ("local above greatest", 4, Range::GREATEST + 1),
            ("first local past scope", 5, 1),
            ("last local past scope", 10, 1),
            ("eighth local in scope", 20, -1),
            ("local of none", 23, 1),
            ("first unused process", 32, 1),
            ("last of the processes", 2561, 1),
        ],
    )
}

// A process has its definition after its eighth local: the first one at 11, the third at 31.
fn definitions(rt: &impl Print) -> io::Result<()> {
    damaged(
        rt,
        &filled(),
        &[
            ("definition one more", 11, 1),
            ("definition -1", 11, -1),
            ("definition of the sum", 31, 1),
            ("definition one less", 31, 0),
            ("definition of none", 31, 2),
            ("definition least", 31, i64::MIN),
            ("definition greatest", 31, i64::MAX),
            ("definition of another sum", 22, 0),
            ("definition of no process", 41, 1),
        ],
    )
}

fn channels(rt: &impl Print) -> io::Result<()> {
    damaged(
        rt,
        &filled(),
        &[
            ("kind 2", 2563, 2),
            ("kind -1", 2563, -1),
            ("name of no channel", 2563, 1),
            ("number least", 2564, Range::LEAST),
            ("number below least", 2564, Range::LEAST - 1),
            ("number greatest", 2574, Range::GREATEST),
            ("number above greatest", 2574, Range::GREATEST + 1),
            ("name 0", 2584, 0),
            ("name -1", 2584, -1),
            ("name 2", 2584, 2),
        ],
    )
}

// The third pair's channel is name 1 alone.
fn items(rt: &impl Print) -> io::Result<()> {
    damaged(
        rt,
        &filled(),
        &[
            ("no item", 2582, 0),
            ("items -1", 2582, -1),
            ("items least", 2582, i64::MIN),
            ("items greatest", 2582, i64::MAX),
            ("two items, the second 0", 2582, 2),
            ("three items, two of them 0", 2582, 3),
            ("four items", 2582, 4),
            ("kind of an unused second item", 2585, 1),
            ("value of an unused second item", 2586, 1),
            ("kind of an unused third item", 2587, 1),
            ("value of an unused third item", 2588, 1),
        ],
    )
}

// Among the listed pairs the second stands at 2572, the third at 2582, the fourth at 2592.
fn lists(rt: &impl Print) -> io::Result<()> {
    damaged(
        rt,
        &listed(),
        &[
            ("lists", 0, 0),
            ("second item of kind 2", 2585, 2),
            ("second item of kind -1", 2585, -1),
            ("second item names no channel", 2585, 1),
            ("second item least", 2586, Range::LEAST),
            ("second item below least", 2586, Range::LEAST - 1),
            ("second item greatest", 2586, Range::GREATEST),
            ("second item above greatest", 2586, Range::GREATEST + 1),
            ("first of two items names no channel", 2584, 2),
            ("second of three items names channel 1", 2596, 1),
            ("second of three items names no channel", 2596, 2),
            ("third item of kind 2", 2597, 2),
            ("third item names no channel", 2597, 1),
            ("third item greatest", 2598, Range::GREATEST),
            ("third item above greatest", 2598, Range::GREATEST + 1),
            ("third item not counted", 2592, 2),
            ("second item not counted", 2582, 1),
            ("value of two items", 2579, 2),
            ("three values of three items", 2599, 3),
            ("ascending items", 2576, 1),
            ("descending items", 2583, 0),
        ],
    )
}

fn values(rt: &impl Print) -> io::Result<()> {
    damaged(
        rt,
        &filled(),
        &[
            ("no value", 2569, 0),
            ("values -1", 2569, -1),
            ("three values", 2579, 3),
            ("value least", 2570, Range::LEAST),
            ("value below least", 2570, Range::LEAST - 1),
            ("second value greatest", 2581, Range::GREATEST),
            ("second value above greatest", 2581, Range::GREATEST + 1),
            ("second value of one", 2571, 1),
            ("first unused pair", 2592, 1),
            ("last of the pairs", 5121, 1),
        ],
    )
}

// The filled sample with another second pair.
fn order(rt: &impl Print) -> io::Result<()> {
    let rows: [(&str, Row); 9] = [
        ("ascending values", [1, 0, 4, 0, 0, 0, 0, 1, 2, 0]),
        ("equal pairs", [1, 0, 4, 0, 0, 0, 0, 1, 1, 0]),
        ("descending values", [1, 0, 4, 0, 0, 0, 0, 1, 0, 0]),
        ("descending channels", [1, 0, 3, 0, 0, 0, 0, 2, 1, 2]),
        ("ascending names", [1, 1, 0, 0, 0, 0, 0, 1, 9, 0]),
        ("equal names", [1, 1, 1, 0, 0, 0, 0, 1, 9, 0]),
        ("descending names", [1, 1, 1, 0, 0, 0, 0, 2, 9, 0]),
        ("more items, then fewer", [2, 0, 4, 0, 0, 0, 0, 1, 1, 0]),
        (
            "fewer items, a greater number",
            [1, 0, 5, 0, 0, 0, 0, 1, 1, 0],
        ),
    ];
    for (label, row) in &rows {
        let mut state = filled();
        let at = Layout::PAIRS + Layout::PAIR;
        state[at..at + Layout::PAIR].copy_from_slice(row);
        test(rt, label, &state)?;
    }
    Ok(())
}

fn show_numbers(rt: &impl Print, label: &str, numbers: &[i64]) -> io::Result<()> {
    print!(rt; "{label}")?;
    for z in numbers {
        print!(rt; ",{z}")?;
    }
    println!(rt)
}

// Both counts, the first four processes and the first four pairs.
fn show(rt: &impl Print, label: &str, state: &Numbers) -> io::Result<()> {
    let (processes, pairs) = (Layout::PROCESSES, Layout::PAIRS);
    test(rt, label, state)?;
    show_numbers(rt, "counts", &state[..processes])?;
    show_numbers(
        rt,
        "processes",
        &state[processes..processes + 4 * Layout::PROCESS],
    )?;
    show_numbers(rt, "pairs", &state[pairs..pairs + 4 * Layout::PAIR])
}

fn changes(rt: &impl Print) -> io::Result<()> {
    show(rt, "fresh", &[0; Layout::NUMBERS])?;
    let mut state = filled();
    show(rt, "filled", &state)?;
    launch(&mut state, &[1, 0, 4, 0, 0, 0, 0, 2, 1, 2]);
    show(rt, "lit again", &state)?;
    launch(&mut state, &[1, 0, 4, 0, 0, 0, 0, 1, 6, 0]);
    show(rt, "one more", &state)?;
    kill(&mut state, &[1, 0, 4, 0, 0, 0, 0, 1, 1, 0]);
    show(rt, "killed", &state)?;
    kill(&mut state, &[1, 0, 4, 0, 0, 0, 0, 1, 1, 0]);
    show(rt, "killed again", &state)?;
    replace(
        &mut state,
        1,
        &[1, 0, 0, 0, 0, 0, 0, 0, 0, 1, 1, 0, 0, 0, 0, 0, 0, 0, 0, 1],
    );
    show(rt, "split", &state)?;
    replace(&mut state, 0, &[0; 0]);
    show(rt, "ended", &state)
}

// Lists come in by item count, then item for item, a number before a name.
fn list_changes(rt: &impl Print) -> io::Result<()> {
    let mut state = listed();
    show(rt, "lists", &state)?;
    kill(&mut state, &[2, 0, 9, 0, 0, 0, 0, 1, 2, 0]);
    kill(&mut state, &[1, 0, 9, 0, 0, 0, 0, 1, 1, 0]);
    show(rt, "others killed", &state)?;
    kill(&mut state, &[2, 0, 9, 0, 0, 0, 0, 1, 1, 0]);
    launch(&mut state, &[2, 1, 1, 0, 4, 0, 0, 2, 9, 9]);
    show(rt, "one for one", &state)
}

fn main(rt: HostRuntime) -> io::Result<()> {
    counts(&rt)?;
    processes(&rt)?;
    definitions(&rt)?;
    channels(&rt)?;
    items(&rt)?;
    lists(&rt)?;
    values(&rt)?;
    order(&rt)?;
    changes(&rt)?;
    list_changes(&rt)
}
