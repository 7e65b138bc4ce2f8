#![tactic(auto)]

// The search over a text that a model buffer holds: questions 11 and 26, the walk over its model, and what that comes to.
ghost use Rattle.std.specs.Prelude.{◌≡◌, List, [], ℕ, ◌≤◌, length, take};
ghost use Rattle.std.proofs.Math.Option.{some};
ghost use Rattle.model.specs.Resolved as Resolved;
ghost use Rattle.model.specs.Held.{held};
ghost use Rattle.runs.specs.Tree as tree;
ghost use Rattle.search.specs.Walks.{Answered};
ghost use Rattle.machine.specs.State.{state_length};
ghost use Rattle.machine.specs.Machine.{is_depth, search'};
ghost use Rattle.buffers.specs.Parts.{lent_two};
ghost use Rattle.buffers.specs.Effect.{requested};
ghost use Rattle.searching.specs.Run.{bare, GivesRun, result_of};
ghost use Rattle.searching.specs.Lent.{Lends};

use opening::Space;
use search::Missed;
use store::Settled;
use walk::{Level, Search, Written};

// What a search answers: 0 or a refusal's number; the length of the run, 0 for none; its entry numbers, unused ones 0.
// C reads these numbers in this order. The functions below answer it as it stands: a refusal is its number and nothing else, 1, 26 and 27 given once each and 11 in
// three places, and an enum of the four would be made only to be turned back into them where the run is.
#[repr(C)]
#[derive(Clone, Copy)]
pub struct Found {
    pub number: u64,
    pub length: u64,
    pub run: [u64; Level::DEPTH],
}

impl Found {
    // The deepest search, and the entry numbers of an answer.
    pub const DEPTH: usize = Level::DEPTH;

    // A number without a run.
    pub fn bare(number: u64) -> Self
        ensures { result ≡ bare number }
    {
        Found {
            number,
            length: 0,
            run: [0u64; Level::DEPTH],
        }
    }
}

// Question 26.
#[tactic(auto, unfolding(machine::specs::Machine::is_depth))]
pub fn is_depth(depth: u64) -> bool
    ensures { result ≡ is_depth depth }
{
    (1..=Level::DEPTH as u64).contains(&depth)
}

// The run in the first n numbers.
fn run_found(run: &[u16; Level::DEPTH], n: usize) -> Found
    requires { n ≤ length run.now }
    ensures { result ≡ result_of (tree.found (take n run.now)) }
{
    let mut entries = [0u64; Level::DEPTH];
    // By index: of iter_mut the library says what each reference is handed out with, and nothing of what the array ends as.
    for i in 0..n {
        entries[i] = u64::from(run[i]);
    }
    Found {
        number: 0,
        length: n as u64,
        run: entries,
    }
}

// What a walk comes to.
pub fn result_of(walked: Result<usize, Missed>, run: &[u16; Level::DEPTH]) -> Found
    requires { (a : tree.Answer) × Answered a walked run.now }
    ensures { (a : tree.Answer) → Answered a walked run.now → result ≡ result_of a }
{
    match walked {
        Ok(n) => run_found(run, n),
        Err(Missed::Unsure) => Found::bare(27),
        Err(Missed::Nothing) => Found::bare(0),
    }
}

// Questions 11 of a state and 26, then the walk over the tables of a model.
fn search_tables(
    settled: Settled,
    written: Written,
    state: &[i64],
    name: &[u8],
    depth: u64,
) -> Found
    requires { ((m : Resolved.Model) × Lends settled written m) × (length state.now ≡ state_length) }
    ensures { (m : Resolved.Model) (bs : List ℕ) → Lends settled.entry written.entry m → GivesRun (requested (search' name.now depth) (lent_two bs state.now) [] (some m)) result (lent_two bs state.now) }
{
    if !state::is_state(state, settled.shape()) {
        return Found::bare(11);
    }
    if !is_depth(depth) {
        return Found::bare(26);
    }
    let mut run = [0u16; Level::DEPTH];
    let search = Search {
        tables: settled.tables,
        written,
        name,
    };
    let walked = walk::search_model(search, state, depth as usize, &mut run);
    result_of(walked, &run)
}

// Searches over a text that a model buffer holds. simulation's read would keep the whole space lent, and a search is lent the places and sizes of its words beside the
// tables.
pub fn search_text(text: &[u8], state: &[i64], name: &[u8], depth: u64) -> Found
    requires { length state.now ≡ state_length }
    ensures { (bs : List ℕ) → GivesRun (requested (search' name.now depth) (lent_two bs state.now) [] (held text.now)) result (lent_two bs state.now) }
{
    let mut space = Space::EMPTY;
    let Ok(read) = space.read_model(text) else {
        return Found::bare(11);
    };
    let found = read.model;
    search_tables(
        Settled {
            tables: space.tables(found),
            sums: found.sums,
            channels: found.channels,
        },
        Written {
            text,
            places: &space.places,
            sizes: &space.sizes,
        },
        state,
        name,
        depth,
    )
}
