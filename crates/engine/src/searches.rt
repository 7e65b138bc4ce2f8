// The search of the text that a model buffer holds, in one call or begun and carried on: question 1, and that text.
ghost use Rattle.std.specs.Prelude.{◌≡◌, [], length};
ghost use Rattle.machine.specs.State.{state_length};
ghost use Rattle.machine.specs.Machine.{model_length, search_length, search', begin', carry', on'};
ghost use Rattle.buffers.specs.Parts.{lent_two, lent_search};
ghost use Rattle.buffers.specs.Effect.{answered, effect};
ghost use Rattle.searching.specs.Run.{GivesRun};
ghost use Rattle.carrying.specs.Turns.{Begins, GivesProgress};
ghost use Rattle.engine.specs.Gives.{are_search_long, Gives};

use crate::Answer;
use carrying::Refusal;
use resuming::Progress;
use searching::Found;
use store::Engine;

// Searches over buffers of the right lengths.
fn search_lent(model: &[u8], state: &[i64], name: &[u8], depth: u64) -> Found
    requires { (length model.now ≡ model_length) × (length state.now ≡ state_length) }
    ensures { GivesRun (answered (on' (search' name.now depth)) (lent_two model.now state.now) []) result (lent_two model.now state.now) }
{
    let Some(text) = store::buffer::find_text(model) else {
        return Found::bare(11);
    };
    searching::search_text(text, state, name, depth)
}

// The first run of at most so many entries, all taken, whose last is a wait of this name.
pub fn search(model: &[u8], state: &[i64], name: &[u8], depth: u64) -> Found
    ensures { GivesRun (effect (on' (search' name.now depth)) (lent_two model.now state.now) []) result (lent_two model.now state.now) }
{
    if !simulation::are_parts_long(model.len(), state.len()) {
        return Found::bare(1);
    }
    search_lent(model, state, name, depth)
}

// ---- begun and carried on

// Question 1 of the model, the state and the search.
fn are_search_long(model: usize, state: usize, search: usize) -> bool
    ensures { result ≡ are_search_long model state search }
{
    simulation::are_parts_long(model, state) && search == Engine::SEARCH
}

// Begins a search over buffers of the right lengths.
fn begin_lent(
    model: &[u8],
    state: &[i64],
    search: &mut [i64],
    name: &[u8],
    depth: u64,
) -> Result<(), Refusal>
    requires { (length model.now ≡ model_length) × (length state.now ≡ state_length) × (length search.old ≡ search_length) }
    ensures { Begins (answered (on' (begin' name.now depth)) (lent_search model.now state.now search.old) []) result (lent_search model.now state.now search.new) }
{
    let Some(text) = store::buffer::find_text(model) else {
        return Err(Refusal::NotHeld);
    };
    carrying::begin_text(text, state, search, name, depth)
}

// Begins a search at the present state, to a wait of this name and a depth, and walks nothing; it replaces one under way.
pub fn begin(model: &[u8], state: &[i64], search: &mut [i64], name: &[u8], depth: u64) -> Answer
    ensures { Gives (effect (on' (begin' name.now depth)) (lent_search model.now state.now search.old) []) result (lent_search model.now state.now search.new) [] }
{
    if !are_search_long(model.len(), state.len(), search.len()) {
        return Answer::bare(1, 0, 0);
    }
    match begin_lent(model, state, search, name, depth) {
        Ok(()) => Answer::bare(0, 0, 0),
        Err(refusal) => Answer::bare(refusal.number(), 0, 0),
    }
}

// Carries a search on over buffers of the right lengths.
fn carry_lent(model: &[u8], state: &[i64], search: &mut [i64], number: u64) -> Progress
    requires { (length model.now ≡ model_length) × (length state.now ≡ state_length) × (length search.old ≡ search_length) }
    ensures { GivesProgress (answered (on' (carry' number)) (lent_search model.now state.now search.old) []) result (lent_search model.now state.now search.new) }
{
    let Some(text) = store::buffer::find_text(model) else {
        return Progress::bare(11, 0, 0);
    };
    carrying::carry_text(text, state, search, number)
}

// Walks so many states of the search under way, unless it ends before: what a search in one call answers at the state where it began.
pub fn carry_on(model: &[u8], state: &[i64], search: &mut [i64], number: u64) -> Progress
    ensures { GivesProgress (effect (on' (carry' number)) (lent_search model.now state.now search.old) []) result (lent_search model.now state.now search.new) }
{
    if !are_search_long(model.len(), state.len(), search.len()) {
        return Progress::bare(1, 0, 0);
    }
    carry_lent(model, state, search, number)
}
