#![tactic(auto)]

// The run over lent buffers: questions 1 and 11, the text that the model buffer holds, which is read once, and the run over its tables.
ghost use Rattle.std.specs.Prelude.{◌≡◌, List, ℕ, length};
ghost use Rattle.std.proofs.Math.Option.{some};
ghost use Rattle.model.specs.Resolved as Resolved;
ghost use Rattle.clock.specs.Clock.{InRange};
ghost use Rattle.machine.specs.State.{state_length};
ghost use Rattle.machine.specs.Machine.{model_length, run', on'};
ghost use Rattle.buffers.specs.Parts.{lent_timed};
ghost use Rattle.buffers.specs.Effect.{requested, answered, effect};
ghost use Rattle.simulation.specs.Comes.{clock_after, Comes, are_parts_long, Reads};
ghost use Rattle.store.specs.Tables.{Shows};

use clock::Clock;
use opening::Space;
use running::{Given, Progress};
use store::{Engine, Settled};

// Why a run is refused before its first step: a buffer hasn't its length; or the model, the state or the clock isn't held.
#[derive(Clone, Copy)]
pub enum Refusal {
    Lengths,
    NotHeld,
}

// What a run is asked: the words of its choosing draws, its waiting draws, at most how many steps, and from what clock.
#[derive(Clone, Copy)]
pub struct Asked<'a> {
    pub words: &'a [u64],
    pub waiting: &'a [u16],
    pub limit: u64,
    pub clock: Clock,
}

// The model that a model buffer holds, in the tables of a reading.
pub fn read<'a>(model: &[u8], space: &'a mut Space) -> Option<Settled<'a>>
    requires { length model.now ≡ model_length }
    ensures { Reads model.now result }
{
    let text = store::buffer::find_text(model)?;
    let read = space.read_model(text).ok()?;
    let found = read.model;
    Some(Settled {
        tables: space.tables(found),
        sums: found.sums,
        channels: found.channels,
    })
}

// Question 11 of a state, then the run over the tables of a model. State and events go on one by one, as C lends them, up to running's own struct.
fn run_tables(
    settled: Settled,
    state: &mut [i64],
    events: &mut [u64],
    asked: Asked,
) -> Result<Progress, Refusal>
    requires { ((m : Resolved.Model) × Shows settled m) × (length state.old ≡ state_length) × (InRange asked.clock) }
    ensures { (m : Resolved.Model) (bs : List ℕ) → Shows settled.entry m → Comes (requested (run' asked.entry.words.now asked.entry.waiting.now asked.entry.limit (length events.old)) (lent_timed bs state.old asked.entry.clock) events.old (some m)) asked.entry.clock result (lent_timed bs state.new (clock_after asked.entry.clock result)) events.new }
{
    if !state::is_state(state, settled.shape()) {
        return Err(Refusal::NotHeld);
    }
    let given = Given {
        tables: settled.tables,
        words: asked.words,
        waiting: asked.waiting,
    };
    let limit = asked.limit as usize;
    Ok(running::run(given, state, events, asked.clock, limit))
}

// Question 1: have the model and the state their lengths?
pub fn are_parts_long(model: usize, state: usize) -> bool
    ensures { result ≡ are_parts_long model state }
{
    model == Engine::MODEL && state == Engine::STATE
}

// Runs over buffers of the right lengths, with a clock in its range.
fn run_lent(
    model: &[u8],
    state: &mut [i64],
    events: &mut [u64],
    asked: Asked,
) -> Result<Progress, Refusal>
    requires { (length model.now ≡ model_length) × (length state.old ≡ state_length) × (InRange asked.clock) }
    ensures { Comes (answered (on' (run' asked.entry.words.now asked.entry.waiting.now asked.entry.limit (length events.old))) (lent_timed model.now state.old asked.entry.clock) events.old) asked.entry.clock result (lent_timed model.now state.new (clock_after asked.entry.clock result)) events.new }
{
    let mut space = Space::EMPTY;
    let settled = read(model, &mut space).ok_or(Refusal::NotHeld)?;
    run_tables(settled, state, events, asked)
}

// Timed steps from the present state: no more than the limit, and none for whose event there is no room.
pub fn run(
    model: &[u8],
    state: &mut [i64],
    events: &mut [u64],
    asked: Asked,
) -> Result<Progress, Refusal>
    ensures { Comes (effect (on' (run' asked.entry.words.now asked.entry.waiting.now asked.entry.limit (length events.old))) (lent_timed model.now state.old asked.entry.clock) events.old) asked.entry.clock result (lent_timed model.now state.new (clock_after asked.entry.clock result)) events.new }
{
    if !are_parts_long(model.len(), state.len()) {
        return Err(Refusal::Lengths);
    }
    if !clock::in_range(asked.clock) {
        return Err(Refusal::NotHeld);
    }
    run_lent(model, state, events, asked)
}
