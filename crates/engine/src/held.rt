// Question 11 of a model, a state and saves.
ghost use Rattle.std.specs.Prelude.{◌≡◌, ◌&&◌, ◌≤◌, length, take};
ghost use Rattle.machine.specs.State.{state_length};
ghost use Rattle.machine.specs.Saves.{saves_length};
ghost use Rattle.clock.specs.Clock.{InRange};
ghost use Rattle.machine.specs.Machine.{model_length, three_parts, four_parts};
ghost use Rattle.state.specs.Test.{is_state};
ghost use Rattle.saves.specs.Places.{is_saves};
ghost use Rattle.saves.specs.Kept.{besides};
ghost use Rattle.saves.specs.Change.{number_of, returning_numbers};
ghost use Rattle.buffers.specs.Parts.{lent_three, lent_all};
ghost use Rattle.buffers.specs.Effect.{machine_in};
ghost use Rattle.engine.specs.Gives.{bare, is_holding};
ghost use Rattle.engine.specs.Waited.{Keeping, Returned};

use crate::{Answer, Refusal, Timed};
use clock::Clock;
use opening::Space;
use saves::Layout;
use state::Shape;
use store::Engine;

// Whether a state and saves are over the sums with these scopes and so many channel names.
fn holds_model(shape: Shape, state: &[i64], saves: &[i64]) -> bool
    requires { (length state.now ≡ state_length) × (length saves.now ≡ saves_length) }
    ensures { result ≡ (is_state shape.entry.scopes.now shape.entry.channels state.now && is_saves shape.entry.scopes.now shape.entry.channels saves.now) }
{
    state::is_state(state, shape) && saves::is_saves(saves, shape)
}

// Question 11 of buffers of the right lengths.
pub fn holds(model: &[u8], state: &[i64], saves: &[i64]) -> bool
    requires { (length model.now ≡ model_length) × (length state.now ≡ state_length) × (length saves.now ≡ saves_length) }
    ensures { result ≡ is_holding (machine_in three_parts (lent_three model.now state.now saves.now)) }
{
    let mut space = Space::EMPTY;
    let Some(settled) = simulation::read(model, &mut space) else {
        return false;
    };
    holds_model(settled.shape(), state, saves)
}

// The same, and of a clock.
pub fn holds_all(model: &[u8], state: &[i64], saves: &[i64], clock: Clock) -> bool
    requires { (length model.now ≡ model_length) × (length state.now ≡ state_length) × (length saves.now ≡ saves_length) }
    ensures { result ≡ is_holding (machine_in four_parts (lent_all model.now state.now saves.now clock)) }
{
    clock::in_range(clock) && holds(model, state, saves)
}

// What a call on the saves answers. A refusal of the saves by its variant, here and in `return_held`: no `?` hands it on, for which a From would be.
pub fn stored_answer(done: Result<(), saves::Refusal>) -> Answer
    ensures { result ≡ bare (number_of done) 0 0 }
{
    match done {
        Ok(()) => Answer::bare(0, 0, 0),
        Err(refusal) => Answer::from(Refusal::Save(refusal)),
    }
}

// Copies what is kept under a name over the state, where buffers and clock are held.
pub fn return_held(state: &mut [i64], saves: &[i64], name: &[u8], clock: Clock) -> Timed
    requires { (length state.old ≡ state_length) × (length saves.now ≡ saves_length) × (InRange clock) × Keeping name.now (besides state.old clock) saves.now }
    ensures { Returned (returning_numbers name.now (besides state.old clock) saves.now) state.old clock result state.new }
{
    let mut kept = [0i64; Layout::KEPT];
    saves::put_kept(&mut kept, &state[..], clock);
    if let Err(refusal) = saves::return_to(&mut kept, saves, name) {
        return Timed::of(Answer::from(Refusal::Save(refusal)), clock);
    }
    state.copy_from_slice(&kept[..Engine::STATE]);
    Timed::of(
        Answer::bare(0, 0, 0),
        saves::clock_at(kept[Engine::STATE], kept[Engine::STATE + 1]),
    )
}
