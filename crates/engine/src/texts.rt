// The opening of a text, and the engine that it leaves.
ghost use Rattle.std.specs.Prelude.{◌≡◌, List, [], ℤ, pos, length, replicate};
ghost use Rattle.machine.specs.State.{state_length};
ghost use Rattle.machine.specs.Saves.{saves_length};
ghost use Rattle.machine.specs.Machine.{model_length, search_length};
ghost use Rattle.clock.specs.Clock.{fresh_clock};
ghost use Rattle.buffers.specs.Parts.{lent_whole};
ghost use Rattle.buffers.specs.Effect.{opens_with};
ghost use Rattle.steady.specs.Opens.{opening_under};
ghost use Rattle.engine.specs.Gives.{Gives};

use crate::{Answer, Refusal};
use opening::Space;
use steady::Profile;

// Opens a text under a profile into buffers of the right lengths, where nothing is saved and no search is under way.
pub fn open_lent(profile: Profile, text: &[u8], model: &mut [u8], state: &mut [i64]) -> Answer
    requires { (length model.old ≡ model_length) × (length state.old ≡ state_length) }
    ensures { (ss xs : List ℤ) → ss ≡ replicate saves_length (pos 0) → xs ≡ replicate search_length (pos 0) → Gives (opens_with text.now (opening_under profile text.now) []) result (lent_whole model.new state.new ss fresh_clock xs) [] }
{
    let mut space = Space::EMPTY;
    store::buffer::put_fresh(model, state);
    let opened = steady::open_under(
        profile,
        text,
        &mut space.kinds,
        &mut space.places,
        &mut space.sizes,
        &mut space.contents,
        &mut space.nodes,
        &mut space.roots,
        &mut space.scopes,
        &mut space.names,
    );
    match opened {
        Err(refusal) => Answer::from(Refusal::from(refusal)),
        Ok(accepted) => {
            let found = accepted.model;
            let tables = space.tables(found);
            store::buffer::put_opened(tables, found.lists.definitions, text, model, state);
            Answer::bare(0, 0, 0)
        }
    }
}
