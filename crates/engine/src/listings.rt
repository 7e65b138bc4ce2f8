// Question 11 of a state, then the listing of it.
ghost use Rattle.std.specs.Prelude.{◌≡◌, refl, length};
ghost use Rattle.model.specs.Resolved as Resolved;
ghost use Rattle.machine.specs.State.{state_length};
ghost use Rattle.machine.specs.Machine.{listing_length, list'};
ghost use Rattle.store.specs.Tables.{Holds};
ghost use Rattle.engine.specs.Tables.{Finds};

use crate::queries::Query;
use crate::{Refusal, Told};
use store::{Engine, Settled};

// Question 11 of a state, then 12 to 14 and its listing.
pub fn list_state(settled: Settled, state: &[i64], listing: &mut [u64]) -> Result<Told, Refusal>
    requires { ((m : Resolved.Model) × Holds settled m) × (length state.now ≡ state_length) × (length listing.old ≡ listing_length) }
    ensures { (m : Resolved.Model) → Holds settled.entry m → Finds m state.now listing.old result listing.new }
{
    if !state::is_state(state, settled.shape()) {
        return Err(Refusal::NotHeld);
    }
    let listed = listing::list_here(settled.tables, state, listing)?;
    Ok(Told { listed, chosen: 0 })
}

// What list asks.
pub struct List;

impl Query for List {
    const OUTPUT: usize = Engine::LISTING;

    ghost OUTPUT = { listing_length };

    ghost request = { list' };

    ghost lends = { refl };

    ghost writes = { refl };

    // Lists over the tables of a model.
    fn answer(settled: Settled, state: &[i64], listing: &mut [u64]) -> Result<Told, Refusal> {
        list_state(settled, state, listing)
    }
}
