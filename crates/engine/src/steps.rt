// A step over the tables of a model: question 11 and the listing, then the entry that the draw chooses is taken.
ghost use Rattle.std.specs.Prelude.{◌≡◌, List, ℕ, length};
ghost use Rattle.std.proofs.Math.Option.{some};
ghost use Rattle.model.specs.Resolved as Resolved;
ghost use Rattle.rules.specs.Listing as rules;
ghost use Rattle.machine.specs.State.{State, state_length};
ghost use Rattle.machine.specs.Machine.{listing_length, drawn, step'};
ghost use Rattle.step.specs.Entries.{Counted};
ghost use Rattle.buffers.specs.Parts.{lent_two};
ghost use Rattle.buffers.specs.Effect.{requested};
ghost use Rattle.engine.specs.Gives.{answer_of, Gives};
ghost use Rattle.store.specs.Tables.{Shows};
ghost use Rattle.engine.specs.Steps.{Left};

use crate::{Refusal, Told, listings};
use listing::Listed;
use store::Settled;
use tables::Tables;

// Questions 15 and 16 of a listing, then the entry that the draw chooses.
fn take_drawn(
    tables: Tables,
    state: &mut [i64],
    listing: &[u64],
    listed: Listed,
    draw: u64,
) -> Result<Told, Refusal>
    requires { (m : Resolved.Model) × (s : State) × (es : List rules.Entry) × Counted tables.nodes.now tables.roots.now tables.scopes.now tables.root tables.variables state.old listing.now listed.count listed.total m s es }
    ensures { (m : Resolved.Model) (s : State) (es : List rules.Entry) → Counted tables.entry.nodes.now tables.entry.roots.now tables.entry.scopes.now tables.entry.root tables.entry.variables state.old listing.now listed.count listed.total m s es → Left (drawn m s es draw) (answer_of result) state.new }
{
    if listed.total == 0 {
        return Err(Refusal::Step(running::Refusal::NoWeight, listed));
    }
    let c = listed
        .choose(listing, draw)
        .ok_or(Refusal::Step(running::Refusal::Draw, listed))?;
    let mut fresh = [0i64; step::Room::FRESH];
    let taken = step::take_row(tables, state, &mut fresh, listing, c);
    // A match: map_err would take a closure that holds what is listed.
    match taken {
        Ok(()) => Ok(Told { listed, chosen: c }),
        Err(refusal) => Err(Refusal::Step(running::Refusal::Step(refusal), listed)),
    }
}

// Steps over the tables of a model.
pub fn step_model(
    settled: Settled,
    state: &mut [i64],
    listing: &mut [u64],
    draw: u64,
) -> Result<Told, Refusal>
    requires { ((m : Resolved.Model) × Shows settled m) × (length state.old ≡ state_length) × (length listing.old ≡ listing_length) }
    ensures { (m : Resolved.Model) (bs : List ℕ) → Shows settled.entry m → Gives (requested (step' draw) (lent_two bs state.old) listing.old (some m)) (answer_of result) (lent_two bs state.new) listing.new }
{
    let told = listings::list_state(settled, state, listing)?;
    take_drawn(settled.tables, state, listing, told.listed, draw)
}
