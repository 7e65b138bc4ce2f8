// A timed step over the tables of a model: question 11 and the listing, 15, then 16 to 19 and 23 to 25 by `running::take_single`.
ghost use Rattle.std.specs.Prelude.{◌≡◌, List, ℕ, length};
ghost use Rattle.std.proofs.Math.Option.{some};
ghost use Rattle.model.specs.Resolved as Resolved;
ghost use Rattle.clock.specs.Clock.{InRange};
ghost use Rattle.machine.specs.State.{state_length};
ghost use Rattle.machine.specs.Machine.{listing_length, timed'};
ghost use Rattle.buffers.specs.Parts.{lent_timed};
ghost use Rattle.buffers.specs.Effect.{requested};
ghost use Rattle.engine.specs.Gives.{Gives};
ghost use Rattle.store.specs.Tables.{Shows};
ghost use Rattle.engine.specs.Waited.{timed_by};

use crate::{Refusal, Told, listings};
use clock::Clock;
use running::Stepping;
use store::Settled;

// Both the state and the clock move, or neither does.
pub fn step_waiting(
    settled: Settled,
    state: &mut [i64],
    listing: &mut [u64],
    waiting: &[u16],
    draw: u64,
    clock: Clock,
) -> Result<(Told, Clock), Refusal>
    requires { ((m : Resolved.Model) × Shows settled m) × (length state.old ≡ state_length) × (length listing.old ≡ listing_length) × (InRange clock) }
    ensures { (m : Resolved.Model) (bs : List ℕ) → Shows settled.entry m → Gives (requested (timed' waiting.now draw) (lent_timed bs state.old clock) listing.old (some m)) (timed_by clock result).answer (lent_timed bs state.new (timed_by clock result).clock) listing.new }
{
    let listed = listings::list_state(settled, state, listing)?.listed;
    if listed.total == 0 {
        return Err(Refusal::Step(running::Refusal::NoWeight, listed));
    }
    let mut fresh = [0i64; running::Room::FRESH];
    let read = Stepping {
        tables: settled.tables,
        listing,
        waiting,
        clock,
    };
    match running::take_single(read, state, &mut fresh, listed, draw) {
        Ok((chosen, next)) => Ok((Told { listed, chosen }, next)),
        Err(refusal) => Err(Refusal::Step(refusal, listed)),
    }
}
