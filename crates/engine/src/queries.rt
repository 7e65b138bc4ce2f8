// The calls that ask something of the model and the state, and write an output alone: one function for them all.
ghost use Rattle.std.specs.Prelude.{◌≡◌, List, ℕ, length};
ghost use Rattle.std.proofs.Math.Option.{some};
ghost use Rattle.model.specs.Resolved as Resolved;
ghost use Rattle.machine.specs.State.{state_length};
ghost use Rattle.machine.specs.Machine.{Request, uses, output_of, two_parts, on'};
ghost use Rattle.buffers.specs.Parts.{lent_two};
ghost use Rattle.buffers.specs.Effect.{requested, effect};
ghost use Rattle.engine.specs.Gives.{answer_of, Gives};
ghost use Rattle.store.specs.Tables.{Holds};

use crate::{Refusal, Told};
use opening::Space;
use store::Settled;

pub trait Query {
    // The length of the output.
    ghost OUTPUT: { ℕ };

    const OUTPUT: usize;

    // What the rule machine is asked.
    ghost request: { Request };

    // The answer over the tables of a model.
    fn answer(settled: Settled, state: &[i64], output: &mut [u64]) -> Result<Told, Refusal>
        requires { ((m : Resolved.Model) × Holds settled m) × (length state.now ≡ state_length) × (length output.old ≡ OUTPUT) }
        ensures { (m : Resolved.Model) (bs : List ℕ) → Holds settled.entry m → Gives (requested request (lent_two bs state.now) output.old (some m)) (answer_of result) (lent_two bs state.now) output.new };

    // It is lent the model and the state, and this output.
    ghost lends: { uses request ≡ two_parts };

    ghost writes: { output_of (on' request) ≡ some OUTPUT };
}

// Question 1, then the answer over the tables of the model buffer, or 11.
pub fn ask<Q: Query>(model: &[u8], state: &[i64], output: &mut [u64]) -> Result<Told, Refusal>
    ensures { Gives (effect (on' Q.request) (lent_two model.now state.now) output.old) (answer_of result) (lent_two model.now state.now) output.new }
{
    if !crate::are_long(model.len(), state.len(), output.len(), Q::OUTPUT) {
        return Err(Refusal::Lengths);
    }
    let mut space = Space::EMPTY;
    let settled = simulation::read(model, &mut space).ok_or(Refusal::NotHeld)?;
    Q::answer(settled, state, output)
}
