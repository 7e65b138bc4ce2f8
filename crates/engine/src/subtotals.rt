// The report on a state: its listing, made once, and the shares of that.
ghost use Rattle.std.specs.Prelude.{◌≡◌, refl, List, ℕ, length};
ghost use Rattle.std.proofs.Math.Option.{some};
ghost use Rattle.model.specs.Resolved as Resolved;
ghost use Rattle.model.specs.Good.{GoodModel};
ghost use Rattle.machine.specs.Report.{report_length};
ghost use Rattle.machine.specs.Machine.{report'};
ghost use Rattle.buffers.specs.Parts.{lent_two};
ghost use Rattle.buffers.specs.Effect.{requested};
ghost use Rattle.engine.specs.Tables.{Finds};

use crate::queries::Query;
use crate::{Refusal, Told, listings};
use store::{Engine, Settled};

// 11 leaves the report as it is lent, 12 to 14 zero it; else it has the shares of the listing.
fn put_report(listed: Result<Told, Refusal>, listing: &[u64], state: &[i64], report: &mut [u64])
    requires { ((m : Resolved.Model) × (l : List ℕ) × GoodModel m × Finds m state.now l listed listing.now) × (length report.old ≡ report_length) }
    ensures { (m : Resolved.Model) (bs l : List ℕ) → GoodModel m → Finds m state.now l listed listing.now → report.new ≡ (requested report' (lent_two bs state.now) report.old (some m)).output }
{
    match listed {
        Ok(told) => shares::share(listing, told.listed.count, state, report),
        // A match in the arm. Tried as nested patterns: in the arm of the other refusals the fact that none is a listing's wasn't found by name, and its proof stayed open.
        Err(refusal) => match refusal {
            Refusal::Listing(_) => report.fill(0),
            _ => {}
        },
    }
}

// What report asks.
pub struct Report;

impl Query for Report {
    const OUTPUT: usize = Engine::REPORT;

    ghost OUTPUT = { report_length };

    ghost request = { report' };

    ghost lends = { refl };

    ghost writes = { refl };

    // Reports over the tables of a model.
    fn answer(settled: Settled, state: &[i64], report: &mut [u64]) -> Result<Told, Refusal> {
        let mut listing = [0u64; Engine::LISTING];
        let listed = listings::list_state(settled, state, &mut listing);
        put_report(listed, &listing, state, report);
        listed
    }
}
