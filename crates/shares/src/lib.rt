#![tactic(auto)]

// The report: the weights of a listing, added up by the definition of the process that acts.
ghost use Rattle.std.specs.Prelude.{◌≡◌, List, length};
ghost use Rattle.model.specs.Resolved as Resolved;
ghost use Rattle.rules.specs.Listing as rules;
ghost use Rattle.machine.specs.State.{State};
ghost use Rattle.machine.specs.Report.{report_length, report_of};
ghost use Rattle.shares.specs.Shared.{Shared};

use listing::Entry;

// One sum of weights for each definition, then zeros; a handshake counts for its sender.
pub fn share(listing: &[u64], count: usize, state: &[i64], report: &mut [u64])
    requires { ((m : Resolved.Model) × (s : State) × (es : List rules.Entry) × Shared state.now listing.now count m s es) × (length report.old ≡ report_length) }
    ensures { (m : Resolved.Model) (s : State) (es : List rules.Entry) → Shared state.now listing.now count m s es → report.new ≡ report_of m s es }
{
    report.fill(0);
    for row in listing::rows_of(listing, count) {
        let entry = Entry::from(*row);
        let definition = state::definition_at(state, entry.place);
        report[definition] += entry.weight;
    }
}
