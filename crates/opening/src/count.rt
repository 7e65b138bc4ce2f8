// Counts the processes that a model starts with, in its tables.
ghost use Rattle.std.specs.Prelude.{◌≡◌, List, ℕ, ◌*◌, ◌≤◌};
ghost use Rattle.tree.specs.Node.{field};
ghost use Rattle.model.specs.Resolved;
ghost use Rattle.model.specs.Opening.{sums_in, processes_at_start};
ghost use Rattle.opening.specs.Counts.{Countable, ItemAt, Counts};

use crate::Limits;
use tree::NodeKind;

// How many processes the item of the system line at k starts.
fn item_processes(nodes: &[u64], first: usize, k: usize) -> usize
    requires { (ds : List Resolved.Defined) × (s : Resolved.Start) × ItemAt nodes.now first ds s k }
    ensures value { (ds : List Resolved.Defined) (s : Resolved.Start) → ItemAt nodes.now first ds s k → result ≡ s.count * sums_in ds s.definition }
    ensures upper_bound { result ≤ field * field }
{
    let item = nodes[k];
    let d = first - tree::token_of(item);
    let body = tree::left_of(nodes[d]) - 1;
    tree::left_of(item) * tables::count_sums(nodes, body)
}

// How many processes the system line at `line` starts; above the limit, some number above it.
pub fn start_count(nodes: &[u64], first: usize, line: usize) -> usize
    requires { (m : Resolved.Model) × Countable nodes.now first line m }
    ensures { (m : Resolved.Model) → Countable nodes.now first line m → Counts result (processes_at_start m.definitions m.starts) }
{
    let mut count = 0;
    let mut at = line;
    // A while: the line's last item is the first node of another kind; to count its links first would read them twice.
    while tree::kind_of(nodes[at]) == NodeKind::SYSTEM {
        count += item_processes(nodes, first, tree::left_of(nodes[at]));
        if Limits::PROCESSES < count {
            return count;
        }
        at -= 1;
    }
    count + item_processes(nodes, first, at)
}
