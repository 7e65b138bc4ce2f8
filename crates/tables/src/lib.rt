#![tactic(auto)]

// The tables of a settled model; what they hold is said in specs/.
ghost use Rattle.std.specs.Prelude.{◌≡◌, List, ℕ, ◌+◌, ◌≤◌, length};
ghost use Rattle.tables.specs.Represents.{Sums};

use tree::NodeKind;

// The nodes; for each sum the root of its branches and its scope; where the model's root stands, and how many variables it has.
// What they hold (Represents, Branches, Expr) stands in the contracts: it goes by recursion on a model that the tables don't name, which a ghost field may not. The predicates take the fields that they speak of, some of them all five.
// No names::Lists: names stands above this crate.
#[derive(Clone, Copy)]
pub struct Tables<'a> {
    pub nodes: &'a [u64],
    pub roots: &'a [u16],
    pub scopes: &'a [u16],
    pub root: usize,
    pub variables: usize,
}

// How many sums the body at k has: all but the last stand beside another, in the nodes from k down.
// By `names::run_of` it would be a line shorter, and these tables, with all that evaluates over them, would rest on the crate that judges names.
pub fn count_sums(nodes: &[u64], k: usize) -> usize
    requires { (ns : List ℕ) × Sums nodes.now ns k }
    ensures value { (ns : List ℕ) → Sums nodes.now ns k → result ≡ length ns }
    ensures upper_bound { result ≤ k + 1 }
{
    let beside = nodes[..=k]
        .iter()
        .rev()
        .take_while(|node| tree::kind_of(**node) == NodeKind::BESIDE)
        .count();
    beside + 1
}
