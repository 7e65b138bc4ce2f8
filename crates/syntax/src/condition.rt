// Reads conditions.
ghost use Rattle.std.specs.Prelude.{◌≡◌, [], ◌∷◌, ◌++◌, ◌+◌, ◌≤◌};
ghost use Rattle.grammar.specs.Grammar.{flat_test, flat_ands, flat_ors, flat_cond};
ghost use Rattle.grammar.specs.Machine.{Relation', Ands', Ors', an_expr, a_test, a_cond};
ghost use Rattle.grammar.specs.Follows.{Follows};
ghost use Rattle.grammar.specs.Syntax.{test_at, ands_at, conjunction_at, ors_at, cond_at};
ghost use Rattle.tree.specs.Table;
ghost use Rattle.tree.specs.Reading.{place, Ready, Parsed, Extended};
ghost use Rattle.syntax.specs.Signs.{relation_signs, sign_kind};
ghost use Rattle.syntax.specs.Condition.{turned, flat_related, HoldsRelated, flat_conjunction};

use crate::expression;
use token::Kind;
use tree::{NodeKind, Read};

// The node that a relation's sign makes.
#[tactic(auto, unfolding(crate::specs::Signs::sign_kind, tree::specs::Node::relation_kind))]
pub fn relation_kind(t: u8) -> Option<u8>
    ensures { result ≡ sign_kind relation_signs t }
{
    match t {
        b'<' => Some(NodeKind::LESS),
        Kind::AT_MOST => Some(NodeKind::AT_MOST),
        b'>' => Some(NodeKind::GREATER),
        Kind::AT_LEAST => Some(NodeKind::AT_LEAST),
        Kind::SAME => Some(NodeKind::SAME),
        Kind::DIFFERS => Some(NodeKind::DIFFERS),
        _ => None,
    }
}

// A relation; `more` is added to its node's kind.
pub fn compare(toks: &[u8], at: usize, nodes: &mut [u64], used: usize, more: u8) -> Read
    requires ready { Ready toks.now at used }
    requires more_le_turned { more ≤ turned }
    ensures follows { Follows toks.now at (an_expr ++ Relation' ∷ an_expr) (place result) }
    ensures parsed { Parsed flat_related (HoldsRelated more at) toks.now nodes.old nodes.new at used result }
{
    let (n, left) = expression::expr(toks, at, nodes, used)?;
    let Some(kind) = relation_kind(token::peek(toks, n)) else {
        return Err(n);
    };
    let (m, r) = expression::expr(toks, n + 1, nodes, left + 1)?;
    let root = r + 1;
    tree::pair(nodes, root, kind + more, left);
    Ok((m, root))
}

// A relation, perhaps after a `~`.
pub fn test(toks: &[u8], at: usize, nodes: &mut [u64], used: usize) -> Read
    requires { Ready toks.now at used }
    ensures follows { Follows toks.now at (a_test) (place result) }
    ensures parsed { Parsed flat_test (λ t c. Table.Cond t (test_at c at)) toks.now nodes.old nodes.new at used result }
{
    if token::peek(toks, at) == b'~' {
        return compare(toks, at + 1, nodes, used, NodeKind::TURNED);
    }
    compare(toks, at, nodes, used, 0)
}

// What `&` joins to the condition on the left.
// One generic function for this, `ors` and `set::parts` would be longer than the three: a trait with a sign and a reader, and eleven definitions of what each reads.
pub fn ands(toks: &[u8], at: usize, nodes: &mut [u64], left: usize) -> Read
    requires { Ready toks.now at (left + 1) }
    ensures follows { Follows toks.now at (Ands' ∷ []) (place result) }
    ensures extended { Extended flat_ands (λ c a. ands_at c a at) Table.Cond Table.Cond toks.now nodes.old nodes.new at left result }
{
    if token::peek(toks, at) != b'&' {
        return Ok((at, left));
    }
    let (n, r) = test(toks, at + 1, nodes, left + 1)?;
    let root = r + 1;
    tree::pair(nodes, root, NodeKind::BOTH, left);
    ands(toks, n, nodes, root)
}

// A test and what `&` joins to it.
pub fn conjunction(toks: &[u8], at: usize, nodes: &mut [u64], used: usize) -> Read
    requires { Ready toks.now at used }
    ensures follows { Follows toks.now at (a_test ++ Ands' ∷ []) (place result) }
    ensures parsed { Parsed flat_conjunction (λ t p. Table.Cond t (conjunction_at p.0 p.1 at)) toks.now nodes.old nodes.new at used result }
{
    let (n, r) = test(toks, at, nodes, used)?;
    ands(toks, n, nodes, r)
}

// What `|` joins to the condition on the left.
pub fn ors(toks: &[u8], at: usize, nodes: &mut [u64], left: usize) -> Read
    requires { Ready toks.now at (left + 1) }
    ensures follows { Follows toks.now at (Ors' ∷ []) (place result) }
    ensures extended { Extended flat_ors (λ c o. ors_at c o at) Table.Cond Table.Cond toks.now nodes.old nodes.new at left result }
{
    if token::peek(toks, at) != b'|' {
        return Ok((at, left));
    }
    let (n, r) = conjunction(toks, at + 1, nodes, left + 1)?;
    let root = r + 1;
    tree::pair(nodes, root, NodeKind::EITHER, left);
    ors(toks, n, nodes, root)
}

// Tests joined by `&`, and these by `|`.
pub fn condition(toks: &[u8], at: usize, nodes: &mut [u64], used: usize) -> Read
    requires { Ready toks.now at used }
    ensures follows { Follows toks.now at (a_cond) (place result) }
    ensures parsed { Parsed flat_cond (λ t c. Table.Cond t (cond_at c at)) toks.now nodes.old nodes.new at used result }
{
    let (n, r) = conjunction(toks, at, nodes, used)?;
    ors(toks, n, nodes, r)
}
