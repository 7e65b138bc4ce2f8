// Reads sets.
ghost use Rattle.std.specs.Prelude.{◌≡◌, [], ◌∷◌, ◌+◌};
ghost use Rattle.grammar.specs.Grammar.{flat_part, flat_parts, flat_set};
ghost use Rattle.grammar.specs.Machine.{Parts', a_part, a_set};
ghost use Rattle.grammar.specs.Follows.{Follows};
ghost use Rattle.grammar.specs.Syntax.{part_at, parts_at, set_at};
ghost use Rattle.tree.specs.Table;
ghost use Rattle.tree.specs.Reading.{place, Ready, Parsed, Extended};
ghost use Rattle.syntax.specs.Signs.{join_signs, sign_kind};

use crate::expression;
use token::Kind;
use tree::{NodeKind, Read};

// The node that a sign between parts makes.
#[tactic(auto, unfolding(crate::specs::Signs::sign_kind, tree::specs::Node::join_kind))]
pub fn join_kind(t: u8) -> Option<u8>
    ensures { result ≡ sign_kind join_signs t }
{
    match t {
        b'\\' => Some(NodeKind::WITHOUT),
        Kind::UNION => Some(NodeKind::UNION),
        Kind::INTERSECTION => Some(NodeKind::INTER),
        _ => None,
    }
}

// An expression or a range. Beside `rate::rate` stands why this and the reader there are no one function.
pub fn part(toks: &[u8], at: usize, nodes: &mut [u64], used: usize) -> Read
    requires { Ready toks.now at used }
    ensures follows { Follows toks.now at (a_part) (place result) }
    ensures parsed { Parsed flat_part (λ t p. Table.Set t (part_at p at)) toks.now nodes.old nodes.new at used result }
{
    let (n, left) = expression::expr(toks, at, nodes, used)?;
    if token::peek(toks, n) != Kind::RANGE {
        return Ok((n, left));
    }
    let (m, r) = expression::expr(toks, n + 1, nodes, left + 1)?;
    let root = r + 1;
    tree::pair(nodes, root, NodeKind::RANGE, left);
    Ok((m, root))
}

// What the set on the left is joined with. Beside `condition::ands` stands why the two are no one function.
pub fn parts(toks: &[u8], at: usize, nodes: &mut [u64], left: usize) -> Read
    requires { Ready toks.now at (left + 1) }
    ensures follows { Follows toks.now at (Parts' ∷ []) (place result) }
    ensures extended { Extended flat_parts (λ s r. parts_at s r at) Table.Set Table.Set toks.now nodes.old nodes.new at left result }
{
    let Some(kind) = join_kind(token::peek(toks, at)) else {
        return Ok((at, left));
    };
    let (n, r) = part(toks, at + 1, nodes, left + 1)?;
    let root = r + 1;
    tree::pair(nodes, root, kind, left);
    parts(toks, n, nodes, root)
}

// Parts joined by `\`, `union` and `inter`.
pub fn set(toks: &[u8], at: usize, nodes: &mut [u64], used: usize) -> Read
    requires { Ready toks.now at used }
    ensures follows { Follows toks.now at (a_set) (place result) }
    ensures parsed { Parsed flat_set (λ t s. Table.Set t (set_at s at)) toks.now nodes.old nodes.new at used result }
{
    let (n, r) = part(toks, at, nodes, used)?;
    parts(toks, n, nodes, r)
}
