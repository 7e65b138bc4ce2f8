// Reads numbers and rates.
ghost use Rattle.std.specs.Prelude.{[], ◌∷◌, ◌≤◌};
ghost use Rattle.grammar.specs.Grammar.{flat_number, flat_scale, flat_rate};
ghost use Rattle.grammar.specs.Machine.{Unsigned, Number', Scale', a_rate};
ghost use Rattle.grammar.specs.Follows.{Follows};
ghost use Rattle.grammar.specs.Syntax.{number_at, scale_at, rate_at};
ghost use Rattle.tree.specs.Table;
ghost use Rattle.tree.specs.Reading.{place, Ready, Parsed};
ghost use Rattle.syntax.specs.Rate.{negative_number, flat_unsigned, HoldsUnsigned};

use crate::expression;
use token::Kind;
use tree::{NodeKind, Read};

// A number without `-`; `base` is its node's kind if it is whole.
#[tactic(auto, unfolding(tree::specs::Node::number_kind))]
pub fn unsigned(toks: &[u8], at: usize, nodes: &mut [u64], used: usize, base: u8) -> Read
    requires ready { Ready toks.now at used }
    requires base_le_negative_number { base ≤ negative_number }
    ensures follows { Follows toks.now at (Unsigned ∷ []) (place result) }
    ensures parsed { Parsed flat_unsigned (HoldsUnsigned base at) toks.now nodes.old nodes.new at used result }
{
    match token::peek(toks, at) {
        Kind::WHOLE => {
            tree::leaf(nodes, used, base, at);
            Ok((at + 1, used))
        }
        Kind::DECIMAL => {
            tree::leaf(nodes, used, base + NodeKind::DECIMAL, at);
            Ok((at + 1, used))
        }
        _ => Err(at),
    }
}

// A number, perhaps with `-` before it.
#[tactic(auto, unfolding(tree::specs::Node::number_kind))]
pub fn number(toks: &[u8], at: usize, nodes: &mut [u64], used: usize) -> Read
    requires { Ready toks.now at used }
    ensures follows { Follows toks.now at (Number' ∷ []) (place result) }
    ensures parsed { Parsed flat_number (λ t n. Table.Number t (number_at n at)) toks.now nodes.old nodes.new at used result }
{
    if token::peek(toks, at) == b'-' {
        return unsigned(toks, at + 1, nodes, used, NodeKind::NEGATIVE_NUMBER);
    }
    unsigned(toks, at, nodes, used, NodeKind::NUMBER)
}

// A number or a name.
pub fn scale(toks: &[u8], at: usize, nodes: &mut [u64], used: usize) -> Read
    requires { Ready toks.now at used }
    ensures follows { Follows toks.now at (Scale' ∷ []) (place result) }
    ensures parsed { Parsed flat_scale (λ t s. Table.Scale t (scale_at s at)) toks.now nodes.old nodes.new at used result }
{
    if token::peek(toks, at) == Kind::NAME {
        tree::leaf(nodes, used, NodeKind::SCALE_NAME, at);
        return Ok((at + 1, used));
    }
    number(toks, at, nodes, used)
}

// A scale, perhaps times an atom.
// One generic function for this and `set::part` would be longer than the two: a trait with two readers, a sign and a kind, and twelve definitions of what they read.
pub fn rate(toks: &[u8], at: usize, nodes: &mut [u64], used: usize) -> Read
    requires { Ready toks.now at used }
    ensures follows { Follows toks.now at (a_rate) (place result) }
    ensures parsed { Parsed flat_rate (λ t r. Table.Rate t (rate_at r at)) toks.now nodes.old nodes.new at used result }
{
    let (n, left) = scale(toks, at, nodes, used)?;
    if token::peek(toks, n) != b'*' {
        return Ok((n, left));
    }
    let (m, r) = expression::atom(toks, n + 1, nodes, left + 1)?;
    let root = r + 1;
    tree::pair(nodes, root, NodeKind::SCALED, left);
    Ok((m, root))
}
