// Reads actions.
ghost use Rattle.std.specs.Prelude.{◌≡◌, [], ◌∷◌, ◌++◌, ◌+◌, ◌<◌, get_or};
ghost use Rattle.token.specs.Kind as kind;
ghost use Rattle.grammar.specs.Grammar.{flat_action};
ghost use Rattle.grammar.specs.Machine.{Want, BoundNames, ChannelEnd, HandEnd, a_channel, the_values, the_sets, the_names};
ghost use Rattle.grammar.specs.Follows.{Follows};
ghost use Rattle.grammar.specs.Syntax.{action_at};
ghost use Rattle.tree.specs.Table;
ghost use Rattle.tree.specs.Reading.{place, Ready, Parsed, Extended};
ghost use Rattle.syntax.specs.Names.{Listing};
ghost use Rattle.syntax.specs.Actions.{flat_sent, flat_heard, flat_deed, Sent, Heard, deed_at};

use crate::channel;
use crate::entries::{Set, Value, entries_at};
use crate::point::Point;
use token::Kind;
use tree::{Members, NodeKind, Read};

// Names parted by commas and the bracket after them: the next token, and how many names.
pub fn names(point: Point, close: u8) -> Members
    requires close_nonzero { (0 < close) × (close ≡ kind.comma → ⊥) }
    ensures follows { Follows point.entry.toks.now point.entry.at (the_names ++ Want close ∷ []) (place result) }
    ensures listing { Listing point.entry.toks.now point.entry.at close result }
{
    let Point { toks, at } = point;
    if token::peek(toks, at) != Kind::NAME {
        return Err(at);
    }
    let n = at + 1;
    let t = token::peek(toks, n);
    if t == close {
        return Ok((n + 1, 1));
    }
    if t != b',' {
        return Err(n);
    }
    let (m, count) = names(Point { toks, at: n + 1 }, close)?;
    Ok((m, count + 1))
}

// The values that are sent, from the sign on; the channel is on the left, `kind` is that of the action.
pub fn sending(toks: &[u8], at: usize, nodes: &mut [u64], left: usize, kind: u8) -> Read
    requires ready { Ready toks.now at (left + 1) }
    requires nonzero { 0 < get_or toks.now at 0 }
    ensures follows { Follows toks.now (at + 1) (the_values) (place result) }
    ensures extended { Extended (flat_sent (get_or toks.now at 0)) (λ c v. (c, v)) Table.Channel (Sent kind at) toks.now nodes.old nodes.new at left result }
{
    let (n, r) = entries_at::<Value>(toks, at + 1, nodes, left + 1)?;
    let root = r + 1;
    tree::pair(nodes, root, kind, left);
    Ok((n, root))
}

// The sets of a receive, from its sign on, and the names it binds, if any; `kind` is that of a receive without names.
pub fn receiving(toks: &[u8], at: usize, nodes: &mut [u64], left: usize, kind: u8) -> Read
    requires ready { Ready toks.now at (left + 1) }
    requires nonzero { 0 < get_or toks.now at 0 }
    requires kind_bound { kind < 255 }
    ensures follows { Follows toks.now (at + 1) (the_sets ++ BoundNames ∷ []) (place result) }
    ensures extended { Extended (flat_heard (get_or toks.now at 0)) (λ c h. (c, h)) Table.Channel (Heard kind at) toks.now nodes.old nodes.new at left result }
{
    let (n, r) = entries_at::<Set>(toks, at + 1, nodes, left + 1)?;
    let root = r + 1;
    if token::peek(toks, n) != b'(' {
        tree::pair(nodes, root, kind, left);
        return Ok((n, root));
    }
    let first = n + 1;
    let (m, count) = names(Point { toks, at: first }, b')')?;
    tree::node(nodes, root, kind + 1, first, left, count);
    Ok((m, root))
}

// What is done on the channel that is on the left: a launch, kill or receive.
pub fn deed(toks: &[u8], at: usize, nodes: &mut [u64], left: usize) -> Read
    requires { Ready toks.now at (left + 1) }
    ensures follows { Follows toks.now at (ChannelEnd ∷ []) (place result) }
    ensures extended { Extended flat_deed (λ c d. deed_at c d at) Table.Channel Table.Action toks.now nodes.old nodes.new at left result }
{
    match token::peek(toks, at) {
        b'!' => sending(toks, at, nodes, left, NodeKind::LAUNCH),
        b'#' => sending(toks, at, nodes, left, NodeKind::KILL),
        b'?' => receiving(toks, at, nodes, left, NodeKind::RECEIVE),
        _ => Err(at),
    }
}

// A launch, kill or receive, from its channel on.
pub fn beacon(toks: &[u8], at: usize, nodes: &mut [u64], used: usize) -> Read
    requires { Ready toks.now at used }
    ensures follows { Follows toks.now at (a_channel ++ ChannelEnd ∷ []) (place result) }
    ensures parsed { Parsed flat_action (λ t a. Table.Action t (action_at a at)) toks.now nodes.old nodes.new at used result }
{
    let (n, left) = channel::channel(toks, at, nodes, used)?;
    deed(toks, n, nodes, left)
}

// A check, from its `~` on.
pub fn check(toks: &[u8], at: usize, nodes: &mut [u64], used: usize) -> Read
    requires ready { Ready toks.now at used }
    requires at_value { get_or toks.now at 0 ≡ kind.tilde }
    ensures follows { Follows toks.now at (Want kind.tilde ∷ a_channel ++ Want kind.query ∷ the_sets) (place result) }
    ensures parsed { Parsed flat_action (λ t a. Table.Action t (action_at a at)) toks.now nodes.old nodes.new at used result }
{
    let (n, left) = channel::channel(toks, at + 1, nodes, used)?;
    if token::peek(toks, n) != b'?' {
        return Err(n);
    }
    let (m, r) = entries_at::<Set>(toks, n + 1, nodes, left + 1)?;
    let root = r + 1;
    tree::pair(nodes, root, NodeKind::CHECK, left);
    Ok((m, root))
}

// A handshake, from its `@` on.
pub fn handshake(toks: &[u8], at: usize, nodes: &mut [u64], used: usize) -> Read
    requires ready { Ready toks.now at used }
    requires at_value { get_or toks.now at 0 ≡ kind.at }
    ensures follows { Follows toks.now at (Want kind.at ∷ a_channel ++ HandEnd ∷ []) (place result) }
    ensures parsed { Parsed flat_action (λ t a. Table.Action t (action_at a at)) toks.now nodes.old nodes.new at used result }
{
    let (n, left) = channel::channel(toks, at + 1, nodes, used)?;
    match token::peek(toks, n) {
        b'!' => sending(toks, n, nodes, left, NodeKind::HAND_SEND),
        b'?' => receiving(toks, n, nodes, left, NodeKind::HAND_RECEIVE),
        _ => Err(n),
    }
}
