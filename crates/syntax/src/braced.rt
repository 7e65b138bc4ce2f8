// Reads action and rate in their braces, after the `{`.
ghost use Rattle.std.specs.Prelude.{◌≡◌, [], ◌∷◌, ◌++◌, ◌+◌, ◌≤◌, ◌<◌, get_or};
ghost use Rattle.token.specs.Kind as kind;
ghost use Rattle.grammar.specs.Machine.{Want, Factors', Terms', ThirdItem, Braced, LoneScale, a_rate, the_rate, the_deed};
ghost use Rattle.grammar.specs.Follows.{Follows};
ghost use Rattle.grammar.specs.Syntax.{rate_at};
ghost use Rattle.tree.specs.Table;
ghost use Rattle.tree.specs.Reading.{place, place_counted, Extended, Tallied};
ghost use Rattle.syntax.specs.Processes.{Spare};
ghost use Rattle.syntax.specs.Braces.{flat_closed, flat_rest, rest_at, Rating, Inside, Seconds, Either};

use crate::left::Left;
use crate::named::Named;
use crate::spot::Spot;
use crate::{action, channel, expression, rate};
use token::Kind;
use tree::{NodeKind, Read};

// The token after the `}`, the root of the rate and that of the action; or the token that doesn't fit.
// A tuple, as the answers of crate tree are.
pub type Roots = Result<(usize, usize, usize), usize>;

// A rate and the `}` after it; the action before it is on the left.
pub fn closed_lent(left: &Left, nodes: &mut [u64]) -> Roots
    ensures follows { Follows left.now.toks.now left.now.at (a_rate ++ Want kind.close_curly ∷ []) (place_counted result) }
    ensures tallied { Tallied flat_closed (λ v. 0) (λ t v. Table.Rate t (rate_at v left.now.at)) left.now.toks.now nodes.old nodes.new left.now.at (left.now.root + 1) left.now.root result }
    ensures spare { Spare left.now.at (left.now.root + 1) left.now.root result }
{
    let (n, root) = rate::rate(left.toks, left.at, nodes, left.root + 1)?;
    if token::peek(left.toks, n) != b'}' {
        return Err(n);
    }
    Ok((n + 1, root, left.root))
}

// The same of a Left by value.
pub fn closed(left: Left, nodes: &mut [u64]) -> Roots
    ensures follows { Follows left.entry.toks.now left.entry.at (a_rate ++ Want kind.close_curly ∷ []) (place_counted result) }
    ensures tallied { Tallied flat_closed (λ v. 0) (λ t v. Table.Rate t (rate_at v left.entry.at)) left.entry.toks.now nodes.old nodes.new left.entry.at (left.entry.root + 1) left.entry.root result }
    ensures spare { Spare left.entry.at (left.entry.root + 1) left.entry.root result }
{
    closed_lent(&left, nodes)
}

// The comma after the action that is on the left, a rate and the `}`.
pub fn rated_lent(left: &Left, nodes: &mut [u64]) -> Roots
    ensures follows { Follows left.now.toks.now left.now.at (the_rate ++ Want kind.close_curly ∷ []) (place_counted result) }
    ensures rating { Rating left.now.toks.now nodes.old nodes.new left.now.at left.now.root result }
    ensures spare { Spare (left.now.at + 1) (left.now.root + 1) left.now.root result }
{
    let spot = left.spot();
    if spot.peek() != b',' {
        return Err(left.at);
    }
    closed_lent(&spot.after(left.at + 1, left.root), nodes)
}

// The same of a Left by value.
pub fn rated(left: Left, nodes: &mut [u64]) -> Roots
    ensures follows { Follows left.entry.toks.now left.entry.at (the_rate ++ Want kind.close_curly ∷ []) (place_counted result) }
    ensures rating { Rating left.entry.toks.now nodes.old nodes.new left.entry.at left.entry.root result }
    ensures spare { Spare (left.entry.at + 1) (left.entry.root + 1) left.entry.root result }
{
    rated_lent(&left, nodes)
}

// What follows a channel's first two items, which are at `first` and on the left, up to the `}`; they left a token without a node.
pub fn second_lent(left: &Left, nodes: &mut [u64], first: usize) -> Roots
    requires spare { left.now.root + 1 < left.now.at }
    requires first_le_root { first ≤ left.now.root }
    ensures follows { Follows left.now.toks.now left.now.at (ThirdItem ∷ the_deed ++ Want kind.close_curly ∷ []) (place_counted result) }
    ensures seconds { Seconds left.now.toks.now nodes.old nodes.new left.now.at first left.now.root result }
{
    let (n, root) = channel::thirds(left.toks, left.at, nodes, first, left.root)?;
    let (m, deed) = action::deed(left.toks, n, nodes, root)?;
    rated_lent(&left.spot().after(m, deed), nodes)
}

// The same of a Left by value.
pub fn second(left: Left, nodes: &mut [u64], first: usize) -> Roots
    requires spare { left.root + 1 < left.at }
    requires first_le_root { first ≤ left.root }
    ensures follows { Follows left.entry.toks.now left.entry.at (ThirdItem ∷ the_deed ++ Want kind.close_curly ∷ []) (place_counted result) }
    ensures seconds { Seconds left.entry.toks.now nodes.old nodes.new left.entry.at first left.entry.root result }
{
    second_lent(&left, nodes, first)
}

// What follows an item's first atom, which is on the left.
pub fn rest_lent(left: &Left, nodes: &mut [u64]) -> Read
    ensures follows { Follows left.now.toks.now left.now.at (Factors' ∷ Terms' ∷ []) (place result) }
    ensures extended { Extended flat_rest (λ x p. rest_at x p left.now.at) Table.Expr Table.Expr left.now.toks.now nodes.old nodes.new left.now.at left.now.root result }
{
    let (n, r) = expression::factors(left.toks, left.at, nodes, left.root)?;
    expression::terms(left.toks, n, nodes, r)
}

// The same of a Left by value.
pub fn rest(left: Left, nodes: &mut [u64]) -> Read
    ensures follows { Follows left.entry.toks.now left.entry.at (Factors' ∷ Terms' ∷ []) (place result) }
    ensures extended { Extended flat_rest (λ x p. rest_at x p left.entry.at) Table.Expr Table.Expr left.entry.toks.now nodes.old nodes.new left.entry.at left.entry.root result }
{
    rest_lent(&left, nodes)
}

// After a name and a comma, what may be a rate's number or name, or an item's, perhaps times an atom: the last of its tokens is `digits`, its node is of the one kind or the other.
pub fn undecided_lent(
    named: &Named<{ b',' }>,
    nodes: &mut [u64],
    digits: usize,
    rate: u8,
    item: u8,
) -> Roots
    requires either { Either named.now.spot.toks.now (named.now.spot.at + 1 + 1) digits rate item }
    ensures follows { Follows named.now.spot.toks.now (digits + 1) (LoneScale ∷ Want kind.close_curly ∷ []) (place_counted result) }
    ensures inside { Inside named.now.spot.toks.now nodes.old nodes.new named.now.spot.at named.now.spot.used result }
{
    let spot = named.spot;
    let left = spot.used + 1;
    let at = digits + 1;
    let (n, root) = if token::peek(spot.toks, at) == b'*' {
        let (m, r) = expression::atom(spot.toks, at + 1, nodes, left + 1)?;
        (m, r + 1)
    } else {
        (at, left)
    };
    let waits = token::peek(spot.toks, n) == b'}';
    let (first, scale, product) = if waits {
        (NodeKind::WAIT, rate, NodeKind::SCALED)
    } else {
        (NodeKind::NAMED, item, NodeKind::TIMES)
    };
    tree::leaf(nodes, spot.used, first, spot.at);
    tree::leaf(nodes, left, scale, digits);
    if left < root {
        tree::pair(nodes, root, product, left);
    }
    if waits {
        return Ok((n + 1, root, spot.used));
    }
    let (m, mid) = rest_lent(&spot.after(n, root), nodes)?;
    second_lent(&spot.after(m, mid), nodes, spot.used)
}

// The same of a Named by value.
pub fn undecided(
    named: Named<{ b',' }>,
    nodes: &mut [u64],
    digits: usize,
    rate: u8,
    item: u8,
) -> Roots
    requires either { Either named.spot.toks.now (named.spot.at + 1 + 1) digits rate item }
    ensures follows { Follows named.entry.spot.toks.now (digits + 1) (LoneScale ∷ Want kind.close_curly ∷ []) (place_counted result) }
    ensures inside { Inside named.entry.spot.toks.now nodes.old nodes.new named.entry.spot.at named.entry.spot.used result }
{
    undecided_lent(&named, nodes, digits, rate, item)
}

// A name and a comma, and what follows: a rate, or a channel's second item.
pub fn lone_lent(named: &Named<{ b',' }>, nodes: &mut [u64]) -> Roots
    ensures follows { Follows named.now.spot.toks.now named.now.spot.at (Braced ∷ Want kind.close_curly ∷ []) (place_counted result) }
    ensures inside { Inside named.now.spot.toks.now nodes.old nodes.new named.now.spot.at named.now.spot.used result }
{
    let spot = named.spot;
    let n = spot.at + 1 + 1;
    match token::peek(spot.toks, n) {
        Kind::NAME => undecided_lent(named, nodes, n, NodeKind::SCALE_NAME, NodeKind::NAMED),
        Kind::WHOLE => undecided_lent(named, nodes, n, NodeKind::NUMBER, NodeKind::LITERAL),
        b'-' => lone_minus_lent(named, nodes),
        Kind::DECIMAL => {
            tree::leaf(nodes, spot.used, NodeKind::WAIT, spot.at);
            closed_lent(&spot.after(n, spot.used), nodes)
        }
        _ => {
            tree::leaf(nodes, spot.used, NodeKind::NAMED, spot.at);
            let (m, mid) = expression::expr(spot.toks, n, nodes, spot.used + 1)?;
            second_lent(&spot.after(m, mid), nodes, spot.used)
        }
    }
}

// The same of a Named by value.
pub fn lone(named: Named<{ b',' }>, nodes: &mut [u64]) -> Roots
    ensures follows { Follows named.entry.spot.toks.now named.entry.spot.at (Braced ∷ Want kind.close_curly ∷ []) (place_counted result) }
    ensures inside { Inside named.entry.spot.toks.now nodes.old nodes.new named.entry.spot.at named.entry.spot.used result }
{
    lone_lent(&named, nodes)
}

// A name, a comma and a `-`, and what follows.
pub fn lone_minus_lent(named: &Named<{ b',' }>, nodes: &mut [u64]) -> Roots
    requires at_value_2 { get_or named.now.spot.toks.now (named.now.spot.at + 1 + 1) 0 ≡ kind.minus }
    ensures follows { Follows named.now.spot.toks.now named.now.spot.at (Braced ∷ Want kind.close_curly ∷ []) (place_counted result) }
    ensures inside { Inside named.now.spot.toks.now nodes.old nodes.new named.now.spot.at named.now.spot.used result }
{
    let spot = named.spot;
    let n = spot.at + 1 + 1;
    let digits = n + 1;
    match token::peek(spot.toks, digits) {
        Kind::WHOLE => undecided_lent(
            named,
            nodes,
            digits,
            NodeKind::NEGATIVE_NUMBER,
            NodeKind::NEGATIVE,
        ),
        Kind::DECIMAL => {
            tree::leaf(nodes, spot.used, NodeKind::WAIT, spot.at);
            closed_lent(&spot.after(n, spot.used), nodes)
        }
        _ => Err(digits),
    }
}

// The same of a Named by value.
pub fn lone_minus(named: Named<{ b',' }>, nodes: &mut [u64]) -> Roots
    requires at_value_2 { get_or named.spot.toks.now (named.spot.at + 1 + 1) 0 ≡ kind.minus }
    ensures follows { Follows named.entry.spot.toks.now named.entry.spot.at (Braced ∷ Want kind.close_curly ∷ []) (place_counted result) }
    ensures inside { Inside named.entry.spot.toks.now nodes.old nodes.new named.entry.spot.at named.entry.spot.used result }
{
    lone_minus_lent(&named, nodes)
}

// Action, comma, rate and `}`.
pub fn braced_lent(spot: &Spot, nodes: &mut [u64]) -> Roots
    ensures follows { Follows spot.now.toks.now spot.now.at (Braced ∷ Want kind.close_curly ∷ []) (place_counted result) }
    ensures inside { Inside spot.now.toks.now nodes.old nodes.new spot.now.at spot.now.used result }
{
    match spot.peek() {
        b'~' => {
            let (n, root) = action::check(spot.toks, spot.at, nodes, spot.used)?;
            rated_lent(&spot.after(n, root), nodes)
        }
        b'@' => {
            let (n, root) = action::handshake(spot.toks, spot.at, nodes, spot.used)?;
            rated_lent(&spot.after(n, root), nodes)
        }
        Kind::NAME if token::peek(spot.toks, spot.at + 1) == b',' => lone_lent(
            &Named { spot: *spot },
            nodes,
        ),
        _ => {
            let (n, root) = action::beacon(spot.toks, spot.at, nodes, spot.used)?;
            rated_lent(&spot.after(n, root), nodes)
        }
    }
}

// The same of a Spot by value.
pub fn braced(spot: Spot, nodes: &mut [u64]) -> Roots
    ensures follows { Follows spot.entry.toks.now spot.entry.at (Braced ∷ Want kind.close_curly ∷ []) (place_counted result) }
    ensures inside { Inside spot.entry.toks.now nodes.old nodes.new spot.entry.at spot.entry.used result }
{
    braced_lent(&spot, nodes)
}
