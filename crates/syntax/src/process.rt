// Reads prefixes, continuations, groups and sums, which call one another with fewer tokens left, or as many and a lower rank.
ghost use Rattle.std.specs.Prelude.{◌≡◌, [], ◌∷◌, ◌++◌, ◌+◌, ◌≤◌, get_or};
ghost use Rattle.token.specs.Kind as kind;
ghost use Rattle.grammar.specs.Grammar.{flat_prefix, flat_cont, flat_item, flat_body};
ghost use Rattle.grammar.specs.Machine.{Want, MoreArgs, Cont', Item', Items', an_expr, in_braces, the_args, a_prefix, a_sum, a_body};
ghost use Rattle.grammar.specs.Follows.{Follows};
ghost use Rattle.grammar.specs.Syntax.{exprs_at, branch_at, cont_at, item_at, sum_at, body_at, sums_prefix, sums_cont, sums_item, sums_body};
ghost use Rattle.tree.specs.Table;
ghost use Rattle.tree.specs.Reading.{place_counted, Ready, Tallied};
ghost use Rattle.syntax.specs.Judged.{written_sum, count_sum};
ghost use Rattle.syntax.specs.Processes.{flat_offer, sums_offer, offer_at, closed_exprs, flat_call, call_at, flat_item_list, sums_item_list, item_list_at, flat_group, group_at, sums_branches, branches_from, Spare};

use crate::site::Site;
use crate::spot::Spot;
use crate::{braced, condition, expression};
use token::Kind;
use tree::{Counted, NodeKind, Read};

// A guarded prefix. It has a token more than it needs for its nodes, and for its sums.
#[cycle(branches_lent_cont_lent_gated_lent_group_lent_item_lent_items_lent_offer_lent_prefix_lent_sum_lent)]
pub fn prefix_lent(site: &Site<1>, nodes: &mut [u64]) -> Counted
    ensures follows { Follows site.now.spot.toks.now site.now.spot.at (a_prefix) (place_counted result) }
    ensures tallied { Tallied flat_prefix sums_prefix (λ t p. Table.Branch t (branch_at p site.now.spot.at site.now.sums)) site.now.spot.toks.now nodes.old nodes.new site.now.spot.at site.now.spot.used site.now.sums result }
    ensures spare { Spare site.now.spot.at site.now.spot.used site.now.sums result }
{
    if site.spot.peek() == b'[' {
        return gated_lent(site, nodes);
    }
    offer_lent(site, nodes, site.spot.at)
}

// The same of a Site by value.
pub fn prefix(site: Site<1>, nodes: &mut [u64]) -> Counted
    ensures follows { Follows site.entry.spot.toks.now site.entry.spot.at (a_prefix) (place_counted result) }
    ensures tallied { Tallied flat_prefix sums_prefix (λ t p. Table.Branch t (branch_at p site.entry.spot.at site.entry.sums)) site.entry.spot.toks.now nodes.old nodes.new site.entry.spot.at site.entry.spot.used site.entry.sums result }
    ensures spare { Spare site.entry.spot.at site.entry.spot.used site.entry.sums result }
{
    prefix_lent(&site, nodes)
}

// A prefix with a gate, from its `[` on.
#[cycle(branches_lent_cont_lent_gated_lent_group_lent_item_lent_items_lent_offer_lent_prefix_lent_sum_lent)]
pub fn gated_lent(site: &Site<1>, nodes: &mut [u64]) -> Counted
    requires at_value { get_or site.now.spot.toks.now site.now.spot.at 0 ≡ kind.open_square }
    ensures follows { Follows site.now.spot.toks.now site.now.spot.at (a_prefix) (place_counted result) }
    ensures tallied { Tallied flat_prefix sums_prefix (λ t p. Table.Branch t (branch_at p site.now.spot.at site.now.sums)) site.now.spot.toks.now nodes.old nodes.new site.now.spot.at site.now.spot.used site.now.sums result }
    ensures spare { Spare site.now.spot.at site.now.spot.used site.now.sums result }
{
    let spot = site.spot;
    let (n, left) = condition::condition(spot.toks, spot.at + 1, nodes, spot.used)?;
    if token::peek(spot.toks, n) != b']' {
        return Err(n);
    }
    let arrow = n + 1;
    if token::peek(spot.toks, arrow) != Kind::ARROW {
        return Err(arrow);
    }
    let inner = Site {
        spot: spot.to(arrow + 1, left + 1),
        sums: site.sums,
    };
    let (m, r, s) = offer_lent(&inner, nodes, spot.at)?;
    let root = r + 1;
    tree::node(nodes, root, NodeKind::GATE, spot.at, left, 0);
    Ok((m, root, s))
}

// The same of a Site by value.
pub fn gated(site: Site<1>, nodes: &mut [u64]) -> Counted
    requires at_value { get_or site.spot.toks.now site.spot.at 0 ≡ kind.open_square }
    ensures follows { Follows site.entry.spot.toks.now site.entry.spot.at (a_prefix) (place_counted result) }
    ensures tallied { Tallied flat_prefix sums_prefix (λ t p. Table.Branch t (branch_at p site.entry.spot.at site.entry.sums)) site.entry.spot.toks.now nodes.old nodes.new site.entry.spot.at site.entry.spot.used site.entry.sums result }
    ensures spare { Spare site.entry.spot.at site.entry.spot.used site.entry.sums result }
{
    gated_lent(&site, nodes)
}

// Action and rate in their braces, and the continuation, if any; `first` is the first token of the prefix.
#[cycle(branches_lent_cont_lent_gated_lent_group_lent_item_lent_items_lent_offer_lent_prefix_lent_sum_lent)]
pub fn offer_lent(site: &Site<1>, nodes: &mut [u64], first: usize) -> Counted
    requires first_le_at { first ≤ site.now.spot.at }
    ensures follows { Follows site.now.spot.toks.now site.now.spot.at (Want kind.open_curly ∷ in_braces) (place_counted result) }
    ensures tallied { Tallied flat_offer sums_offer (λ t o. Table.Branch t (offer_at first o site.now.spot.at site.now.sums)) site.now.spot.toks.now nodes.old nodes.new site.now.spot.at site.now.spot.used site.now.sums result }
    ensures spare { Spare site.now.spot.at site.now.spot.used site.now.sums result }
{
    let spot = site.spot;
    if spot.peek() != b'{' {
        return Err(spot.at);
    }
    let (point, middle, left) = braced::braced_lent(&spot.next(), nodes)?;
    if token::peek(spot.toks, point) != b'.' {
        let root = middle + 1;
        tree::node(nodes, root, NodeKind::STOP, first, left, 0);
        return Ok((point, root, site.sums));
    }
    let next = Site {
        spot: spot.to(point + 1, middle + 1),
        sums: site.sums,
    };
    let (e, r, s) = cont_lent(&next, nodes)?;
    let root = r + 1;
    tree::node(nodes, root, NodeKind::DOT, first, left, middle);
    Ok((e, root, s))
}

// The same of a Site by value.
pub fn offer(site: Site<1>, nodes: &mut [u64], first: usize) -> Counted
    requires first_le_at { first ≤ site.spot.at }
    ensures follows { Follows site.entry.spot.toks.now site.entry.spot.at (Want kind.open_curly ∷ in_braces) (place_counted result) }
    ensures tallied { Tallied flat_offer sums_offer (λ t o. Table.Branch t (offer_at first o site.entry.spot.at site.entry.sums)) site.entry.spot.toks.now nodes.old nodes.new site.entry.spot.at site.entry.spot.used site.entry.sums result }
    ensures spare { Spare site.entry.spot.at site.entry.spot.used site.entry.sums result }
{
    offer_lent(&site, nodes, first)
}

// A continuation: a group, a call, or a prefix as a sum of its own.
#[cycle(branches_lent_cont_lent_gated_lent_group_lent_item_lent_items_lent_offer_lent_prefix_lent_sum_lent)]
pub fn cont_lent(site: &Site<0>, nodes: &mut [u64]) -> Counted
    ensures follows { Follows site.now.spot.toks.now site.now.spot.at (Cont' ∷ []) (place_counted result) }
    ensures tallied { Tallied flat_cont sums_cont (λ t c. Table.Cont t (cont_at c site.now.spot.at site.now.sums)) site.now.spot.toks.now nodes.old nodes.new site.now.spot.at site.now.spot.used site.now.sums result }
{
    let Site { spot, sums } = *site;
    match spot.peek() {
        b'(' => group_lent(site, nodes),
        Kind::NAME => call_lent(&spot, nodes, sums),
        _ => {
            let inner = Site {
                spot,
                sums: sums + 1,
            };
            let (n, r, s) = prefix_lent(&inner, nodes)?;
            let root = r + 1;
            tree::node(nodes, root, NodeKind::SUM, sums, 0, spot.at);
            Ok((n, root, s))
        }
    }
}

// The same of a Site by value.
pub fn cont(site: Site<0>, nodes: &mut [u64]) -> Counted
    ensures follows { Follows site.entry.spot.toks.now site.entry.spot.at (Cont' ∷ []) (place_counted result) }
    ensures tallied { Tallied flat_cont sums_cont (λ t c. Table.Cont t (cont_at c site.entry.spot.at site.entry.sums)) site.entry.spot.toks.now nodes.old nodes.new site.entry.spot.at site.entry.spot.used site.entry.sums result }
{
    cont_lent(&site, nodes)
}

// A call, from its name on.
// One generic function for this and `line::starts_lent`, and one for `args` and `line::wholes`, would be longer than the four: a trait with a reader and a kind, and sixteen definitions of what each reads.
pub fn call_lent(spot: &Spot, nodes: &mut [u64], sums: usize) -> Counted
    requires at_value { get_or spot.now.toks.now spot.now.at 0 ≡ kind.name }
    ensures follows { Follows spot.now.toks.now (spot.now.at + 1) (the_args) (place_counted result) }
    ensures tallied { Tallied flat_call (λ a. 0) (λ t a. Table.Cont t (call_at a spot.now.at)) spot.now.toks.now nodes.old nodes.new spot.now.at spot.now.used sums result }
{
    let open = spot.at + 1;
    if token::peek(spot.toks, open) != b'[' {
        return Err(open);
    }
    let n = open + 1;
    if token::peek(spot.toks, n) == b']' {
        tree::leaf(nodes, spot.used, NodeKind::CALL, spot.at);
        return Ok((n + 1, spot.used, sums));
    }
    let (m, r, count) = args(spot.toks, n, nodes, spot.used)?;
    let root = r + 1;
    tree::node(nodes, root, NodeKind::CALL_WITH, spot.at, 0, count);
    Ok((m, root, sums))
}

// The same of a Spot by value.
pub fn call(spot: Spot, nodes: &mut [u64], sums: usize) -> Counted
    requires at_value { get_or spot.toks.now spot.at 0 ≡ kind.name }
    ensures follows { Follows spot.entry.toks.now (spot.entry.at + 1) (the_args) (place_counted result) }
    ensures tallied { Tallied flat_call (λ a. 0) (λ t a. Table.Cont t (call_at a spot.entry.at)) spot.entry.toks.now nodes.old nodes.new spot.entry.at spot.entry.used sums result }
{
    call_lent(&spot, nodes, sums)
}

// Values parted by commas and the `]` after them, with their count.
pub fn args(toks: &[u8], at: usize, nodes: &mut [u64], used: usize) -> Counted
    requires { Ready toks.now at used }
    ensures follows { Follows toks.now at (an_expr ++ MoreArgs ∷ Want kind.close_square ∷ []) (place_counted result) }
    ensures tallied { Tallied closed_exprs (λ e. Table.count_exprs (exprs_at e at)) (λ t e. Table.Exprs t (exprs_at e at)) toks.now nodes.old nodes.new at used 0 result }
{
    let (n, left) = expression::expr(toks, at, nodes, used)?;
    let t = token::peek(toks, n);
    if t == b']' {
        return Ok((n + 1, left, 1));
    }
    if t != b',' {
        return Err(n);
    }
    let (m, r, count) = args(toks, n + 1, nodes, left + 1)?;
    let root = r + 1;
    tree::pair(nodes, root, NodeKind::ARGUMENT, left);
    Ok((m, root, count + 1))
}

// A group, from its `(` on.
#[cycle(branches_lent_cont_lent_gated_lent_group_lent_item_lent_items_lent_offer_lent_prefix_lent_sum_lent)]
pub fn group_lent(site: &Site<0>, nodes: &mut [u64]) -> Counted
    requires at_value { get_or site.now.spot.toks.now site.now.spot.at 0 ≡ kind.open_round }
    ensures follows { Follows site.now.spot.toks.now (site.now.spot.at + 1) (Item' ∷ Items' ∷ []) (place_counted result) }
    ensures tallied { Tallied flat_group sums_item_list (λ t g. Table.Cont t (group_at g site.now.spot.at site.now.sums)) site.now.spot.toks.now nodes.old nodes.new site.now.spot.at site.now.spot.used site.now.sums result }
{
    let inner = Site {
        spot: site.spot.next(),
        sums: site.sums,
    };
    let (n, r, s) = items_lent(&inner, nodes)?;
    let root = r + 1;
    tree::node(nodes, root, NodeKind::GROUP, site.spot.at, 0, 0);
    Ok((n, root, s))
}

// The same of a Site by value.
pub fn group(site: Site<0>, nodes: &mut [u64]) -> Counted
    requires at_value { get_or site.spot.toks.now site.spot.at 0 ≡ kind.open_round }
    ensures follows { Follows site.entry.spot.toks.now (site.entry.spot.at + 1) (Item' ∷ Items' ∷ []) (place_counted result) }
    ensures tallied { Tallied flat_group sums_item_list (λ t g. Table.Cont t (group_at g site.entry.spot.at site.entry.sums)) site.entry.spot.toks.now nodes.old nodes.new site.entry.spot.at site.entry.spot.used site.entry.sums result }
{
    group_lent(&site, nodes)
}

// The items of a group and its `)`.
// Not one generic function with `line::system_lent`, nor `branches_lent` with `body_lent`: the borrow checker covers no cycle of calls that goes through a trait's method.
#[cycle(branches_lent_cont_lent_gated_lent_group_lent_item_lent_items_lent_offer_lent_prefix_lent_sum_lent)]
pub fn items_lent(site: &Site<0>, nodes: &mut [u64]) -> Counted
    ensures follows { Follows site.now.spot.toks.now site.now.spot.at (Item' ∷ Items' ∷ []) (place_counted result) }
    ensures tallied { Tallied flat_item_list sums_item_list (λ t g. Table.Conts t (item_list_at g site.now.spot.at site.now.sums)) site.now.spot.toks.now nodes.old nodes.new site.now.spot.at site.now.spot.used site.now.sums result }
{
    let spot = site.spot;
    let (n, left, s) = item_lent(site, nodes)?;
    let t = token::peek(spot.toks, n);
    if t == b')' {
        return Ok((n + 1, left, s));
    }
    if t != Kind::BARS {
        return Err(n);
    }
    let next = Site {
        spot: spot.to(n + 1, left + 1),
        sums: s,
    };
    let (m, r, q) = items_lent(&next, nodes)?;
    let root = r + 1;
    tree::pair(nodes, root, NodeKind::ITEM, left);
    Ok((m, root, q))
}

// The same of a Site by value.
pub fn items(site: Site<0>, nodes: &mut [u64]) -> Counted
    ensures follows { Follows site.entry.spot.toks.now site.entry.spot.at (Item' ∷ Items' ∷ []) (place_counted result) }
    ensures tallied { Tallied flat_item_list sums_item_list (λ t g. Table.Conts t (item_list_at g site.entry.spot.at site.entry.sums)) site.entry.spot.toks.now nodes.old nodes.new site.entry.spot.at site.entry.spot.used site.entry.sums result }
{
    items_lent(&site, nodes)
}

// An item of a group: a group, a call or a sum.
#[cycle(branches_lent_cont_lent_gated_lent_group_lent_item_lent_items_lent_offer_lent_prefix_lent_sum_lent)]
pub fn item_lent(site: &Site<0>, nodes: &mut [u64]) -> Counted
    ensures follows { Follows site.now.spot.toks.now site.now.spot.at (Item' ∷ []) (place_counted result) }
    ensures tallied { Tallied flat_item sums_item (λ t i. Table.Cont t (item_at i site.now.spot.at site.now.sums)) site.now.spot.toks.now nodes.old nodes.new site.now.spot.at site.now.spot.used site.now.sums result }
{
    match site.spot.peek() {
        b'(' => group_lent(site, nodes),
        Kind::NAME => call_lent(&site.spot, nodes, site.sums),
        _ => sum_lent(site, nodes),
    }
}

// The same of a Site by value.
pub fn item(site: Site<0>, nodes: &mut [u64]) -> Counted
    ensures follows { Follows site.entry.spot.toks.now site.entry.spot.at (Item' ∷ []) (place_counted result) }
    ensures tallied { Tallied flat_item sums_item (λ t i. Table.Cont t (item_at i site.entry.spot.at site.entry.sums)) site.entry.spot.toks.now nodes.old nodes.new site.entry.spot.at site.entry.spot.used site.entry.sums result }
{
    item_lent(&site, nodes)
}

// Prefixes joined by `+`, with their number.
#[cycle(branches_lent_cont_lent_gated_lent_group_lent_item_lent_items_lent_offer_lent_prefix_lent_sum_lent)]
pub fn sum_lent(site: &Site<0>, nodes: &mut [u64]) -> Counted
    ensures follows { Follows site.now.spot.toks.now site.now.spot.at (a_sum) (place_counted result) }
    ensures tallied { Tallied written_sum count_sum (λ t x. Table.Sum t (sum_at x.0 x.1 site.now.spot.at site.now.sums)) site.now.spot.toks.now nodes.old nodes.new site.now.spot.at site.now.spot.used site.now.sums result }
{
    let Site { spot, sums } = *site;
    let inner = Site {
        spot,
        sums: sums + 1,
    };
    let (n, r, s) = branches_lent(&inner, nodes)?;
    let root = r + 1;
    tree::node(nodes, root, NodeKind::SUM, sums, 0, spot.at);
    Ok((n, root, s))
}

// The same of a Site by value.
pub fn sum(site: Site<0>, nodes: &mut [u64]) -> Counted
    ensures follows { Follows site.entry.spot.toks.now site.entry.spot.at (a_sum) (place_counted result) }
    ensures tallied { Tallied written_sum count_sum (λ t x. Table.Sum t (sum_at x.0 x.1 site.entry.spot.at site.entry.sums)) site.entry.spot.toks.now nodes.old nodes.new site.entry.spot.at site.entry.spot.used site.entry.sums result }
{
    sum_lent(&site, nodes)
}

// Prefixes joined by `+`.
#[cycle(branches_lent_cont_lent_gated_lent_group_lent_item_lent_items_lent_offer_lent_prefix_lent_sum_lent)]
pub fn branches_lent(site: &Site<1>, nodes: &mut [u64]) -> Counted
    ensures follows { Follows site.now.spot.toks.now site.now.spot.at (a_sum) (place_counted result) }
    ensures tallied { Tallied written_sum sums_branches (λ t x. Table.Branches t (branches_from x site.now.spot.at site.now.sums)) site.now.spot.toks.now nodes.old nodes.new site.now.spot.at site.now.spot.used site.now.sums result }
    ensures spare { Spare site.now.spot.at site.now.spot.used site.now.sums result }
{
    let spot = site.spot;
    let (n, left, s) = prefix_lent(site, nodes)?;
    if token::peek(spot.toks, n) != b'+' {
        return Ok((n, left, s));
    }
    let next = Site {
        spot: spot.to(n + 1, left + 1),
        sums: s,
    };
    let (m, r, q) = branches_lent(&next, nodes)?;
    let root = r + 1;
    tree::pair(nodes, root, NodeKind::CHOICE, left);
    Ok((m, root, q))
}

// The same of a Site by value.
pub fn branches(site: Site<1>, nodes: &mut [u64]) -> Counted
    ensures follows { Follows site.entry.spot.toks.now site.entry.spot.at (a_sum) (place_counted result) }
    ensures tallied { Tallied written_sum sums_branches (λ t x. Table.Branches t (branches_from x site.entry.spot.at site.entry.sums)) site.entry.spot.toks.now nodes.old nodes.new site.entry.spot.at site.entry.spot.used site.entry.sums result }
    ensures spare { Spare site.entry.spot.at site.entry.spot.used site.entry.sums result }
{
    branches_lent(&site, nodes)
}

// A definition's body: sums joined by `||`.
pub fn body_lent(site: &Site<0>, nodes: &mut [u64]) -> Counted
    ensures follows { Follows site.now.spot.toks.now site.now.spot.at (a_body) (place_counted result) }
    ensures tallied { Tallied flat_body sums_body (λ t b. Table.Sums t (body_at b site.now.spot.at site.now.sums)) site.now.spot.toks.now nodes.old nodes.new site.now.spot.at site.now.spot.used site.now.sums result }
{
    let spot = site.spot;
    let (n, left, s) = sum_lent(site, nodes)?;
    if token::peek(spot.toks, n) != Kind::BARS {
        return Ok((n, left, s));
    }
    let next = Site {
        spot: spot.to(n + 1, left + 1),
        sums: s,
    };
    let (m, r, q) = body_lent(&next, nodes)?;
    let root = r + 1;
    tree::pair(nodes, root, NodeKind::BESIDE, left);
    Ok((m, root, q))
}

// The same of a Site by value.
pub fn body(site: Site<0>, nodes: &mut [u64]) -> Counted
    ensures follows { Follows site.entry.spot.toks.now site.entry.spot.at (a_body) (place_counted result) }
    ensures tallied { Tallied flat_body sums_body (λ t b. Table.Sums t (body_at b site.entry.spot.at site.entry.sums)) site.entry.spot.toks.now nodes.old nodes.new site.entry.spot.at site.entry.spot.used site.entry.sums result }
{
    body_lent(&site, nodes)
}
