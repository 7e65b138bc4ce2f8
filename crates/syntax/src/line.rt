// Reads definitions, the system line and the whole text.
ghost use Rattle.std.specs.Prelude.{◌≡◌, [], ◌∷◌, ◌++◌, ◌+◌, ◌≤◌, ◌<◌, length, get_or};
ghost use Rattle.token.specs.Kind as kind;
ghost use Rattle.grammar.specs.Grammar.{flat_starts, flat_start, flat_system, flat_definitions, flat_model};
ghost use Rattle.grammar.specs.Machine.{Want, Whole', Number', Params', MoreWholes, Start', SystemEnd, NextLine, Line, the_starts};
ghost use Rattle.grammar.specs.Follows.{Follows};
ghost use Rattle.grammar.specs.Syntax.{wholes_at, starts_at, start_at, system_at, definitions_at, model_at};
ghost use Rattle.tree.specs.Table;
ghost use Rattle.tree.specs.Reading.{place, place_counted, token_room, Ready, Parsed, Tallied};
ghost use Rattle.syntax.specs.Judged.{TextJudged};
ghost use Rattle.syntax.specs.Line.{defining, in_definition, Parameters, written_definition, count_definition, Definition, written_wholes, Started};

use crate::named::Named;
use crate::point::Point;
use crate::site::Site;
use crate::spot::Spot;
use crate::{action, expression, process, rate};
use token::Kind;
use tree::{Counted, Members, NodeKind, Read};

// Parameters, after the `[`, with the `]`: the next token, and how many.
pub fn params(point: Point) -> Members
    ensures follows { Follows point.entry.toks.now point.entry.at (Params' ∷ Want kind.close_square ∷ []) (place result) }
    ensures parameters { Parameters point.entry.toks.now point.entry.at result }
{
    if point.peek() == b']' {
        return Ok((point.at + 1, 0));
    }
    action::names(point, b']')
}

// The definition whose name stands here.
pub fn definition_lent(named: &Named<{ b'[' }>, nodes: &mut [u64], sums: usize) -> Counted
    requires sums_le_name { sums ≤ named.now.spot.at }
    ensures follows { Follows named.now.spot.toks.now (named.now.spot.at + 2) in_definition (place_counted result) }
    ensures tallied { Tallied written_definition count_definition (λ t d. Definition t d named.now.spot.at sums) named.now.spot.toks.now nodes.old nodes.new (named.now.spot.at + 1) named.now.spot.used sums result }
{
    let spot = named.spot;
    let open = Point {
        toks: spot.toks,
        at: spot.at + 2,
    };
    let (n, count) = params(open)?;
    if token::peek(spot.toks, n) != b'=' {
        return Err(n);
    }
    let site = Site {
        spot: spot.to(n + 1, spot.used),
        sums,
    };
    let (m, r, s) = process::body_lent(&site, nodes)?;
    if token::peek(spot.toks, m) != b';' {
        return Err(m);
    }
    let root = r + 1;
    tree::node(nodes, root, NodeKind::DEFINITION, spot.at, 0, count);
    Ok((m + 1, root, s))
}

// The same of a Named by value.
pub fn definition(named: Named<{ b'[' }>, nodes: &mut [u64], sums: usize) -> Counted
    requires sums_le_name { sums ≤ named.spot.at }
    ensures follows { Follows named.entry.spot.toks.now (named.entry.spot.at + 2) in_definition (place_counted result) }
    ensures tallied { Tallied written_definition count_definition (λ t d. Definition t d named.entry.spot.at sums) named.entry.spot.toks.now nodes.old nodes.new (named.entry.spot.at + 1) named.entry.spot.used sums result }
{
    definition_lent(&named, nodes, sums)
}

// Whether a definition starts here, and not the system line.
#[tactic(auto, unfolding(crate::specs::Line::defining))]
pub fn defines(point: Point) -> bool
    ensures { result ≡ defining point.entry.toks.now point.entry.at }
{
    point.peek() == Kind::NAME
        && token::peek(point.toks, point.at + 1) == b'['
        && match token::peek(point.toks, point.at + 2) {
            Kind::NAME => true,
            b']' => token::peek(point.toks, point.at + 3) == b'=',
            _ => false,
        }
}

// The definitions, the first of them named here, and the system line.
pub fn definitions_lent(named: &Named<{ b'[' }>, nodes: &mut [u64], sums: usize) -> Read
    requires sums_le_name { sums ≤ named.now.spot.at }
    ensures follows { Follows named.now.spot.toks.now (named.now.spot.at + 2) (in_definition ++ NextLine ∷ []) (place result) }
    ensures parsed { Parsed flat_definitions (λ t d. Table.Definitions t (definitions_at d named.now.spot.at sums)) named.now.spot.toks.now nodes.old nodes.new named.now.spot.at named.now.spot.used result }
{
    let (n, left, s) = definition_lent(named, nodes, sums)?;
    let spot = named.spot.to(n, left + 1);
    let next = Point {
        toks: spot.toks,
        at: spot.at,
    };
    let ((m, r), kind) = if defines(next) {
        (definitions_lent(&Named { spot }, nodes, s)?, NodeKind::NEXT)
    } else {
        (system_lent(&spot, nodes)?, NodeKind::LAST)
    };
    let root = r + 1;
    tree::pair(nodes, root, kind, left);
    Ok((m, root))
}

// The same of a Named by value.
pub fn definitions(named: Named<{ b'[' }>, nodes: &mut [u64], sums: usize) -> Read
    requires sums_le_name { sums ≤ named.spot.at }
    ensures follows { Follows named.entry.spot.toks.now (named.entry.spot.at + 2) (in_definition ++ NextLine ∷ []) (place result) }
    ensures parsed { Parsed flat_definitions (λ t d. Table.Definitions t (definitions_at d named.entry.spot.at sums)) named.entry.spot.toks.now nodes.old nodes.new named.entry.spot.at named.entry.spot.used result }
{
    definitions_lent(&named, nodes, sums)
}

// Whole numbers parted by commas and the `]` after them, with their count. Beside `process::call_lent` stands why this and `args` there are no one function.
pub fn wholes(toks: &[u8], at: usize, nodes: &mut [u64], used: usize) -> Counted
    requires { Ready toks.now at used }
    ensures follows { Follows toks.now at (Whole' ∷ MoreWholes ∷ Want kind.close_square ∷ []) (place_counted result) }
    ensures tallied { Tallied written_wholes (λ w. Table.count_wholes (wholes_at w at)) (λ t w. Table.Wholes t (wholes_at w at)) toks.now nodes.old nodes.new at used 0 result }
{
    let (n, left) = expression::literal(toks, at, nodes, used)?;
    let t = token::peek(toks, n);
    if t == b']' {
        return Ok((n + 1, left, 1));
    }
    if t != b',' {
        return Err(n);
    }
    let (m, r, count) = wholes(toks, n + 1, nodes, left + 1)?;
    let root = r + 1;
    tree::pair(nodes, root, NodeKind::WHOLE, left);
    Ok((m, root, count + 1))
}

// The values of the item whose name is the token `name`, from the `[` on; `base` is the kind of an item without values. Beside `process::call_lent` stands why this and the reader there are no one function.
pub fn starts_lent(spot: &Spot, nodes: &mut [u64], name: usize, base: u8) -> Read
    requires name_before { name ≤ spot.now.at }
    requires base_bound { base < 255 }
    ensures follows { Follows spot.now.toks.now spot.now.at the_starts (place result) }
    ensures parsed { Parsed flat_starts (λ t s. Started t base name (starts_at s spot.now.at)) spot.now.toks.now nodes.old nodes.new spot.now.at spot.now.used result }
{
    if spot.peek() != b'[' {
        return Err(spot.at);
    }
    let n = spot.at + 1;
    if token::peek(spot.toks, n) == b']' {
        tree::leaf(nodes, spot.used, base, name);
        return Ok((n + 1, spot.used));
    }
    let (m, r, count) = wholes(spot.toks, n, nodes, spot.used)?;
    let root = r + 1;
    tree::node(nodes, root, base + 1, name, 0, count);
    Ok((m, root))
}

// The same of a Spot by value.
pub fn starts(spot: Spot, nodes: &mut [u64], name: usize, base: u8) -> Read
    requires name_before { name ≤ spot.at }
    requires base_bound { base < 255 }
    ensures follows { Follows spot.entry.toks.now spot.entry.at the_starts (place result) }
    ensures parsed { Parsed flat_starts (λ t s. Started t base name (starts_at s spot.entry.at)) spot.entry.toks.now nodes.old nodes.new spot.entry.at spot.entry.used result }
{
    starts_lent(&spot, nodes, name, base)
}

// An item of the system line.
pub fn start_lent(spot: &Spot, nodes: &mut [u64]) -> Read
    ensures follows { Follows spot.now.toks.now spot.now.at (Start' ∷ []) (place result) }
    ensures parsed { Parsed flat_start (λ t s. Table.Start t (start_at s spot.now.at)) spot.now.toks.now nodes.old nodes.new spot.now.at spot.now.used result }
{
    let t = spot.peek();
    if t == Kind::NAME {
        return starts_lent(&spot.next(), nodes, spot.at, NodeKind::START);
    }
    if t != Kind::WHOLE {
        return Err(spot.at);
    }
    let times = spot.at + 1;
    if token::peek(spot.toks, times) != b'*' {
        return Err(times);
    }
    let name = times + 1;
    if token::peek(spot.toks, name) != Kind::NAME {
        return Err(name);
    }
    starts_lent(
        &spot.to(name + 1, spot.used),
        nodes,
        name,
        NodeKind::COUNTED,
    )
}

// The same of a Spot by value.
pub fn start(spot: Spot, nodes: &mut [u64]) -> Read
    ensures follows { Follows spot.entry.toks.now spot.entry.at (Start' ∷ []) (place result) }
    ensures parsed { Parsed flat_start (λ t s. Table.Start t (start_at s spot.entry.at)) spot.entry.toks.now nodes.old nodes.new spot.entry.at spot.entry.used result }
{
    start_lent(&spot, nodes)
}

// The items of the system line, with its `;`. Beside `process::items_lent` stands why this and the reader there are no one function.
pub fn system_lent(spot: &Spot, nodes: &mut [u64]) -> Read
    ensures follows { Follows spot.now.toks.now spot.now.at (Start' ∷ SystemEnd ∷ []) (place result) }
    ensures parsed { Parsed flat_system (λ t s. Table.System t (system_at s spot.now.at)) spot.now.toks.now nodes.old nodes.new spot.now.at spot.now.used result }
{
    let (n, left) = start_lent(spot, nodes)?;
    let t = token::peek(spot.toks, n);
    if t == b';' {
        return Ok((n + 1, left));
    }
    if t != Kind::BARS {
        return Err(n);
    }
    let (m, r) = system_lent(&spot.to(n + 1, left + 1), nodes)?;
    let root = r + 1;
    tree::pair(nodes, root, NodeKind::SYSTEM, left);
    Ok((m, root))
}

// The same of a Spot by value.
pub fn system(spot: Spot, nodes: &mut [u64]) -> Read
    ensures follows { Follows spot.entry.toks.now spot.entry.at (Start' ∷ SystemEnd ∷ []) (place result) }
    ensures parsed { Parsed flat_system (λ t s. Table.System t (system_at s spot.entry.at)) spot.entry.toks.now nodes.old nodes.new spot.entry.at spot.entry.used result }
{
    system_lent(&spot, nodes)
}

// Variables, definitions and system line.
#[cycle(model_lent_variable_lent)]
pub fn model_lent(spot: &Spot, nodes: &mut [u64]) -> Read
    ensures follows { Follows spot.now.toks.now spot.now.at (Line ∷ []) (place result) }
    ensures parsed { Parsed flat_model (λ t m. Table.Model t (model_at m spot.now.at)) spot.now.toks.now nodes.old nodes.new spot.now.at spot.now.used result }
{
    if spot.peek() != Kind::NAME {
        return Err(spot.at);
    }
    let n = spot.at + 1;
    let t = token::peek(spot.toks, n);
    if t == b'[' {
        return definitions_lent(&Named { spot: *spot }, nodes, 0);
    }
    if t != b'=' {
        return Err(n);
    }
    variable_lent(&Named { spot: *spot }, nodes)
}

// The same of a Spot by value.
pub fn model(spot: Spot, nodes: &mut [u64]) -> Read
    ensures follows { Follows spot.entry.toks.now spot.entry.at (Line ∷ []) (place result) }
    ensures parsed { Parsed flat_model (λ t m. Table.Model t (model_at m spot.entry.at)) spot.entry.toks.now nodes.old nodes.new spot.entry.at spot.entry.used result }
{
    model_lent(&spot, nodes)
}

// The variable named here, and what follows it.
#[cycle(model_lent_variable_lent)]
pub fn variable_lent(named: &Named<{ b'=' }>, nodes: &mut [u64]) -> Read
    ensures follows { Follows named.now.spot.toks.now (named.now.spot.at + 2) (Number' ∷ Want kind.semicolon ∷ Line ∷ []) (place result) }
    ensures parsed { Parsed flat_model (λ t m. Table.Model t (model_at m named.now.spot.at)) named.now.spot.toks.now nodes.old nodes.new named.now.spot.at named.now.spot.used result }
{
    let spot = named.spot;
    let (n, left) = rate::number(spot.toks, spot.at + 2, nodes, spot.used)?;
    if token::peek(spot.toks, n) != b';' {
        return Err(n);
    }
    let (m, r) = model_lent(&spot.to(n + 1, left + 1), nodes)?;
    let root = r + 1;
    tree::node(nodes, root, NodeKind::VARIABLE, spot.at, left, 0);
    Ok((m, root))
}

// The same of a Named by value.
pub fn variable(named: Named<{ b'=' }>, nodes: &mut [u64]) -> Read
    ensures follows { Follows named.entry.spot.toks.now (named.entry.spot.at + 2) (Number' ∷ Want kind.semicolon ∷ Line ∷ []) (place result) }
    ensures parsed { Parsed flat_model (λ t m. Table.Model t (model_at m named.entry.spot.at)) named.entry.spot.toks.now nodes.old nodes.new named.entry.spot.at named.entry.spot.used result }
{
    variable_lent(&named, nodes)
}

// Reads a text's tokens into the table: the root of its tree, or the number of the token that doesn't fit.
pub fn read_text(toks: &[u8], nodes: &mut [u64]) -> Result<usize, usize>
    requires { length toks.now ≤ token_room }
    ensures { TextJudged toks.now nodes.new result }
{
    let spot = Spot {
        toks,
        at: 0,
        used: 0,
    };
    let (n, r) = model_lent(&spot, nodes)?;
    if n < toks.len() {
        return Err(n);
    }
    Ok(r)
}
