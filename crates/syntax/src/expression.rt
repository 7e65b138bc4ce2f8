// Reads expressions.
ghost use Rattle.std.specs.Prelude.{◌≡◌, [], ◌∷◌, ◌++◌, ◌+◌};
ghost use Rattle.token.specs.Kind as kind;
ghost use Rattle.grammar.specs.Grammar.{flat_whole, flat_atom, flat_term, flat_factors, flat_expr, flat_terms};
ghost use Rattle.grammar.specs.Machine.{Want, Whole', Atom', Factors', Terms', a_term, an_expr};
ghost use Rattle.grammar.specs.Follows.{Follows};
ghost use Rattle.grammar.specs.Syntax;
ghost use Rattle.grammar.specs.Syntax.{literal_at, atom_at, term_at, factors_at, expr_at, terms_at};
ghost use Rattle.tree.specs.Table;
ghost use Rattle.tree.specs.Reading.{place, Ready, Parsed, Extended};
ghost use Rattle.syntax.specs.Signs.{sum_signs, product_signs, sign_kind};
ghost use Rattle.syntax.specs.Expression.{closed, enclosed, enclosed_two, HoldsTwo};

use token::Kind;
use tree::{NodeKind, Read};

// The node that a sign between terms makes.
#[tactic(auto, unfolding(crate::specs::Signs::sign_kind, tree::specs::Node::op_kind))]
pub fn sum_kind(t: u8) -> Option<u8>
    ensures { result ≡ sign_kind sum_signs t }
{
    match t {
        b'+' => Some(NodeKind::PLUS),
        b'-' => Some(NodeKind::MINUS),
        _ => None,
    }
}

// The node that a sign between factors makes.
#[tactic(auto, unfolding(crate::specs::Signs::sign_kind, tree::specs::Node::op_kind))]
pub fn product_kind(t: u8) -> Option<u8>
    ensures { result ≡ sign_kind product_signs t }
{
    match t {
        b'*' => Some(NodeKind::TIMES),
        b'/' => Some(NodeKind::DIVIDE),
        _ => None,
    }
}

// A whole number, perhaps with `-` before it.
pub fn literal(toks: &[u8], at: usize, nodes: &mut [u64], used: usize) -> Read
    requires { Ready toks.now at used }
    ensures follows { Follows toks.now at (Whole' ∷ []) (place result) }
    ensures parsed { Parsed flat_whole (λ t w. Table.Expr t (literal_at w at)) toks.now nodes.old nodes.new at used result }
{
    let t = token::peek(toks, at);
    if t == Kind::WHOLE {
        tree::leaf(nodes, used, NodeKind::LITERAL, at);
        return Ok((at + 1, used));
    }
    if t != b'-' {
        return Err(at);
    }
    let digits = at + 1;
    if token::peek(toks, digits) != Kind::WHOLE {
        return Err(digits);
    }
    tree::leaf(nodes, used, NodeKind::NEGATIVE, digits);
    Ok((digits + 1, used))
}

// A name, a literal, or what has brackets.
#[cycle(absolute_atom_bracketed_expr_factors_larger_term_terms)]
pub fn atom(toks: &[u8], at: usize, nodes: &mut [u64], used: usize) -> Read
    requires { Ready toks.now at used }
    ensures follows { Follows toks.now at (Atom' ∷ []) (place result) }
    ensures parsed { Parsed flat_atom (λ t a. Table.Expr t (atom_at a at)) toks.now nodes.old nodes.new at used result }
{
    match token::peek(toks, at) {
        Kind::NAME => {
            tree::leaf(nodes, used, NodeKind::NAMED, at);
            Ok((at + 1, used))
        }
        b'(' => bracketed(toks, at + 1, nodes, used),
        Kind::ABSOLUTE => absolute(toks, at + 1, nodes, used),
        Kind::MAXIMUM => larger(toks, at + 1, nodes, used, NodeKind::MAXIMUM),
        Kind::MINIMUM => larger(toks, at + 1, nodes, used, NodeKind::MINIMUM),
        _ => literal(toks, at, nodes, used),
    }
}

// An expression and the `)` after it.
#[cycle(absolute_atom_bracketed_expr_factors_larger_term_terms)]
pub fn bracketed(toks: &[u8], at: usize, nodes: &mut [u64], used: usize) -> Read
    requires { Ready toks.now at used }
    ensures follows { Follows toks.now at (an_expr ++ Want kind.close_round ∷ []) (place result) }
    ensures parsed { Parsed closed (λ t e. Table.Expr t (expr_at e at)) toks.now nodes.old nodes.new at used result }
{
    let (n, r) = expr(toks, at, nodes, used)?;
    if token::peek(toks, n) != b')' {
        return Err(n);
    }
    Ok((n + 1, r))
}

// What `abs` is taken of, in brackets.
#[cycle(absolute_atom_bracketed_expr_factors_larger_term_terms)]
pub fn absolute(toks: &[u8], at: usize, nodes: &mut [u64], used: usize) -> Read
    requires { Ready toks.now at used }
    ensures follows { Follows toks.now at (Want kind.open_round ∷ an_expr ++ Want kind.close_round ∷ []) (place result) }
    ensures parsed { Parsed enclosed (λ t e. Table.Expr t (Syntax.absolute (expr_at e (at + 1)))) toks.now nodes.old nodes.new at used result }
{
    if token::peek(toks, at) != b'(' {
        return Err(at);
    }
    let (n, r) = bracketed(toks, at + 1, nodes, used)?;
    let root = r + 1;
    tree::node(nodes, root, NodeKind::ABSOLUTE, 0, 0, 0);
    Ok((n, root))
}

// The two parts of `max` or `min`, in brackets.
#[cycle(absolute_atom_bracketed_expr_factors_larger_term_terms)]
pub fn larger(toks: &[u8], at: usize, nodes: &mut [u64], used: usize, op: u8) -> Read
    requires { Ready toks.now at used }
    ensures follows { Follows toks.now at (Want kind.open_round ∷ an_expr ++ Want kind.comma ∷ an_expr ++ Want kind.close_round ∷ []) (place result) }
    ensures parsed { Parsed enclosed_two (HoldsTwo op at) toks.now nodes.old nodes.new at used result }
{
    if token::peek(toks, at) != b'(' {
        return Err(at);
    }
    let (n, left) = expr(toks, at + 1, nodes, used)?;
    if token::peek(toks, n) != b',' {
        return Err(n);
    }
    let (m, r) = bracketed(toks, n + 1, nodes, left + 1)?;
    let root = r + 1;
    tree::pair(nodes, root, op, left);
    Ok((m, root))
}

// Atoms joined by `*` and `/`.
#[cycle(absolute_atom_bracketed_expr_factors_larger_term_terms)]
pub fn term(toks: &[u8], at: usize, nodes: &mut [u64], used: usize) -> Read
    requires { Ready toks.now at used }
    ensures follows { Follows toks.now at (a_term) (place result) }
    ensures parsed { Parsed flat_term (λ t x. Table.Expr t (term_at x at)) toks.now nodes.old nodes.new at used result }
{
    let (n, r) = atom(toks, at, nodes, used)?;
    factors(toks, n, nodes, r)
}

// What the expression on the left is multiplied or divided by.
// Not one generic function with `terms`: the borrow checker covers no cycle of calls that goes through a trait's method.
#[cycle(absolute_atom_bracketed_expr_factors_larger_term_terms)]
pub fn factors(toks: &[u8], at: usize, nodes: &mut [u64], left: usize) -> Read
    requires { Ready toks.now at (left + 1) }
    ensures follows { Follows toks.now at (Factors' ∷ []) (place result) }
    ensures extended { Extended flat_factors (λ x r. factors_at x r at) Table.Expr Table.Expr toks.now nodes.old nodes.new at left result }
{
    let Some(kind) = product_kind(token::peek(toks, at)) else {
        return Ok((at, left));
    };
    let (n, r) = atom(toks, at + 1, nodes, left + 1)?;
    let root = r + 1;
    tree::pair(nodes, root, kind, left);
    factors(toks, n, nodes, root)
}

// Terms joined by `+` and `-`.
#[cycle(absolute_atom_bracketed_expr_factors_larger_term_terms)]
pub fn expr(toks: &[u8], at: usize, nodes: &mut [u64], used: usize) -> Read
    requires { Ready toks.now at used }
    ensures follows { Follows toks.now at (an_expr) (place result) }
    ensures parsed { Parsed flat_expr (λ t e. Table.Expr t (expr_at e at)) toks.now nodes.old nodes.new at used result }
{
    let (n, r) = term(toks, at, nodes, used)?;
    terms(toks, n, nodes, r)
}

// What is added to the expression on the left or taken away.
#[cycle(absolute_atom_bracketed_expr_factors_larger_term_terms)]
pub fn terms(toks: &[u8], at: usize, nodes: &mut [u64], left: usize) -> Read
    requires { Ready toks.now at (left + 1) }
    ensures follows { Follows toks.now at (Terms' ∷ []) (place result) }
    ensures extended { Extended flat_terms (λ x r. terms_at x r at) Table.Expr Table.Expr toks.now nodes.old nodes.new at left result }
{
    let Some(kind) = sum_kind(token::peek(toks, at)) else {
        return Ok((at, left));
    };
    let (n, r) = term(toks, at + 1, nodes, left + 1)?;
    let root = r + 1;
    tree::pair(nodes, root, kind, left);
    terms(toks, n, nodes, root)
}
