#![tactic(auto)]

// Evaluates 01's specimens of values, sets, gates and rates over small tables of settled nodes, and prints a line for each.
#[cfg(test)]
mod tests;

ghost use Rattle.std.specs.Prelude.{◌≡◌, ◌≤◌, ◌<◌, pos, None, Some};
ghost use Rattle.eval.specs.declared.offer.Offer.{Offer};
ghost use Rattle.model.specs.Good.{scale_limit};
ghost use Rattle.tables.specs.Settled.{offset, number_cell};
ghost use Rattle.tree.specs.Node.{literal};
ghost use Rattle.value.specs.Range.{InRange};

use eval::offer::Offer;
use eval::{Context, offer};
use std::fmt::Display;
use std::io;
use tree::NodeKind;
use value::Range;

// The cell of n. Not settle's, which takes a sign beside the value and is of no other use here.
fn number_cell(kind: u8, n: u64) -> u64
    requires { n < offset }
    ensures { result ≡ number_cell kind (pos n) }
{
    kind as u64 + tree::KINDS * (tree::OFFSET + n)
}

// The cell of a number of an expression.
fn literal(z: i64) -> u64
    requires { InRange z }
    ensures { result ≡ number_cell literal z }
{
    let size = z.unsigned_abs();
    if z < 0 {
        return NodeKind::LITERAL as u64 + tree::KINDS * (tree::OFFSET - size);
    }
    number_cell(NodeKind::LITERAL, size)
}

// x / y. In range by clauses, here and in the three below, as in crate value: each makes its cells itself, so that a type would wrap every number of the lists below.
fn quotient(x: i64, y: i64) -> Option<i64>
    requires { (InRange x) × (InRange y) }
{
    let nodes = [
        literal(x),
        literal(y),
        tree::cell(NodeKind::DIVIDE, 0, 0, 0),
    ];
    let context = Context {
        nodes: &nodes,
        locals: &[0],
    };
    eval::eval_node_lent(&context, 2)
}

// Whether v is in x..y.
fn in_range(x: i64, y: i64, v: i64) -> bool
    requires { (InRange x) × (InRange y) }
{
    let nodes = [literal(x), literal(y), tree::cell(NodeKind::RANGE, 0, 0, 0)];
    let context = Context {
        nodes: &nodes,
        locals: &[0],
    };
    eval::in_set_lent(&context, 2, v)
}

// Whether v is in x..y\z.
fn in_rest(x: i64, y: i64, z: i64, v: i64) -> bool
    requires { (InRange x) × (InRange y) × (InRange z) }
{
    let range = tree::cell(NodeKind::RANGE, 0, 0, 0);
    let without = tree::cell(NodeKind::WITHOUT, 0, 2, 0);
    let nodes = [literal(x), literal(y), range, literal(z), without];
    let context = Context {
        nodes: &nodes,
        locals: &[0],
    };
    eval::in_set_lent(&context, 4, v)
}

// The kind of an offer; 0 of what stands behind a false gate, 1 where a part lacks a value: numbers and no Option, as the line prints them.
fn kind_shown(offer: Option<Option<Offer>>) -> u8
    ensures lacking { offer ≡ None → result ≡ 1 }
    ensures hidden { offer ≡ Some None → result ≡ 0 }
    ensures offered { (o : Offer) → offer ≡ Some (Some o) → result ≡ o.kind }
{
    match offer {
        Some(Some(o)) => o.kind,
        Some(None) => 0,
        None => 1,
    }
}

// The kind of what [i>0] -> {c![y/i],1} offers.
fn gated(i: i64, y: i64) -> u8
    requires { (InRange i) × (InRange y) }
{
    let nodes = [
        tree::cell(NodeKind::NAMED, 0, 0, 0),
        literal(0),
        tree::cell(NodeKind::GREATER, 0, 0, 0),
        tree::cell(NodeKind::CHANNEL, 0, 0, 0),
        tree::cell(NodeKind::NAMED, 1, 0, 0),
        tree::cell(NodeKind::NAMED, 0, 0, 0),
        tree::cell(NodeKind::DIVIDE, 0, 4, 0),
        tree::cell(NodeKind::LAUNCH, 0, 3, 0),
        number_cell(NodeKind::NUMBER, 10000),
        tree::cell(NodeKind::STOP, 0, 7, 0),
        tree::cell(NodeKind::GATE, 0, 2, 0),
    ];
    let context = Context {
        nodes: &nodes,
        locals: &[i, y],
    };
    kind_shown(offer::offer_of_lent(&context, 10))
}

// A rate of n ten-thousandths.
fn rate(n: u64) -> Option<u64>
    requires { (n < offset) × (n ≤ scale_limit) }
{
    let nodes = [number_cell(NodeKind::NUMBER, n)];
    let context = Context {
        nodes: &nodes,
        locals: &[0],
    };
    eval::rate_of_lent(&context, 0)
}

// A line for each: its name and the number, or `none`. As in `values`, but of two types: a crate for both programs would hold this alone.
fn lines<T: Display>(rt: &impl Print, numbers: &[(&str, Option<T>)]) -> io::Result<()> {
    for (name, number) in numbers {
        match number {
            Some(n) => println!(rt; "{name},{n}")?,
            None => println!(rt; "{name},none")?,
        }
    }
    Ok(())
}

fn quotients(rt: &impl Print) -> io::Result<()> {
    let values = [
        ("-7/2", quotient(-7, 2)),
        ("7/-2", quotient(7, -2)),
        ("-7/-2", quotient(-7, -2)),
        ("-1/1099511627775", quotient(-1, Range::GREATEST)),
        ("-2147483648/-1", quotient(-2147483648, -1)),
        ("-1099511627775/-1", quotient(Range::LEAST, -1)),
        ("7/0", quotient(7, 0)),
    ];
    lines(rt, &values)
}

fn show_sets(rt: &impl Print, sets: &[(&str, bool)]) -> io::Result<()> {
    for &(name, is_in) in sets {
        let side = if is_in { "in" } else { "out" };
        println!(rt; "{name},{side}")?;
    }
    Ok(())
}

fn rests(rt: &impl Print) -> io::Result<()> {
    let sets = [
        ("2 in 3..5\\4", in_rest(3, 5, 4, 2)),
        ("3 in 3..5\\4", in_rest(3, 5, 4, 3)),
        ("4 in 3..5\\4", in_rest(3, 5, 4, 4)),
        ("5 in 3..5\\4", in_rest(3, 5, 4, 5)),
        ("6 in 3..5\\4", in_rest(3, 5, 4, 6)),
    ];
    show_sets(rt, &sets)
}

fn ranges(rt: &impl Print) -> io::Result<()> {
    let (least, greatest) = (Range::LEAST, Range::GREATEST);
    let sets = [
        ("4 in 5..4", in_range(5, 4, 4)),
        ("5 in 5..4", in_range(5, 4, 5)),
        ("least in all", in_range(least, greatest, least)),
        ("greatest in all", in_range(least, greatest, greatest)),
    ];
    show_sets(rt, &sets)
}

fn gates(rt: &impl Print) -> io::Result<()> {
    for (name, kind) in [
        ("[0>0] -> {c![7/0],1}", gated(0, 7)),
        ("[2>0] -> {c![7/2],1}", gated(2, 7)),
    ] {
        println!(rt; "{name},{kind}")?;
    }
    Ok(())
}

fn rates(rt: &impl Print) -> io::Result<()> {
    let rates = [
        ("rate 100000", rate(1000000000)),
        ("rate 100000.0001", rate(1000000001)),
        ("rate 1099511627775", rate(10995116277750000)),
    ];
    lines(rt, &rates)
}

fn main(rt: HostRuntime) -> io::Result<()> {
    quotients(&rt)?;
    rests(&rt)?;
    ranges(&rt)?;
    gates(&rt)?;
    rates(&rt)
}
