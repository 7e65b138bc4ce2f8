// Reads the square brackets of an action, around values or sets.
ghost use Rattle.grammar.specs.Follows.{Follows};
ghost use Rattle.tree.specs.Reading.{place, Ready, Parsed};
ghost use Rattle.syntax.specs.Entries as entries;
ghost use Rattle.syntax.specs.Entries.{an_entry, the_entries, flat_entry, flat_entries, Holds, HoldsAll};

use crate::spot::Spot;
use crate::{expression, set};
use tree::{NodeKind, Read};

// What may stand in the brackets, read from words.
pub trait EntryAt {
    ghost which: { entries.Entry };

    // One of them.
    fn read_at(toks: &[u8], at: usize, nodes: &mut [u64], used: usize) -> Read
        requires { Ready toks.now at used }
        ensures follows { Follows toks.now at (an_entry which) (place result) }
        ensures parsed { Parsed (flat_entry which) (λ t x. Holds which t x at) toks.now nodes.old nodes.new at used result };
}

// The same, read from a Spot.
pub trait Entry {
    ghost which: { entries.Entry };

    fn read(spot: Spot, nodes: &mut [u64]) -> Read
        ensures follows { Follows spot.entry.toks.now spot.entry.at (an_entry which) (place result) }
        ensures parsed { Parsed (flat_entry which) (λ t x. Holds which t x spot.entry.at) spot.entry.toks.now nodes.old nodes.new spot.entry.at spot.entry.used result };
}

pub struct Value;

impl EntryAt for Value {
    ghost which = { entries.value };

    fn read_at(toks: &[u8], at: usize, nodes: &mut [u64], used: usize) -> Read {
        expression::expr(toks, at, nodes, used)
    }
}

impl Entry for Value {
    ghost which = { entries.value };

    fn read(spot: Spot, nodes: &mut [u64]) -> Read {
        expression::expr(spot.toks, spot.at, nodes, spot.used)
    }
}

pub struct Set;

impl EntryAt for Set {
    ghost which = { entries.set };

    fn read_at(toks: &[u8], at: usize, nodes: &mut [u64], used: usize) -> Read {
        set::set(toks, at, nodes, used)
    }
}

impl Entry for Set {
    ghost which = { entries.set };

    fn read(spot: Spot, nodes: &mut [u64]) -> Read {
        set::set(spot.toks, spot.at, nodes, spot.used)
    }
}

// One or two entries in square brackets.
pub fn entries_at<E: EntryAt>(toks: &[u8], at: usize, nodes: &mut [u64], used: usize) -> Read
    requires { Ready toks.now at used }
    ensures follows { Follows toks.now at (the_entries E.which) (place result) }
    ensures parsed { Parsed (flat_entries E.which) (λ t x. HoldsAll E.which t x at) toks.now nodes.old nodes.new at used result }
{
    if token::peek(toks, at) != b'[' {
        return Err(at);
    }
    let (n, left) = E::read_at(toks, at + 1, nodes, used)?;
    let t = token::peek(toks, n);
    if t == b']' {
        return Ok((n + 1, left));
    }
    if t != b',' {
        return Err(n);
    }
    let (m, r) = E::read_at(toks, n + 1, nodes, left + 1)?;
    if token::peek(toks, m) != b']' {
        return Err(m);
    }
    let root = r + 1;
    tree::pair(nodes, root, NodeKind::PAIR, left);
    Ok((m + 1, root))
}

// The same of a Spot by value. A body of its own: what reads from a Spot need not read from words.
pub fn entries<E: Entry>(spot: Spot, nodes: &mut [u64]) -> Read
    ensures follows { Follows spot.entry.toks.now spot.entry.at (the_entries E.which) (place result) }
    ensures parsed { Parsed (flat_entries E.which) (λ t x. HoldsAll E.which t x spot.entry.at) spot.entry.toks.now nodes.old nodes.new spot.entry.at spot.entry.used result }
{
    if spot.peek() != b'[' {
        return Err(spot.at);
    }
    let (n, first) = E::read(spot.next(), nodes)?;
    let t = token::peek(spot.toks, n);
    if t == b']' {
        return Ok((n + 1, first));
    }
    if t != b',' {
        return Err(n);
    }
    let (m, r) = E::read(spot.to(n + 1, first + 1), nodes)?;
    if token::peek(spot.toks, m) != b']' {
        return Err(m);
    }
    let root = r + 1;
    tree::pair(nodes, root, NodeKind::PAIR, first);
    Ok((m + 1, root))
}
