#![tactic(auto)]

// Whether two entries of a listing can be taken in either order.
ghost use Rattle.std.specs.Prelude.{◌≡◌};
ghost use Rattle.rules.specs.Listing.{key_of};
ghost use Rattle.rules.specs.Carried.{places};
ghost use Rattle.rules.specs.Independent.{is_one_of, meet, is_quiet, is_movable, is_independent};
ghost use Rattle.listing.specs.Buffer.{entry_of};
ghost use Rattle.independence.specs.Judged.{judged};

use listing::{Entry, EntryKind, Limits};

// Whether an entry is neither a launch nor a kill.
fn is_quiet(e: Entry) -> bool
    ensures { result ≡ is_quiet (key_of (entry_of e)) }
{
    e.kind != EntryKind::LAUNCH && e.kind != EntryKind::KILL
}

// Whether it is above weight zero too.
fn is_movable(e: Entry) -> bool
    ensures { result ≡ is_movable (entry_of e) }
{
    e.weight != 0 && is_quiet(e)
}

// Whether an entry has the process at this place act.
fn acts_at(e: Entry, at: usize) -> bool
    ensures { result ≡ is_one_of at (places (key_of (entry_of e))) }
{
    at == e.place || e.kind == EntryKind::HANDSHAKE && at == e.partner
}

// Whether two entries share a process.
fn overlap(e: Entry, other: Entry) -> bool
    ensures { result ≡ meet (places (key_of (entry_of e))) (places (key_of (entry_of other))) }
{
    acts_at(other, e.place) || e.kind == EntryKind::HANDSHAKE && acts_at(other, e.partner)
}

// Whether two entries of one listing lead to one state in either order.
fn judge(e: Entry, other: Entry) -> bool
    ensures { result ≡ is_independent (entry_of e) (entry_of other) }
{
    if !is_movable(e) {
        return false;
    }
    is_movable(other) && !overlap(e, other)
}

// The same of their rows; of any but seven numbers, no.
pub fn independent(entry: &[u64], other: &[u64]) -> bool
    ensures { result ≡ judged entry.now other.now }
{
    let Ok(row) = <[u64; Limits::ENTRY]>::try_from(entry) else {
        return false;
    };
    let Ok(also) = <[u64; Limits::ENTRY]>::try_from(other) else {
        return false;
    };
    judge(Entry::from(row), Entry::from(also))
}
