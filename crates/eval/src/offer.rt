// What a branch offers over settled nodes: its kind, rate, channel, and values or sets, in 01's order of evaluation.
ghost use Rattle.std.specs.Prelude.{◌≡◌, ℕ, ◌≤◌, ◌<◌, ℤ, pos, length};
ghost use Rattle.tree.specs.Node.{field};
ghost use Rattle.model.specs.Resolved as Resolved;
ghost use Rattle.rules.specs.Offers.{Set, within};
ghost use Rattle.tables.specs.Settled as Settled;
ghost use Rattle.model.specs.Good.{Every, GoodExpr, GoodSet, GoodAction, GoodBranch};
ghost use Rattle.machine.specs.Evaluate.{eval_set, eval_branch};
ghost use Rattle.eval.specs.Held.{Held, Sound};
ghost use Rattle.eval.specs.Shown as Shown;

use crate::channel::Channel;
use crate::{Context, Values};
use tree::NodeKind;

// A set that an offer lists: a range by its ends, or a joined set by its root.
#[derive(Clone, Copy)]
pub enum OfferSet {
    Range(i64, i64),
    Joined(usize),
}

impl OfferSet {
    // Stands after the root of a joined set: beyond the range of values, and so no end of a range.
    const MARK: i64 = value::Range::GREATEST + 1;

    // The set in two numbers of a list.
    pub fn of(low: i64, high: i64) -> OfferSet
        ensures { result ≡ Shown.set_in low high }
    {
        if high == OfferSet::MARK {
            return OfferSet::Joined(low.unsigned_abs() as usize);
        }
        OfferSet::Range(low, high)
    }

    // Its two numbers.
    fn numbers(self) -> (i64, i64)
        requires { Shown.Numbered self }
        ensures { (Shown.set_in result.0 result.1 ≡ self) × Shown.RootBefore result.0 result.1 }
    {
        match self {
            OfferSet::Range(low, high) => (low, high),
            OfferSet::Joined(root) => (root as i64, OfferSet::MARK),
        }
    }
}

// What a branch offers. Its kind is that of its action's node, a number as all kinds here.
#[derive(Clone, Copy)]
pub struct Offer {
    pub kind: u8,
    pub rate: u64,
    pub channel: Channel,
    pub list: Listed,
}

// One or two values, each in `first` or `second`, or sets, each in two numbers. These are the fields of a row in the table of offers, which with an `OfferSet` for each
// would take 80 bytes, not 64: an enum of values and sets would be packed into them for each row, and taken out again by its kind.
#[derive(Clone, Copy)]
pub struct Listed {
    pub count: usize,
    pub first: i64,
    pub first_end: i64,
    pub second: i64,
    pub second_end: i64,
}

// What a wait offers. The zeros are written out, in this one place: default() wouldn't say that a shape and a count of 0 are no channel and no list.
fn wait_offer(kind: u8, rate: u64) -> Offer
    ensures { result ≡ Shown.bare_offer kind rate }
{
    Offer {
        kind,
        rate,
        channel: Channel {
            shape: 0,
            first: 0,
            second: 0,
            third: 0,
        },
        list: Listed {
            count: 0,
            first: 0,
            first_end: 0,
            second: 0,
            second_end: 0,
        },
    }
}

fn listed_values(v: Values) -> Listed
    ensures { result ≡ Shown.listed_values v }
{
    match v {
        Values::One(a) => Listed {
            count: 1,
            first: a,
            first_end: 0,
            second: 0,
            second_end: 0,
        },
        Values::Two(a, b) => Listed {
            count: 2,
            first: a,
            first_end: 0,
            second: b,
            second_end: 0,
        },
    }
}

// The set at k, if all its ends have values.
fn set_of(context: &Context, k: usize) -> Option<OfferSet>
    requires { Held (Settled.Set context.now.nodes.now) (GoodSet (length context.now.locals.now)) k }
    ensures { Shown.SetShown context.now.nodes.now context.now.locals.now k result }
{
    let cell = crate::cell_at(context.nodes, k);
    let kind = tree::kind_of(cell);
    if kind < NodeKind::RANGE {
        let x = crate::eval_node_lent(context, k)?;
        return Some(OfferSet::Range(x, x));
    }
    if kind == NodeKind::RANGE {
        let x = crate::eval_node_lent(context, tree::left_of(cell))?;
        let y = crate::eval_node_lent(context, k - 1)?;
        return Some(OfferSet::Range(x, y));
    }
    crate::ends_known_lent(context, k).then_some(OfferSet::Joined(k))
}

// The one or two sets at k.
fn listed_sets(context: &Context, k: usize) -> Option<Listed>
    requires { Held (Settled.OneOrTwo context.now.nodes.now (Settled.Set context.now.nodes.now)) (Every (GoodSet (length context.now.locals.now))) k }
    ensures { Shown.SetsListed context.now.nodes.now context.now.locals.now k result }
{
    let cell = crate::cell_at(context.nodes, k);
    if tree::kind_of(cell) != NodeKind::PAIR {
        let set = set_of(context, k)?;
        let (a, b) = set.numbers();
        return Some(Listed {
            count: 1,
            first: a,
            first_end: b,
            second: 0,
            second_end: 0,
        });
    }
    let first = set_of(context, tree::left_of(cell))?;
    let second = set_of(context, k - 1)?;
    let (a, b) = first.numbers();
    let (c, d) = second.numbers();
    Some(Listed {
        count: 2,
        first: a,
        first_end: b,
        second: c,
        second_end: d,
    })
}

fn carries(kind: u8) -> bool
    ensures { result ≡ Shown.carries kind }
{
    matches!(
        kind,
        NodeKind::LAUNCH | NodeKind::KILL | NodeKind::HAND_SEND
    )
}

// The action at k with its rate, if its parts have values: launch, kill and send have values, a receive and a check sets.
fn action_offer(context: &Context, k: usize, rate: u64) -> Option<Offer>
    requires { (m : Resolved.Model) × Held (Settled.Action context.now.nodes.now) (GoodAction m (length context.now.locals.now)) k }
    ensures { Shown.ActionShown context.now.nodes.now context.now.locals.now rate k result }
{
    let cell = crate::cell_at(context.nodes, k);
    let kind = tree::kind_of(cell);
    if kind == NodeKind::WAIT {
        return Some(wait_offer(kind, rate));
    }
    let channel = crate::channel::channel_of_lent(context, tree::left_of(cell))?;
    if carries(kind) {
        let list = listed_values(crate::values_of_lent(context, k - 1)?);
        return Some(Offer {
            kind,
            rate,
            channel,
            list,
        });
    }
    let list = listed_sets(context, k - 1)?;
    Some(Offer {
        kind,
        rate,
        channel,
        list,
    })
}

// The root of the rate of the branch at k, whose cell this is.
fn rate_root(cell: u64, k: usize) -> usize
    requires { 1 ≤ k }
    ensures { result ≡ Shown.rate_root cell k }
{
    if tree::kind_of(cell) == NodeKind::STOP {
        return k - 1;
    }
    tree::third_of(cell)
}

// A branch behind its gate, if it has one: the rate first.
fn prefix_offer(context: &Context, k: usize) -> Option<Offer>
    requires { Shown.Prefix context.now.nodes.now (length context.now.locals.now) k }
    ensures { Shown.PrefixShown context.now.nodes.now context.now.locals.now k result }
{
    let cell = crate::cell_at(context.nodes, k);
    let rate = crate::rate_of_lent(context, rate_root(cell, k))?;
    action_offer(context, tree::left_of(cell), rate)
}

// What the branch at k offers, if its parts have values; nothing behind a false gate.
pub fn offer_of_lent(context: &Context, k: usize) -> Option<Option<Offer>>
    requires { (m : Resolved.Model) × Held (Settled.Branch context.now.nodes.now) (GoodBranch m (length context.now.locals.now)) k }
    ensures { (b : Resolved.Branch) → Settled.Branch context.now.nodes.now b k → Shown.ShowsOffer context.now.nodes.now context.now.locals.now (eval_branch context.now.locals.now b) result }
{
    let cell = crate::cell_at(context.nodes, k);
    if tree::kind_of(cell) != NodeKind::GATE {
        let offer = prefix_offer(context, k)?;
        return Some(Some(offer));
    }
    let open = crate::holds_lent(context, tree::left_of(cell))?;
    if !open {
        return Some(None);
    }
    let offer = prefix_offer(context, k - 1)?;
    Some(Some(offer))
}

// The same of a context by value.
pub fn offer_of(context: Context, k: usize) -> Option<Option<Offer>>
    requires { (m : Resolved.Model) × Held (Settled.Branch context.nodes.now) (GoodBranch m (length context.locals.now)) k }
    ensures { (b : Resolved.Branch) → Settled.Branch context.entry.nodes.now b k → Shown.ShowsOffer context.entry.nodes.now context.entry.locals.now (eval_branch context.entry.locals.now b) result }
{
    offer_of_lent(&context, k)
}

// Whether v is in a set of an offer: in a range by two comparisons, as the definition has them.
pub fn in_offer_set_lent(context: &Context, set: OfferSet, v: i64) -> bool
    requires { (x : Set) × Shown.ShowsSet context.now.nodes.now context.now.locals.now set x }
    ensures { (x : Set) → Shown.ShowsSet context.now.nodes.now context.now.locals.now set x → result ≡ within x v }
{
    match set {
        OfferSet::Range(low, high) => low <= v && v <= high,
        OfferSet::Joined(root) => crate::in_set_lent(context, root, v),
    }
}

// The same of a context by value.
pub fn in_offer_set(context: Context, set: OfferSet, v: i64) -> bool
    requires { (x : Set) × Shown.ShowsSet context.nodes.now context.locals.now set x }
    ensures { (x : Set) → Shown.ShowsSet context.entry.nodes.now context.entry.locals.now set x → result ≡ within x v }
{
    in_offer_set_lent(&context, set, v)
}
