// Evaluation with a context by value, over small tables of settled nodes.
ghost use Rattle.std.specs.Prelude.{◌<◌, ◌≤◌};
ghost use Rattle.model.specs.Good.{scale_limit};
ghost use Rattle.tables.specs.Settled.{offset};
ghost use Rattle.value.specs.Range.{InRange};

use super::{kind_shown, literal, number_cell};
use eval::channel::Channel;
use eval::offer::OfferSet;
use eval::{Context, Values, channel, next, offer};
use tree::NodeKind;

// x / y.
fn quotient(x: i64, y: i64) -> Option<i64>
    requires { (InRange x) × (InRange y) }
{
    let nodes = [
        literal(x),
        literal(y),
        tree::cell(NodeKind::DIVIDE, 0, 0, 0),
    ];
    let context = Context {
        nodes: &nodes,
        locals: &[0],
    };
    eval::eval_node(context, 2)
}

// Whether the ends of x..y/z have values, and whether v is in it.
fn within(x: i64, y: i64, z: i64, v: i64) -> (bool, bool)
    requires { (InRange x) × (InRange y) × (InRange z) }
{
    let nodes = [
        literal(x),
        literal(y),
        literal(z),
        tree::cell(NodeKind::DIVIDE, 0, 1, 0),
        tree::cell(NodeKind::RANGE, 0, 0, 0),
    ];
    let context = Context {
        nodes: &nodes,
        locals: &[0],
    };
    (eval::ends_known(context, 4), eval::in_set(context, 4, v))
}

// Whether x>y/z.
fn greater(x: i64, y: i64, z: i64) -> Option<bool>
    requires { (InRange x) × (InRange y) × (InRange z) }
{
    let nodes = [
        literal(x),
        literal(y),
        literal(z),
        tree::cell(NodeKind::DIVIDE, 0, 1, 0),
        tree::cell(NodeKind::GREATER, 0, 0, 0),
    ];
    let context = Context {
        nodes: &nodes,
        locals: &[0],
    };
    eval::holds(context, 4)
}

// A rate of n ten-thousandths.
fn rate(n: u64) -> Option<u64>
    requires { (n < offset) × (n ≤ scale_limit) }
{
    let nodes = [number_cell(NodeKind::NUMBER, n)];
    let context = Context {
        nodes: &nodes,
        locals: &[0],
    };
    eval::rate_of(context, 0)
}

// The values x,y/z.
fn values(x: i64, y: i64, z: i64) -> Option<Values>
    requires { (InRange x) × (InRange y) × (InRange z) }
{
    let nodes = [
        literal(x),
        literal(y),
        literal(z),
        tree::cell(NodeKind::DIVIDE, 0, 1, 0),
        tree::cell(NodeKind::PAIR, 0, 0, 0),
    ];
    let context = Context {
        nodes: &nodes,
        locals: &[0],
    };
    eval::values_of(context, 4)
}

// Whether the arguments x,y/z have values: by themselves, and in a call.
fn called(x: i64, y: i64, z: i64) -> (bool, bool)
    requires { (InRange x) × (InRange y) × (InRange z) }
{
    let nodes = [
        literal(x),
        literal(y),
        literal(z),
        tree::cell(NodeKind::DIVIDE, 0, 1, 0),
        tree::cell(NodeKind::ARGUMENT, 0, 0, 0),
        tree::cell(NodeKind::CALL_WITH, 0, 0, 2),
    ];
    let context = Context {
        nodes: &nodes,
        locals: &[0],
    };
    (
        eval::arguments_known(context, 4),
        next::arguments_given(context, 5),
    )
}

// The channel of x, y/z and the name 6.
fn items(x: i64, y: i64, z: i64) -> Option<Channel>
    requires { (InRange x) × (InRange y) × (InRange z) }
{
    let nodes = [
        literal(x),
        literal(y),
        literal(z),
        tree::cell(NodeKind::DIVIDE, 0, 1, 0),
        tree::cell(NodeKind::CHANNEL, 6, 0, 0),
        tree::cell(NodeKind::THREE_ITEMS, 0, 0, 3),
    ];
    let context = Context {
        nodes: &nodes,
        locals: &[0],
    };
    channel::channel_of(context, 5)
}

// The kind of what [i>0] -> {c![y/i],1} offers.
fn gated(i: i64, y: i64) -> u8
    requires { (InRange i) × (InRange y) }
{
    let nodes = [
        tree::cell(NodeKind::NAMED, 0, 0, 0),
        literal(0),
        tree::cell(NodeKind::GREATER, 0, 0, 0),
        tree::cell(NodeKind::CHANNEL, 0, 0, 0),
        tree::cell(NodeKind::NAMED, 1, 0, 0),
        tree::cell(NodeKind::NAMED, 0, 0, 0),
        tree::cell(NodeKind::DIVIDE, 0, 4, 0),
        tree::cell(NodeKind::LAUNCH, 0, 3, 0),
        number_cell(NodeKind::NUMBER, 10000),
        tree::cell(NodeKind::STOP, 0, 7, 0),
        tree::cell(NodeKind::GATE, 0, 2, 0),
    ];
    let context = Context {
        nodes: &nodes,
        locals: &[i, y],
    };
    kind_shown(offer::offer_of(context, 10))
}

// Whether v is in x..y, and in the joined set x..y\z, as an offer lists them.
fn listed(x: i64, y: i64, z: i64, v: i64) -> (bool, bool)
    requires { (InRange x) × (InRange y) × (InRange z) }
{
    let range = tree::cell(NodeKind::RANGE, 0, 0, 0);
    let without = tree::cell(NodeKind::WITHOUT, 0, 2, 0);
    let nodes = [literal(x), literal(y), range, literal(z), without];
    let context = Context {
        nodes: &nodes,
        locals: &[0],
    };
    (
        offer::in_offer_set(context, OfferSet::Range(x, y), v),
        offer::in_offer_set(context, OfferSet::Joined(4), v),
    )
}

#[test]
fn numbers(rt: HostRuntime) {
    assert_eq!(rt; quotient(-7, 2), Some(-4));
    assert_eq!(rt; quotient(7, 0), None);
    assert_eq!(rt; rate(1000000000), Some(1000000000));
    assert_eq!(rt; rate(1000000001), None);
    assert!(rt; matches!(values(3, 7, -2), Some(Values::Two(3, -4))));
    assert!(rt; values(3, 7, 0).is_none());
}

#[test]
fn sets(rt: HostRuntime) {
    assert!(rt; within(3, 11, 2, 2) == (true, false));
    assert!(rt; within(3, 11, 2, 3) == (true, true));
    assert!(rt; within(3, 11, 2, 5) == (true, true));
    assert!(rt; within(3, 11, 2, 6) == (true, false));
    assert!(rt; !within(3, 11, 0, 3).0);
    assert!(rt; listed(3, 5, 4, 4) == (true, false));
    assert!(rt; listed(3, 5, 4, 5) == (true, true));
    assert!(rt; listed(3, 5, 4, 6) == (false, false));
}

#[test]
fn gates(rt: HostRuntime) {
    assert_eq!(rt; greater(4, 7, 2), Some(true));
    assert_eq!(rt; greater(3, 7, 2), Some(false));
    assert_eq!(rt; greater(3, 7, 0), None);
    assert_eq!(rt; gated(0, 7), 0);
    assert_eq!(rt; gated(2, 7), 37);
}

#[test]
fn calls(rt: HostRuntime) {
    assert!(rt; called(3, 7, 2) == (true, true));
    assert!(rt; called(3, 7, 0) == (false, false));
}

#[test]
fn channels(rt: HostRuntime) {
    assert!(rt;
        matches!(
            items(3, 7, -2),
            Some(Channel {
                shape: 28,
                first: 3,
                second: -4,
                third: 6
            })
        )
    );
    assert!(rt; items(3, 7, 0).is_none());
}
