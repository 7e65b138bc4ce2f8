// Action and rate in their braces.
use syntax::braced::{braced, closed, lone, lone_minus, rated, rest, second, undecided};
use syntax::left::Left;
use syntax::named::Named;
use syntax::spot::Spot;
use token::Kind;
use tree::NodeKind;

// a, 2}
const WAITS: [u8; 4] = [Kind::NAME, b',', Kind::WHOLE, b'}'];

// Node 0 is the action's, node 1 the rate's.
#[test]
fn waits(rt: HostRuntime) {
    let toks = WAITS;
    let mut nodes = [0; 8];
    let spot = Spot {
        toks: &toks,
        at: 0,
        used: 0,
    };
    assert_eq!(rt; braced(spot, &mut nodes), Ok((4, 1, 0)));
    assert_eq!(rt; lone(Named { spot }, &mut nodes), Ok((4, 1, 0)));
    assert_eq!(rt;
        undecided(
            Named { spot },
            &mut nodes,
            2,
            NodeKind::NUMBER,
            NodeKind::LITERAL
        ),
        Ok((4, 1, 0))
    );
}

// The braces are read on from after the action.
#[test]
fn goes_on(rt: HostRuntime) {
    let toks = WAITS;
    let mut nodes = [0; 8];
    let comma = Left {
        toks: &toks,
        at: 1,
        root: 0,
    };
    assert_eq!(rt; rated(comma, &mut nodes), Ok((4, 1, 0)));
    assert_eq!(rt; rest(comma, &mut nodes), Ok((1, 0)));
    let rate = Left {
        toks: &toks,
        at: 2,
        root: 0,
    };
    assert_eq!(rt; closed(rate, &mut nodes), Ok((4, 1, 0)));
    assert_eq!(rt; rated(rate, &mut nodes), Err(2));
}

// a, -2}
#[test]
fn negative(rt: HostRuntime) {
    let toks = [Kind::NAME, b',', b'-', Kind::WHOLE, b'}'];
    let mut nodes = [0; 8];
    let spot = Spot {
        toks: &toks,
        at: 0,
        used: 0,
    };
    assert_eq!(rt; lone_minus(Named { spot }, &mut nodes), Ok((5, 1, 0)));
}

// a, b![2], 2} after its second item, which is node 1; node 2 is the channel's, 3 the value's, 4 the launch's.
#[test]
fn two_items(rt: HostRuntime) {
    let toks = [
        Kind::NAME,
        b',',
        Kind::NAME,
        b'!',
        b'[',
        Kind::WHOLE,
        b']',
        b',',
        Kind::WHOLE,
        b'}',
    ];
    let mut nodes = [0; 8];
    let left = Left {
        toks: &toks,
        at: 3,
        root: 1,
    };
    assert_eq!(rt; second(left, &mut nodes, 0), Ok((10, 5, 4)));
}
