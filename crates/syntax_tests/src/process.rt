// Prefixes, continuations, groups and sums.
use syntax::process::{body, branches, call, cont, gated, group, item, items, offer, prefix, sum};
use syntax::site::Site;
use syntax::spot::Spot;
use token::Kind;

// (P[] || P[])
const GROUP: [u8; 9] = [
    b'(',
    Kind::NAME,
    b'[',
    b']',
    Kind::BARS,
    Kind::NAME,
    b'[',
    b']',
    b')',
];

// [1 < 2] -> {a, 2}
const GATED: [u8; 11] = [
    b'[',
    Kind::WHOLE,
    b'<',
    Kind::WHOLE,
    b']',
    Kind::ARROW,
    b'{',
    Kind::NAME,
    b',',
    Kind::WHOLE,
    b'}',
];

// {a, 2} + {a, 2}
const CHOICE: [u8; 11] = [
    b'{',
    Kind::NAME,
    b',',
    Kind::WHOLE,
    b'}',
    b'+',
    b'{',
    Kind::NAME,
    b',',
    Kind::WHOLE,
    b'}',
];

// {a, 2} || {a, 2}
const BESIDE: [u8; 11] = [
    b'{',
    Kind::NAME,
    b',',
    Kind::WHOLE,
    b'}',
    Kind::BARS,
    b'{',
    Kind::NAME,
    b',',
    Kind::WHOLE,
    b'}',
];

// The two calls are nodes 0 and 1, their list node 2 and the group node 3.
#[test]
fn groups(rt: HostRuntime) {
    let toks = GROUP;
    let mut nodes = [0; 8];
    let spot = Spot {
        toks: &toks,
        at: 0,
        used: 0,
    };
    assert_eq!(rt; group(Site { spot, sums: 0 }, &mut nodes), Ok((9, 3, 0)));
    assert_eq!(rt; cont(Site { spot, sums: 0 }, &mut nodes), Ok((9, 3, 0)));
    let inner = Spot {
        toks: &toks,
        at: 1,
        used: 0,
    };
    assert_eq!(rt;
        items(
            Site {
                spot: inner,
                sums: 0
            },
            &mut nodes
        ),
        Ok((9, 2, 0))
    );
    assert_eq!(rt;
        item(
            Site {
                spot: inner,
                sums: 0
            },
            &mut nodes
        ),
        Ok((4, 0, 0))
    );
    assert_eq!(rt; call(inner, &mut nodes, 1), Ok((4, 0, 1)));
}

// Nodes 0 to 2 are the condition's, 3 to 5 the offer's, and 6 the gate's.
#[test]
fn gates(rt: HostRuntime) {
    let toks = GATED;
    let mut nodes = [0; 8];
    let spot = Spot {
        toks: &toks,
        at: 0,
        used: 0,
    };
    assert_eq!(rt; gated(Site { spot, sums: 1 }, &mut nodes), Ok((11, 6, 1)));
    assert_eq!(rt; prefix(Site { spot, sums: 1 }, &mut nodes), Ok((11, 6, 1)));
    let brace = Spot {
        toks: &toks,
        at: 6,
        used: 3,
    };
    assert_eq!(rt;
        offer(
            Site {
                spot: brace,
                sums: 1
            },
            &mut nodes,
            0
        ),
        Ok((11, 5, 1))
    );
}

// Three nodes for each prefix, one for the two and one for the sum they are.
#[test]
fn sums(rt: HostRuntime) {
    let toks = CHOICE;
    let mut nodes = [0; 16];
    let spot = Spot {
        toks: &toks,
        at: 0,
        used: 0,
    };
    assert_eq!(rt;
        branches(Site { spot, sums: 1 }, &mut nodes),
        Ok((11, 6, 1))
    );
    assert_eq!(rt; sum(Site { spot, sums: 0 }, &mut nodes), Ok((11, 7, 1)));
}

// Four nodes for each prefix as a sum, and one for the two sums.
#[test]
fn bodies(rt: HostRuntime) {
    let toks = BESIDE;
    let mut nodes = [0; 16];
    let spot = Spot {
        toks: &toks,
        at: 0,
        used: 0,
    };
    assert_eq!(rt; body(Site { spot, sums: 0 }, &mut nodes), Ok((11, 8, 2)));
}
