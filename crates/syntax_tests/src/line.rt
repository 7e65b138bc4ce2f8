// Lines of a text.
use syntax::line::{definition, definitions, model, start, starts, system, variable};
use syntax::named::Named;
use syntax::spot::Spot;
use token::Kind;
use tree::NodeKind;

// P[] || P[];
const SYSTEM: [u8; 8] = [
    Kind::NAME,
    b'[',
    b']',
    Kind::BARS,
    Kind::NAME,
    b'[',
    b']',
    b';',
];

// x = 2; P[] = {a, 2}; P[];
const MODEL: [u8; 18] = [
    Kind::NAME,
    b'=',
    Kind::WHOLE,
    b';',
    Kind::NAME,
    b'[',
    b']',
    b'=',
    b'{',
    Kind::NAME,
    b',',
    Kind::WHOLE,
    b'}',
    b';',
    Kind::NAME,
    b'[',
    b']',
    b';',
];

// Each item has a node, and the two together have node 2.
#[test]
fn items(rt: HostRuntime) {
    let toks = SYSTEM;
    let mut nodes = [0; 8];
    let spot = Spot {
        toks: &toks,
        at: 0,
        used: 0,
    };
    assert_eq!(rt; start(spot, &mut nodes), Ok((3, 0)));
    assert_eq!(rt; system(spot, &mut nodes), Ok((8, 2)));
    let bracket = Spot {
        toks: &toks,
        at: 1,
        used: 0,
    };
    assert_eq!(rt; starts(bracket, &mut nodes, 0, NodeKind::START), Ok((3, 0)));
}

// Nodes 0 to 3 are the body's, with one sum, 4 the definition's, 5 the item's and 6 theirs.
#[test]
fn defines(rt: HostRuntime) {
    let toks = MODEL;
    let mut nodes = [0; 16];
    let spot = Spot {
        toks: &toks,
        at: 4,
        used: 0,
    };
    assert_eq!(rt; definition(Named { spot }, &mut nodes, 0), Ok((14, 4, 1)));
    assert_eq!(rt; definitions(Named { spot }, &mut nodes, 0), Ok((18, 6)));
}

// Node 0 is the number's, and the variable's is the last.
#[test]
fn variables(rt: HostRuntime) {
    let toks = MODEL;
    let mut nodes = [0; 16];
    let spot = Spot {
        toks: &toks,
        at: 0,
        used: 0,
    };
    assert_eq!(rt; model(spot, &mut nodes), Ok((18, 8)));
    assert_eq!(rt; variable(Named { spot }, &mut nodes), Ok((18, 8)));
}
