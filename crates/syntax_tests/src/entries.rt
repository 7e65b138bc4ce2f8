// The square brackets of an action.
ghost use Rattle.syntax.specs.Entries as entries;

use syntax::entries::{Entry, Set, Value, entries};
use syntax::expression;
use syntax::spot::Spot;
use token::Kind;
use tree::Read;

// An entry that says only how it is read from a spot.
struct Plain;

impl Entry for Plain {
    ghost which = { entries.value };

    fn read(spot: Spot, nodes: &mut [u64]) -> Read {
        expression::expr(spot.toks, spot.at, nodes, spot.used)
    }
}

// [2, 2] and [2..2]: a node for each number, and one for the pair or the range.
#[test]
fn reads(rt: HostRuntime) {
    let mut nodes = [0; 8];
    let values = [b'[', Kind::WHOLE, b',', Kind::WHOLE, b']'];
    let pair = Spot {
        toks: &values,
        at: 0,
        used: 0,
    };
    assert_eq!(rt; entries::<Value>(pair, &mut nodes), Ok((5, 2)));
    assert_eq!(rt; entries::<Plain>(pair, &mut nodes), Ok((5, 2)));
    let sets = [b'[', Kind::WHOLE, Kind::RANGE, Kind::WHOLE, b']'];
    let bracket = Spot {
        toks: &sets,
        at: 0,
        used: 0,
    };
    assert_eq!(rt; entries::<Set>(bracket, &mut nodes), Ok((5, 2)));
    let range = Spot {
        toks: &sets,
        at: 1,
        used: 0,
    };
    assert_eq!(rt; Set::read(range, &mut nodes), Ok((4, 2)));
    assert_eq!(rt; Value::read(range, &mut nodes), Ok((2, 0)));
}
