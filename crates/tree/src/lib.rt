// Goals see how a node is a number.
#![tactic(auto, unfolding(crate::specs::Node::cell, crate::specs::Node::kind_of, crate::specs::Node::token_of, crate::specs::Node::left_of, crate::specs::Node::third_of))]

// A syntax tree as a table of nodes, and what reading functions answer.
ghost use Rattle.std.specs.Prelude.{◌≡◌, ◌<◌, set};
ghost use Rattle.tree.specs.Node.{field, cell, kind_of, token_of, left_of, third_of};

// The kinds of nodes. Bytes and no enum: a kind is the lowest byte of a node, and TURNED and DECIMAL are added to one.
#[derive(Clone, Copy)]
pub struct NodeKind;

impl NodeKind {
    pub const LITERAL: u8 = 1;

    pub const NEGATIVE: u8 = 2;

    pub const NAMED: u8 = 3;

    pub const ABSOLUTE: u8 = 4;

    pub const PLUS: u8 = 5;

    pub const MINUS: u8 = 6;

    pub const TIMES: u8 = 7;

    pub const DIVIDE: u8 = 8;

    pub const MAXIMUM: u8 = 9;

    pub const MINIMUM: u8 = 10;

    pub const RANGE: u8 = 11;

    pub const WITHOUT: u8 = 12;

    pub const UNION: u8 = 13;

    pub const INTER: u8 = 14;

    pub const LESS: u8 = 15;

    pub const AT_MOST: u8 = 16;

    pub const GREATER: u8 = 17;

    pub const AT_LEAST: u8 = 18;

    pub const SAME: u8 = 19;

    pub const DIFFERS: u8 = 20;
    // added to a relation after `~`
    pub const TURNED: u8 = 6;

    pub const BOTH: u8 = 27;

    pub const EITHER: u8 = 28;

    pub const NUMBER: u8 = 29;

    pub const NEGATIVE_NUMBER: u8 = 30;

    pub const NEGATIVE_DECIMAL: u8 = 32;
    // added to a number that is a decimal
    pub const DECIMAL: u8 = 2;

    pub const SCALE_NAME: u8 = 33;

    pub const SCALED: u8 = 34;

    pub const PAIR: u8 = 35;

    pub const WAIT: u8 = 36;

    pub const LAUNCH: u8 = 37;

    pub const KILL: u8 = 38;

    pub const RECEIVE: u8 = 39;

    pub const BIND: u8 = 40;

    pub const CHECK: u8 = 41;

    pub const HAND_SEND: u8 = 42;

    pub const HAND_RECEIVE: u8 = 43;

    pub const HAND_BIND: u8 = 44;

    pub const STOP: u8 = 45;

    pub const DOT: u8 = 46;

    pub const GATE: u8 = 47;

    pub const CHOICE: u8 = 48;

    pub const SUM: u8 = 49;

    pub const CALL: u8 = 50;

    pub const CALL_WITH: u8 = 51;

    pub const ARGUMENT: u8 = 52;

    pub const GROUP: u8 = 53;

    pub const ITEM: u8 = 54;

    pub const BESIDE: u8 = 55;

    pub const DEFINITION: u8 = 56;

    pub const START: u8 = 57;

    pub const START_WITH: u8 = 58;

    pub const COUNTED: u8 = 59;

    pub const COUNTED_WITH: u8 = 60;

    pub const WHOLE: u8 = 61;

    pub const SYSTEM: u8 = 62;

    pub const LAST: u8 = 63;

    pub const NEXT: u8 = 64;

    pub const VARIABLE: u8 = 65;
    // a channel name's, once it is settled
    pub const CHANNEL: u8 = 66;

    pub const TWO_ITEMS: u8 = 67;

    pub const THREE_ITEMS: u8 = 68;
}

// The next token's number and the root of what was read; or the number of the token that doesn't fit.
// Tuples and no structs, here and in the two types below: a caller takes an answer apart at once, to look at the token and to number the node after the root.
// Nor is an answer a Left of crate syntax, for those that go on at once: what Parsed says of the two numbers makes a Left Ready where one is wanted, and no reader has to
// prove it at its returns.
pub type Read = Result<(usize, usize), usize>;

// The next token's number and how many members a list has that makes no nodes; or the number of the token that doesn't fit.
pub type Members = Result<(usize, usize), usize>;

// As `Read`, with a count: of sums up to here, or of the members of a list.
pub type Counted = Result<(usize, usize, usize), usize>;

// A node has its kind below KINDS, then three fields below FIELD; a settled number has its kind there, then its value above OFFSET.
// One word and no struct: a settled number needs 56 of the 64 bits, and an enum of both would take two words. By `*`, `/` and `%`, as goals see a node; bytes
// of `to_le_bytes` would be a list to them.
pub const KINDS: u64 = 256;

pub const OFFSET: u64 = 36028797018963968;

const FIELD: u64 = 65536;

// A node with this kind and these fields. They come as `usize`, which readers count tokens and nodes in: as `u16` every call would cast them.
pub fn cell(kind: u8, token: usize, left: usize, third: usize) -> u64
    requires { (token < field) × (left < field) × (third < field) }
    ensures { result ≡ cell kind token left third }
{
    kind as u64 + KINDS * (token as u64 + FIELD * (left as u64 + FIELD * third as u64))
}

// Writes the node k, if the table has one. The table is a slice and nodes find their parts by index: there is no heap for a tree of boxes. Readers count the
// nodes themselves, past the table's end too, so that a table that is too short still tells whether the text fits.
pub fn node(nodes: &mut [u64], k: usize, kind: u8, token: usize, left: usize, third: usize)
    requires { (token < field) × (left < field) × (third < field) }
    ensures { nodes.new ≡ set nodes.old k (cell kind token left third) }
{
    if k < nodes.len() {
        nodes[k] = cell(kind, token, left, third);
    }
}

// Writes a node without parts.
pub fn leaf(nodes: &mut [u64], k: usize, kind: u8, token: usize)
    requires { token < field }
    ensures { nodes.new ≡ set nodes.old k (cell kind token 0 0) }
{
    node(nodes, k, kind, token, 0, 0);
}

// Writes a node of two parts, which needs no token: the first has its root at `left`.
pub fn pair(nodes: &mut [u64], k: usize, kind: u8, left: usize)
    requires { left < field }
    ensures { nodes.new ≡ set nodes.old k (cell kind 0 left 0) }
{
    node(nodes, k, kind, 0, left, 0);
}

// The kind of a node.
pub fn kind_of(node: u64) -> u8
    ensures { result ≡ kind_of node }
{
    (node % KINDS) as u8
}

// A node's token, or a sum's number.
pub fn token_of(node: u64) -> usize
    ensures { result ≡ token_of node }
{
    (node / KINDS % FIELD) as usize
}

// The root of a node's left part.
pub fn left_of(node: u64) -> usize
    ensures { result ≡ left_of node }
{
    (node / KINDS / FIELD % FIELD) as usize
}

// A node's third field.
pub fn third_of(node: u64) -> usize
    ensures { result ≡ third_of node }
{
    (node / KINDS / FIELD / FIELD % FIELD) as usize
}
