#![tactic(auto)]

// Resolving a syntax tree in place: names give way to what they stand for.
ghost use Rattle.token.specs.Contents.{lows_in, highs_in};
ghost use Rattle.std.specs.Prelude.{◌≡◌, List, [], Bool, true, false, ◌||◌, eqb, ℕ, ◌+◌, ◌-◌, ◌*◌, ◌≤◌, ◌<◌, length};
ghost use Rattle.model.specs.Limits.{definition_limit};
ghost use Rattle.model.specs.Scope.{scope_width};
ghost use Rattle.tree.specs.Node.{sum as sumKind};
ghost use Rattle.tree.specs.Node.{field, kind_of, token_of, number_kind};
ghost use Rattle.grammar.specs.Syntax.{number};
ghost use Rattle.model.specs.Given.{is_given, variable_named};
ghost use Rattle.model.specs.Resolved as Resolved;
ghost use Rattle.model.specs.Resolved.{number_scale, scale_named};
ghost use Rattle.names.specs.declared.Question.TheVariants.{Given};
ghost use Rattle.names.specs.Placed.{IsName};
ghost use Rattle.names.specs.Settings.{Scoped};
ghost use Rattle.tables.specs.Settled.{offset, number_cell};
ghost use Rattle.settle.specs.Kids.{hash_of, kid_found, hung_below};
ghost use Rattle.settle.specs.Walks.{scale_cell, definition_of, params_at, name, role_of, Point, begun, cell_by};
ghost use Rattle.settle.specs.Places.{signed, ScaleTold, LookupIn, kinds_in, word_in, variables_in, definitions_of, NumberFound, Heard, Sought, PlaceIn, meaning_at, Valued, CallsIn, LeafIn, KnowsIn, TurnIn, turned, marked_by, Settled, Resolvable};
ghost use Rattle.settle.specs.Settles.{Settles};
ghost use Rattle.tables.specs.Represents.{Represents};
ghost use Rattle.names.specs.declared.Lists.{Lists};

use names::{Lists, Parsed, Scope};
use token::Content;
use tree::NodeKind;
use word::Limits;

// Where the walk over the nodes stands: the locals in scope, and how many sums and definitions it has met. The channel names it has met are lent beside it, for a Walk is copied.
#[derive(Clone, Copy)]
pub struct Walk {
    pub scope: Scope,
    pub sums: usize,
    pub definitions: usize,
}

// The channel names met, in a lent table: node i is the name with the number i, and all hang in one search tree below node 0.
// A tree in a table, with a hash of its own: a map of the library takes memory from a heap.
#[derive(Drop)]
struct Channels<'a> {
    nodes: &'a mut [u64],
    count: usize,
}

// What a resolved model's tables hold: where its lists stand, and how many sums and channel names it has.
#[derive(Clone, Copy)]
pub struct Model {
    pub lists: Lists,
    pub sums: usize,
    pub channels: usize,
}

// An item's count stands so many tokens before its name, and the kinds of items with a count so many after those without.
pub const COUNT_BEFORE: usize = 2;

const COUNTS: u8 = 2;

// What the words of a packed name are multiplied by for its hash, which is below PRIME.
const FIRST: u64 = 1640531527;

const SECOND: u64 = 1013904223;

const PRIME: u64 = 2147483629;

// The highest bit of a word.
const TOP: u64 = 9223372036854775808;

fn number_cell(kind: u8, negated: bool, value: u64) -> u64
    requires { value < offset }
    ensures { result ≡ number_cell kind (signed negated value) }
{
    if negated {
        return kind as u64 + tree::KINDS * (tree::OFFSET - value);
    }
    kind as u64 + tree::KINDS * (tree::OFFSET + value)
}

// Whether a number of a rate or a variable has `-`, by the kind of its node.
#[tactic(auto, unfolding(tree::specs::Node::number_kind))]
fn is_negative(kind: u8) -> bool
    ensures { result ≡ (eqb kind (number_kind true false) || eqb kind (number_kind true true)) }
{
    matches!(kind, NodeKind::NEGATIVE_NUMBER | NodeKind::NEGATIVE_DECIMAL)
}

// The cell of a number of a rate or a variable, in ten-thousandths, by its node's kind and token.
fn scale_cell(contents: &[Content], kind: u8, k: usize) -> u64
    requires { (w : ℕ → List ℕ) × (b : Bool) × (d : Bool) × ScaleTold (lows_in contents.now) w b d kind k }
    ensures { (w : ℕ → List ℕ) (b d : Bool) → ScaleTold (lows_in contents.now) w b d kind k → result ≡ scale_cell (Resolved.fixed (number_scale w [] [] [] (number b d k))) }
{
    let negated = is_negative(kind);
    let value = contents[k].low;
    if names::is_whole(kind) {
        return number_cell(NodeKind::NUMBER, negated, value * Limits::UNIT);
    }
    number_cell(NodeKind::NUMBER, negated, value)
}

// The node of the number of the variable with the name k. names' `value_fault` looks it up alike: what is known there is SettingIn, here LookupIn, and a function for both
// would ask for a third fact.
fn number_named(parsed: Parsed, k: usize) -> Option<u64>
    requires { (h : LookupIn parsed) × IsName (kinds_in h) k }
    ensures { (h : LookupIn parsed.entry) → IsName (kinds_in h) k → NumberFound (lows_in parsed.entry.contents.now) (word_in h) (variable_named (word_in h) k (variables_in h)) result }
{
    let root = parsed.lists.root;
    let j = parsed.variable_named(k)?;
    Some(parsed.nodes[tree::left_of(parsed.nodes[root - j])])
}

// The number of the definition with the name k.
fn definition_named(parsed: Parsed, k: usize) -> usize
    requires { (h : LookupIn parsed) × IsName (kinds_in h) k }
    ensures { (h : LookupIn parsed.entry) → IsName (kinds_in h) k → result ≡ definition_of (word_in h) (variables_in h) (definitions_of h) k }
{
    // The specs number a name without a definition 0; question 9 lets none through, and the one caller needs a number.
    parsed.definition_named(k).unwrap_or(0)
}

// The hash of a packed name. Its bits come first, so that names that begin alike part early.
fn hash_of(first: u64, second: u64) -> u64
    ensures { result ≡ hash_of first second }
{
    (first % PRIME * FIRST + second % PRIME * SECOND) % PRIME
}

// The kid of a channel name's node for a bit.
fn kid_of(node: u64, bit: u64) -> Option<usize>
    ensures { result ≡ kid_found node bit }
{
    let kid = if bit == 0 {
        tree::left_of(node)
    } else {
        tree::third_of(node)
    };
    (kid != 0).then_some(kid)
}

impl<'a> Channels<'a> {
    // Makes the name k the next node, a kid of the node i for a bit.
    fn hang(&mut self, i: usize, bit: u64, k: usize)
        requires { (i < length self.old.nodes.now) × (self.old.count < field) × (k < field) }
        ensures nodes { self.new.nodes.now ≡ hung_below self.old.nodes.now i bit self.old.count k }
        ensures count { self.new.count ≡ self.old.count + 1 }
    {
        let n = self.count;
        let node = self.nodes[i];
        let name = tree::token_of(node);
        self.count = n + 1;
        tree::node(self.nodes, n, 0, k, 0, 0);
        if bit == 0 {
            tree::node(self.nodes, i, 0, name, n, tree::third_of(node));
            return;
        }
        tree::node(self.nodes, i, 0, name, tree::left_of(node), n);
    }

    // The number of the name k; a new one hangs in the tree then. From a name that isn't k's, the next bit of k's leads on.
    fn place(&mut self, contents: &[Content], k: usize) -> usize
        requires { (seen : List ℕ) × Heard (lows_in contents.now) (highs_in contents.now) self.old.nodes.now self.old.count k seen }
        ensures { (seen : List ℕ) → Heard (lows_in contents.now) (highs_in contents.now) self.old.nodes.now self.old.count k seen → Sought (lows_in contents.now) (highs_in contents.now) self.old.nodes.now self.old.count k seen self.new.nodes.now self.new.count result }
    {
        let n = self.count;
        if n == 0 {
            tree::node(self.nodes, 0, 0, k, 0, 0);
            self.count = 1;
            return 0;
        }
        let mut first = contents[k].low;
        let mut second = contents[k].high;
        let mut bits = hash_of(first, second);
        let mut i = 0;
        // A loop: a turn goes one node down the tree.
        loop {
            let node = self.nodes[i];
            if names::same_name(contents, k, tree::token_of(node)) {
                return i;
            }
            let Some(kid) = kid_of(node, bits % 2) else {
                self.hang(i, bits % 2, k);
                return n;
            };
            bits = bits / 2 + TOP * (first % 2);
            first = first / 2 + TOP * (second % 2);
            second = second / 2;
            i = kid;
        }
    }
}

// The cell of the name k that is a rate's scale.
fn scale_named(parsed: Parsed, scope: Scope, k: usize) -> u64
    requires { (h : PlaceIn parsed scope) × IsName (kinds_in h.at) k × (is_given (meaning_at h k) ≡ true) }
    ensures { (h : PlaceIn parsed.entry scope) → IsName (kinds_in h.at) k → is_given (meaning_at h k) ≡ true → result ≡ scale_cell (scale_named (word_in h.at) (variables_in h.at) (definitions_of h.at) [] (meaning_at h k)) }
{
    if let Some(j) = names::local_named(parsed.contents, scope, k) {
        return tree::cell(NodeKind::SCALE_NAME, j, 0, 0);
    }
    // Question 9 has told that the name is given.
    let Some(number) = number_named(parsed, k) else {
        unreachable!();
    };
    scale_cell(
        parsed.contents,
        tree::kind_of(number),
        tree::token_of(number),
    )
}

// The cell of the name k that is a value; None if it is a channel name.
fn value_named(parsed: Parsed, scope: Scope, k: usize) -> Option<u64>
    requires { (h : PlaceIn parsed scope) × IsName (kinds_in h.at) k }
    ensures { (h : PlaceIn parsed.entry scope) (seen : List ℕ) → IsName (kinds_in h.at) k → Valued (word_in h.at) (variables_in h.at) (definitions_of h.at) seen (meaning_at h k) result }
{
    if let Some(j) = names::local_named(parsed.contents, scope, k) {
        return Some(tree::cell(NodeKind::NAMED, j, 0, 0));
    }
    let number = number_named(parsed, k)?;
    let kind = tree::kind_of(number);
    if names::is_whole(kind) {
        return Some(number_cell(
            NodeKind::LITERAL,
            is_negative(kind),
            parsed.contents[tree::token_of(number)].low,
        ));
    }
    None
}

// Where the node i is a sum's, keeps the root of its branches, and its locals and definition, under its number. A scope is both in one number, in a table of its own: a state is judged by
// these numbers alone.
fn mark_sum(roots: &mut [u16], scopes: &mut [u16], node: u64, i: usize, walk: Walk)
    requires { (kind_of node ≡ sumKind → (token_of node < length roots.old) × (token_of node < length scopes.old) × (0 < i)) × (i < field) × (walk.scope.count < 256) × (walk.definitions ≤ definition_limit) }
    ensures roots_after { roots.new ≡ marked_by node roots.old (i - 1) }
    ensures scopes_after { scopes.new ≡ marked_by node scopes.old (walk.scope.count + walk.definitions * scope_width) }
{
    if tree::kind_of(node) == NodeKind::SUM {
        let n = tree::token_of(node);
        roots[n] = (i - 1) as u16;
        scopes[n] = (walk.scope.count + walk.definitions * model::Limits::SCOPE) as u16;
    }
}

// The parameters of the definition d, which may be one past the last.
fn parameters_of(parsed: Parsed, d: usize) -> Scope
    requires { LookupIn parsed }
    ensures { (h : LookupIn parsed.entry) → Scoped Given (kinds_in h) result (params_at (definitions_of h) d) }
{
    let none = names::no_locals();
    let lists = parsed.lists;
    if lists.definitions <= d {
        return none;
    }
    // Written out, not by first_definition: the goals below take the place as this number, and would have to be told of a call's result each.
    let at = lists.root - lists.variables - d;
    let node = parsed.nodes[tree::left_of(parsed.nodes[at])];
    names::with_locals(none, tree::token_of(node) + 2, tree::third_of(node))
}

// The walk before the first definition.
fn walk_begun(parsed: Parsed) -> Walk
    requires { LookupIn parsed }
    ensures { (h : LookupIn parsed.entry) (heard : List ℕ) → KnowsIn parsed.entry (kinds_in h) heard 0 result (begun (word_in h) (variables_in h) (definitions_of h)) }
{
    Walk {
        scope: parameters_of(parsed, 0),
        sums: 0,
        definitions: 0,
    }
}

// The walk after a node that is no name: names come into scope at an action, and go at the end of its branch. A rate doesn't use them, as question 9 has told.
fn walk_after(parsed: Parsed, walk: Walk, node: u64) -> Walk
    requires { (heard : List ℕ) × (met : ℕ) × TurnIn parsed heard met walk node × (role_of (kind_of node) ≡ name → ⊥) }
    ensures { (heard : List ℕ) (met : ℕ) (h : TurnIn parsed.entry heard met walk node) → (role_of (kind_of node) ≡ name → ⊥) → KnowsIn parsed.entry (kinds_in h.at) heard met result (turned h) }
{
    let scope = walk.scope;
    match tree::kind_of(node) {
        NodeKind::WAIT..=NodeKind::HAND_BIND => {
            let scope = names::with_locals(scope, tree::token_of(node), tree::third_of(node));
            Walk { scope, ..walk }
        }
        NodeKind::STOP | NodeKind::DOT => {
            let n = tree::third_of(parsed.nodes[tree::left_of(node)]);
            let names = scope.names;
            let scope = Scope {
                names,
                count: scope.count - n,
            };
            Walk { scope, ..walk }
        }
        NodeKind::SUM => Walk {
            sums: walk.sums + 1,
            ..walk
        },
        NodeKind::DEFINITION => {
            let definitions = walk.definitions + 1;
            let scope = parameters_of(parsed, definitions);
            Walk {
                scope,
                definitions,
                ..walk
            }
        }
        _ => walk,
    }
}

// The cell of a call or an item of the system line.
fn call_cell(parsed: Parsed, node: u64) -> u64
    requires { CallsIn parsed node }
    ensures { (h : CallsIn parsed.entry node) (p : Point) → result ≡ cell_by (word_in h.at) (variables_in h.at) (definitions_of h.at) (role_of (kind_of node)) node p }
{
    let kind = tree::kind_of(node);
    let k = tree::token_of(node);
    let d = definition_named(parsed, k);
    let third = tree::third_of(node);
    if kind < NodeKind::START {
        return tree::cell(kind, d, tree::left_of(node), third);
    }
    if kind < NodeKind::COUNTED {
        return tree::cell(kind, d, 1, third);
    }
    let count = parsed.contents[k - COUNT_BEFORE].low;
    tree::cell(kind - COUNTS, d, count as usize, third)
}

// The cell of a node that is no name of a value or a channel.
fn leaf_cell(parsed: Parsed, scope: Scope, node: u64) -> u64
    requires { LeafIn parsed scope node }
    ensures { (h : LeafIn parsed.entry scope node) → result ≡ cell_by (word_in h.place.at) (variables_in h.place.at) (definitions_of h.place.at) (role_of (kind_of node)) node h.point }
{
    let kind = tree::kind_of(node);
    let k = tree::token_of(node);
    match kind {
        NodeKind::LITERAL | NodeKind::NEGATIVE => number_cell(
            NodeKind::LITERAL,
            kind == NodeKind::NEGATIVE,
            parsed.contents[k].low,
        ),
        NodeKind::NUMBER..=NodeKind::NEGATIVE_DECIMAL => scale_cell(parsed.contents, kind, k),
        NodeKind::SCALE_NAME => scale_named(parsed, scope, k),
        NodeKind::CALL | NodeKind::CALL_WITH => call_cell(parsed, node),
        NodeKind::START..=NodeKind::COUNTED_WITH => call_cell(parsed, node),
        _ => node,
    }
}

// The cell of a node, and the walk after it. A channel name that is met first gets the next number.
fn settle_node(parsed: Parsed, met: &mut Channels, walk: Walk, node: u64) -> (u64, Walk)
    requires { TurnIn parsed met.old.nodes.now met.old.count walk node }
    ensures { (h : TurnIn parsed.entry met.old.nodes.now met.old.count walk node) → Settled h met.new.nodes.now met.new.count result.0 result.1 }
{
    if tree::kind_of(node) != NodeKind::NAMED {
        let cell = leaf_cell(parsed, walk.scope, node);
        return (cell, walk_after(parsed, walk, node));
    }
    let k = tree::token_of(node);
    if let Some(cell) = value_named(parsed, walk.scope, k) {
        return (cell, walk);
    }
    let c = met.place(parsed.contents, k);
    (tree::cell(NodeKind::CHANNEL, c, 0, 0), walk)
}

// Resolves the model at this root: one walk over its definitions and its system line, in the text's order. For each sum the root of its branches and its scope are kept, and names is where
// the channel names hang. The tables are lent one by one, as opening says of its own; `mark_sum`, of one call, is lent two of them.
pub fn settle(
    contents: &[Content],
    nodes: &mut [u64],
    roots: &mut [u16],
    scopes: &mut [u16],
    names: &mut [u64],
    root: usize,
) -> Model
    requires { (lists : Lists) × (lists.root ≡ root) × Resolvable (lows_in contents.now) (highs_in contents.now) nodes.old (length roots.old) (length scopes.old) (length names.old) lists }
    ensures represents { (lists : Lists) (h : Resolvable (lows_in contents.now) (highs_in contents.now) nodes.old (length roots.old) (length scopes.old) (length names.old) lists) → lists.root ≡ root → Represents nodes.new roots.new scopes.new result.lists.root result.lists.variables result.lists.definitions result.sums result.channels (Resolved.resolved h.base.world.word h.base.world.model) }
    ensures definitions_bound { result.lists.variables + result.lists.definitions ≤ result.lists.root }
    ensures settles { (lists : Lists) (h : Resolvable (lows_in contents.now) (highs_in contents.now) nodes.old (length roots.old) (length scopes.old) (length names.old) lists) → lists.root ≡ root → Settles h.base.world.word h.base.world.model nodes.new roots.new scopes.new result }
{
    let lists = names::lists_of(nodes, root);
    let line = lists.line();
    let mut walk = walk_begun(Parsed {
        contents,
        nodes,
        lists,
    });
    let mut met = Channels {
        nodes: names,
        count: 0,
    };
    for i in lists.variables..=line {
        let node = nodes[i];
        let parsed = Parsed {
            contents,
            nodes,
            lists,
        };
        let (cell, next) = settle_node(parsed, &mut met, walk, node);
        mark_sum(roots, scopes, node, i, walk);
        nodes[i] = cell;
        walk = next;
    }
    Model {
        lists,
        sums: walk.sums,
        channels: met.count,
    }
}
