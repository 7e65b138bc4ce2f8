#![tactic(auto)]

// Evaluation over settled nodes: a part is given by its root in the table, a process by its locals.
pub mod channel;
pub mod next;
pub mod offer;

ghost use Rattle.std.specs.Prelude.{◌≡◌, Bool, cond, not, [], ◌∷◌, ℕ, ◌≤◌, ◌<◌, ℤ, pos, ◌*ℤ◌, length, get_or};
ghost use Rattle.std.proofs.Math.Option.{Option, some};
ghost use Rattle.value.specs.Range.{InRange};
ghost use Rattle.value.specs.Arithmetic.{abs_of};
ghost use Rattle.grammar.specs.Grammar.{Relation};
ghost use Rattle.grammar.specs.Syntax.{Op};
ghost use Rattle.tree.specs.Node.{op_kind, relation_kind, test_kind};
ghost use Rattle.model.specs.Resolved as Resolved;
ghost use Rattle.rules.specs.Offers.{range, within};
ghost use Rattle.tables.specs.Settled as Settled;
ghost use Rattle.model.specs.Good.{Every, GoodExpr, GoodSet, GoodCond, GoodRate};
ghost use Rattle.machine.specs.Evaluate.{with_value, valued, given, apply, related, in_rate, eval_expr};
ghost use Rattle.machine.specs.Offer.{all_values};
ghost use Rattle.eval.specs.Held.{Held, Worth, Sound, in_range-prop};
ghost use Rattle.eval.specs.Skips.{settles, skips};
ghost use Rattle.eval.specs.Rates.{rate_of, scale_answer, rate_answer};
ghost use Rattle.eval.specs.Lists.{values_given, values_answer};
ghost use Rattle.eval.specs.Answers.{Tells, ends_known, truth_of, truth};

use tree::NodeKind;

// What a part is evaluated in: the table that its root stands in, and the locals of a process, which are values.
#[derive(Clone, Copy)]
pub struct Context<'a> {
    pub nodes: &'a [u64],
    pub locals: &'a [i64],
    ghost in_range: { Every InRange locals.now } by { in_range-prop locals.now },
}

// Cell k; 0, which is no node, beyond the table's end. A name for the chain that every reader of nodes would repeat.
pub fn cell_at(nodes: &[u64], k: usize) -> u64
    ensures { result ≡ get_or nodes.now k 0 }
{
    nodes.get(k).copied().unwrap_or(0)
}

// Local i, 0 if there is none: a name, as of a cell. One generic function for both would take its 0 from a trait.
fn local_at(locals: &[i64], i: usize) -> i64
    ensures { result ≡ get_or locals.now i (pos 0) }
{
    locals.get(i).copied().unwrap_or(0)
}

// The number of a cell.
fn number_of(cell: u64) -> i64
    ensures { result ≡ Settled.number_of cell }
{
    (cell / tree::KINDS) as i64 - tree::OFFSET as i64
}

// One operator on two values. Kinds are the numbers that nodes hold, here and in `offer`, and those of one sort stand side by side: an enum for each sort would be
// made by a match on the same numbers, and taken apart by a second.
fn apply(kind: u8, x: i64, y: i64) -> Option<i64>
    requires { (InRange x) × (InRange y) }
    ensures { (o : Op) → kind ≡ op_kind o → result ≡ apply o x y }
{
    match kind {
        NodeKind::PLUS => value::add_value(x, y),
        NodeKind::MINUS => value::sub_value(x, y),
        NodeKind::TIMES => value::mul_value(x, y),
        NodeKind::DIVIDE => value::div_value(x, y),
        NodeKind::MAXIMUM => Some(value::max_of(x, y)),
        _ => Some(value::min_of(x, y)),
    }
}

// What the expression at k comes to.
pub fn eval_node_lent(context: &Context, k: usize) -> Option<i64>
    requires { Held (Settled.Expr context.now.nodes.now) (GoodExpr (length context.now.locals.now)) k }
    ensures { Worth (Settled.Expr context.now.nodes.now) (eval_expr context.now.locals.now) k result }
{
    let cell = cell_at(context.nodes, k);
    let kind = tree::kind_of(cell);
    if kind == NodeKind::LITERAL {
        return Some(number_of(cell));
    }
    if kind == NodeKind::NAMED {
        return Some(local_at(context.locals, tree::token_of(cell)));
    }
    if kind == NodeKind::ABSOLUTE {
        let x = eval_node_lent(context, k - 1)?;
        return value::abs_value(x);
    }
    let x = eval_node_lent(context, tree::left_of(cell))?;
    let y = eval_node_lent(context, k - 1)?;
    apply(kind, x, y)
}

// The same of a context by value.
pub fn eval_node(context: Context, k: usize) -> Option<i64>
    requires { Held (Settled.Expr context.nodes.now) (GoodExpr (length context.locals.now)) k }
    ensures { Worth (Settled.Expr context.entry.nodes.now) (eval_expr context.entry.locals.now) k result }
{
    eval_node_lent(&context, k)
}

// Whether the left set alone tells that something is in both or not.
fn settled(kind: u8, p: bool) -> bool
    ensures { result ≡ settles kind p }
{
    if kind == NodeKind::UNION { p } else { !p }
}

// Whether v is in the set at k: in a range by two comparisons, as the definition has them. Let-elses, for one value as for two: both answer false of what has none.
pub fn in_set_lent(context: &Context, k: usize, v: i64) -> bool
    requires { Held (Settled.Set context.now.nodes.now) (GoodSet (length context.now.locals.now)) k }
    ensures { Tells context.now.nodes.now context.now.locals.now v k result }
{
    let cell = cell_at(context.nodes, k);
    let kind = tree::kind_of(cell);
    if kind < NodeKind::RANGE {
        let Some(x) = eval_node_lent(context, k) else {
            return false;
        };
        return v == x;
    }
    let i = tree::left_of(cell);
    if kind == NodeKind::RANGE {
        let x = eval_node_lent(context, i);
        let y = eval_node_lent(context, k - 1);
        let Some((a, b)) = x.zip(y) else {
            return false;
        };
        return a <= v && v <= b;
    }
    let p = in_set_lent(context, i, v);
    if settled(kind, p) {
        return p;
    }
    let q = in_set_lent(context, k - 1, v);
    if kind == NodeKind::WITHOUT {
        return !q;
    }
    q
}

// The same of a context by value.
pub fn in_set(context: Context, k: usize, v: i64) -> bool
    requires { Held (Settled.Set context.nodes.now) (GoodSet (length context.locals.now)) k }
    ensures { Tells context.entry.nodes.now context.entry.locals.now v k result }
{
    in_set_lent(&context, k, v)
}

// Whether all ends of the set at k have values.
pub fn ends_known_lent(context: &Context, k: usize) -> bool
    requires { Held (Settled.Set context.now.nodes.now) (GoodSet (length context.now.locals.now)) k }
    ensures { Worth (Settled.Set context.now.nodes.now) (ends_known context.now.locals.now) k result }
{
    let cell = cell_at(context.nodes, k);
    let kind = tree::kind_of(cell);
    if kind < NodeKind::RANGE {
        return eval_node_lent(context, k).is_some();
    }
    let i = tree::left_of(cell);
    if kind == NodeKind::RANGE {
        return eval_node_lent(context, i).is_some() && eval_node_lent(context, k - 1).is_some();
    }
    ends_known_lent(context, i) && ends_known_lent(context, k - 1)
}

// The same of a context by value.
pub fn ends_known(context: Context, k: usize) -> bool
    requires { Held (Settled.Set context.nodes.now) (GoodSet (length context.locals.now)) k }
    ensures { Worth (Settled.Set context.entry.nodes.now) (ends_known context.entry.locals.now) k result }
{
    ends_known_lent(&context, k)
}

// One relation on two values.
fn related(kind: u8, x: i64, y: i64) -> bool
    ensures { (r : Relation) → kind ≡ relation_kind r → result ≡ related r x y }
{
    match kind {
        NodeKind::LESS => x < y,
        NodeKind::AT_MOST => x <= y,
        NodeKind::GREATER => y < x,
        NodeKind::AT_LEAST => y <= x,
        NodeKind::SAME => x == y,
        _ => x != y,
    }
}

// The same after `~` or not.
fn tested(kind: u8, x: i64, y: i64) -> bool
    ensures { (turned : Bool) (r : Relation) → kind ≡ test_kind turned r → result ≡ cond turned (not (related r x y)) (related r x y) }
{
    if NodeKind::DIFFERS < kind {
        return !related(kind - NodeKind::TURNED, x, y);
    }
    related(kind, x, y)
}

// Whether the left condition alone decides.
fn decided(kind: u8, p: Option<bool>) -> bool
    ensures { result ≡ skips kind p }
{
    match p {
        Some(true) => kind == NodeKind::EITHER,
        Some(false) => kind == NodeKind::BOTH,
        None => true,
    }
}

// Whether the condition at k holds.
pub fn holds_lent(context: &Context, k: usize) -> Option<bool>
    requires { Held (Settled.Cond context.now.nodes.now) (GoodCond (length context.now.locals.now)) k }
    ensures { Worth (Settled.Cond context.now.nodes.now) (truth context.now.locals.now) k result }
{
    let cell = cell_at(context.nodes, k);
    let kind = tree::kind_of(cell);
    let i = tree::left_of(cell);
    if kind < NodeKind::BOTH {
        let x = eval_node_lent(context, i)?;
        let y = eval_node_lent(context, k - 1)?;
        return Some(tested(kind, x, y));
    }
    let p = holds_lent(context, i);
    if decided(kind, p) {
        return p;
    }
    holds_lent(context, k - 1)
}

// The same of a context by value.
pub fn holds(context: Context, k: usize) -> Option<bool>
    requires { Held (Settled.Cond context.nodes.now) (GoodCond (length context.locals.now)) k }
    ensures { Worth (Settled.Cond context.entry.nodes.now) (truth context.entry.locals.now) k result }
{
    holds_lent(&context, k)
}

#[derive(Clone, Copy)]
pub struct RateRange;

impl RateRange {
    pub const GREATEST: u64 = 1000000000;

    // ten-thousandths of a whole number
    pub const UNIT: u64 = word::Limits::UNIT;
}

// z as a rate, if it lies in the range.
fn rate_in(z: i64) -> Option<u64>
    ensures { result ≡ rate_of (in_rate z) }
{
    let n = u64::try_from(z).ok()?;
    (n <= RateRange::GREATEST).then_some(n)
}

// The product of a scale and a number, of any size: whether it is a rate is decided before it is multiplied.
fn scaled(n: u64, v: i64) -> Option<u64>
    ensures { result ≡ rate_of (in_rate (pos n *ℤ v)) }
{
    if n == 0 {
        return Some(0);
    }
    let size = u64::try_from(v).ok()?;
    if !value::product_within(n, size, RateRange::GREATEST) {
        return None;
    }
    Some(n * size)
}

// What the scale at k comes to.
fn scale_of(context: &Context, k: usize) -> Option<u64>
    ensures { Worth (Settled.Scale context.now.nodes.now) (scale_answer context.now.locals.now) k result }
{
    let cell = cell_at(context.nodes, k);
    if tree::kind_of(cell) == NodeKind::NUMBER {
        return rate_in(number_of(cell));
    }
    scaled(
        RateRange::UNIT,
        local_at(context.locals, tree::token_of(cell)),
    )
}

// What the rate at k comes to.
pub fn rate_of_lent(context: &Context, k: usize) -> Option<u64>
    requires { Held (Settled.Rate context.now.nodes.now) (GoodRate (length context.now.locals.now)) k }
    ensures { Worth (Settled.Rate context.now.nodes.now) (rate_answer context.now.locals.now) k result }
{
    let cell = cell_at(context.nodes, k);
    if tree::kind_of(cell) != NodeKind::SCALED {
        return scale_of(context, k);
    }
    let scale = scale_of(context, tree::left_of(cell))?;
    let x = eval_node_lent(context, k - 1)?;
    scaled(scale, x)
}

// The same of a context by value.
pub fn rate_of(context: Context, k: usize) -> Option<u64>
    requires { Held (Settled.Rate context.nodes.now) (GoodRate (length context.locals.now)) k }
    ensures { Worth (Settled.Rate context.entry.nodes.now) (rate_answer context.entry.locals.now) k result }
{
    rate_of_lent(&context, k)
}

#[derive(Clone, Copy)]
pub enum Values {
    One(i64),
    Two(i64, i64),
}

// What the one or two expressions at k come to.
pub fn values_of_lent(context: &Context, k: usize) -> Option<Values>
    requires { Held (Settled.OneOrTwo context.now.nodes.now (Settled.Expr context.now.nodes.now)) (Every (GoodExpr (length context.now.locals.now))) k }
    ensures { Worth (Settled.OneOrTwo context.now.nodes.now (Settled.Expr context.now.nodes.now)) (values_answer context.now.locals.now) k result }
{
    let cell = cell_at(context.nodes, k);
    if tree::kind_of(cell) != NodeKind::PAIR {
        let x = eval_node_lent(context, k)?;
        return Some(Values::One(x));
    }
    let x = eval_node_lent(context, tree::left_of(cell))?;
    let y = eval_node_lent(context, k - 1)?;
    Some(Values::Two(x, y))
}

// The same of a context by value.
pub fn values_of(context: Context, k: usize) -> Option<Values>
    requires { Held (Settled.OneOrTwo context.nodes.now (Settled.Expr context.nodes.now)) (Every (GoodExpr (length context.locals.now))) k }
    ensures { Worth (Settled.OneOrTwo context.entry.nodes.now (Settled.Expr context.entry.nodes.now)) (values_answer context.entry.locals.now) k result }
{
    values_of_lent(&context, k)
}

// Whether all arguments at k have values.
pub fn arguments_known_lent(context: &Context, k: usize) -> bool
    requires { Held (Settled.Arguments context.now.nodes.now) (Every (GoodExpr (length context.now.locals.now))) k }
    ensures { Worth (Settled.Arguments context.now.nodes.now) (all_values context.now.locals.now) k result }
{
    let cell = cell_at(context.nodes, k);
    if tree::kind_of(cell) != NodeKind::ARGUMENT {
        return eval_node_lent(context, k).is_some();
    }
    eval_node_lent(context, tree::left_of(cell)).is_some() && arguments_known_lent(context, k - 1)
}

// The same of a context by value.
pub fn arguments_known(context: Context, k: usize) -> bool
    requires { Held (Settled.Arguments context.nodes.now) (Every (GoodExpr (length context.locals.now))) k }
    ensures { Worth (Settled.Arguments context.entry.nodes.now) (all_values context.entry.locals.now) k result }
{
    arguments_known_lent(&context, k)
}
