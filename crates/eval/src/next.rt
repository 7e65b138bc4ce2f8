// Continuations over settled nodes: whether their arguments have values, how many processes they become, and the rows of these.
ghost use Rattle.std.specs.Prelude.{◌≡◌, List, [], ◌∷◌, ℕ, ◌+◌, ◌-◌, ◌*◌, ◌≤◌, ◌<◌, ℤ, pos, length, get_or};
ghost use Rattle.std.proofs.lemmas.List.Edits.{sets};
ghost use Rattle.value.specs.Range.{InRange};
ghost use Rattle.tree.specs.Node.{field, left_of};
ghost use Rattle.model.specs.Limits.{local_limit};
ghost use Rattle.model.specs.Resolved as Resolved;
ghost use Rattle.tables.specs.Settled as Settled;
ghost use Rattle.tables.specs.Represents as Represents;
ghost use Rattle.model.specs.Good.{Every, GoodPart};
ghost use Rattle.machine.specs.Offer.{arguments_given, next_processes};
ghost use Rattle.machine.specs.State.{process_width, process_numbers};
ghost use Rattle.eval.specs.Held.{Held, Worth};
ghost use Rattle.eval.specs.Next as Become;

use crate::Context;
use tables::Tables;
use tree::NodeKind;

// The continuation of the branch at k behind its gate, if it has one. By an if: from the test it is known that a node stands before this one; then_some would take k - 1 first.
fn prefix_next(nodes: &[u64], k: usize) -> Option<usize>
    requires { Become.SomePrefix nodes.now k }
    ensures { (a : Resolved.Action) (q : Resolved.Rate) (ps : List Resolved.Part) → Settled.Offer nodes.now a q ps k → Become.ShowsNext nodes.now ps result }
{
    if tree::kind_of(crate::cell_at(nodes, k)) == NodeKind::DOT {
        return Some(k - 1);
    }
    None
}

// The branch at k behind its gate, if it has one.
pub fn past_gate(nodes: &[u64], k: usize) -> usize
    requires { (b : Resolved.Branch) × Settled.Branch nodes.now b k }
    ensures { (b : Resolved.Branch) → Settled.Branch nodes.now b k → Settled.Offer nodes.now b.action b.rate b.next result }
{
    if tree::kind_of(crate::cell_at(nodes, k)) != NodeKind::GATE {
        return k;
    }
    k - 1
}

// The continuation of the branch at k.
pub fn continuation_of(nodes: &[u64], k: usize) -> Option<usize>
    requires { (b : Resolved.Branch) × Settled.Branch nodes.now b k }
    ensures { (b : Resolved.Branch) → Settled.Branch nodes.now b k → Become.ShowsNext nodes.now b.next result }
{
    prefix_next(nodes, past_gate(nodes, k))
}

// Whether all arguments of the calls at k have values.
pub fn arguments_given_lent(context: &Context, k: usize) -> bool
    requires { (m : Resolved.Model) × Held (Settled.Parts context.now.nodes.now) (Every (GoodPart m (length context.now.locals.now))) k }
    ensures { Worth (Settled.Parts context.now.nodes.now) (arguments_given context.now.locals.now) k result }
{
    let cell = crate::cell_at(context.nodes, k);
    let kind = tree::kind_of(cell);
    if kind == NodeKind::GROUP {
        return arguments_given_lent(context, k - 1);
    }
    if kind == NodeKind::ITEM {
        return arguments_given_lent(context, tree::left_of(cell))
            && arguments_given_lent(context, k - 1);
    }
    if kind == NodeKind::CALL_WITH {
        return crate::arguments_known_lent(context, k - 1);
    }
    true
}

// The same of a context by value.
pub fn arguments_given(context: Context, k: usize) -> bool
    requires { (m : Resolved.Model) × Held (Settled.Parts context.nodes.now) (Every (GoodPart m (length context.locals.now))) k }
    ensures { Worth (Settled.Parts context.entry.nodes.now) (arguments_given context.entry.locals.now) k result }
{
    arguments_given_lent(&context, k)
}

// The root of the sums of definition d.
pub fn body_of(tables: Tables, d: usize) -> usize
    requires { 1 ≤ left_of (get_or tables.nodes.now (tables.root - tables.variables - d) 0) }
    ensures { result ≡ left_of (get_or tables.entry.nodes.now (tables.entry.root - tables.entry.variables - d) 0) - 1 }
{
    let cell = crate::cell_at(
        tables.nodes,
        tables
            .root
            .saturating_sub(tables.variables)
            .saturating_sub(d),
    );
    tree::left_of(cell) - 1
}

// How many processes the continuation at k becomes, up to MOST.
pub fn count_processes(tables: Tables, k: usize) -> usize
    requires { Become.Continuation tables.nodes.now tables.root tables.variables k }
    ensures { (n : ℕ) (m : Resolved.Model) (ps : List Resolved.Part) (ls : List ℤ) → Become.Continues tables.entry.nodes.now tables.entry.root tables.entry.variables n m ps k → result ≡ Become.cut (length (next_processes m ls ps)) }
{
    let cell = crate::cell_at(tables.nodes, k);
    let kind = tree::kind_of(cell);
    if kind == NodeKind::GROUP {
        return count_processes(tables, k - 1);
    }
    if kind == NodeKind::ITEM {
        let a = count_processes(tables, tree::left_of(cell));
        let b = count_processes(tables, k - 1);
        return (a + b).min(Row::MOST);
    }
    if kind == NodeKind::SUM {
        return 1;
    }
    tables::count_sums(tables.nodes, body_of(tables, tree::token_of(cell))).min(Row::MOST)
}

// The numbers of a process: its sum, its locals, the unused ones 0, then its definition.
#[derive(Clone, Copy)]
pub struct Row;

impl Row {
    pub const LOCALS: usize = model::Limits::LOCALS;

    // Where the definition stands.
    pub const DEFINITION: usize = state::Layout::DEFINITION;

    pub const WIDTH: usize = state::Layout::PROCESS;

    // Where counting rows stops: four times as many processes as a state holds.
    pub const MOST: usize = 4 * model::Limits::PROCESSES;
}

// The numbers of a process. Sum and locals stay two, here and in `put_row`: a struct of them with the fact of their length would be made at three calls, for each sum anew, to take that fact out of
// these two contracts; `put_sums` has the locals alone.
fn numbers_of(sum: usize, locals: &[i64], definition: usize) -> [i64; Row::WIDTH]
    requires { (sum < field) × (length locals.now ≤ local_limit) × (definition < field) }
    ensures { result ≡ process_numbers (record { sum = sum; locals = locals.now; definition = definition }) }
{
    let mut row = [0i64; Row::WIDTH];
    row[0] = sum as i64;
    row[1..1 + locals.len()].copy_from_slice(locals);
    row[Row::DEFINITION] = definition as i64;
    row
}

// Writes the values of the arguments at k from place `at` on. `store::start::put_wholes` walks alike: one function would have two sorts of lists in its contract,
// told apart by the kind. Values and place stay two: a struct of them would serve this one function, and its one caller begins at 0.
fn put_arguments(context: &Context, k: usize, values: &mut [i64], at: usize)
    requires { Become.Room context.now.nodes.now (length context.now.locals.now) k (length values.old) at }
    ensures { (es : List Resolved.Expr) → Settled.Arguments context.now.nodes.now es k → values.new ≡ sets values.old at (Become.arguments context.now.locals.now es) }
{
    let cell = crate::cell_at(context.nodes, k);
    if tree::kind_of(cell) != NodeKind::ARGUMENT {
        let z = crate::eval_node_lent(context, k).unwrap_or(0);
        values[at] = z;
        return;
    }
    let z = crate::eval_node_lent(context, tree::left_of(cell)).unwrap_or(0);
    values[at] = z;
    put_arguments(context, k - 1, values, at + 1);
}

// The rows that are lent to be written, and the number of the next one. Each method promises that the same rows stay lent.
#[derive(Drop)]
pub struct Rows<'a> {
    pub fresh: &'a mut [i64],
    pub next: usize,
}

impl Rows<'_> {
    // Writes a process of a sum into the next row.
    fn put_row(&mut self, sum: usize, locals: &[i64], scopes: &[u16])
        requires { (sum < field) × (length locals.now ≤ local_limit) × ((self.old.next + 1) * process_width ≤ length self.old.fresh.now) × (sum < length scopes.now) }
        ensures same { self.new.fresh.ghost_name ≡ self.old.fresh.ghost_name }
        ensures written { Become.Rows self.old.fresh.now self.old.next (Become.known scopes.now sum locals.now ∷ []) self.new.fresh.now self.new.next }
    {
        let row = numbers_of(sum, locals, state::definition_in(scopes[sum]));
        let base = self.next * Row::WIDTH;
        self.fresh[base..base + Row::WIDTH].copy_from_slice(&row);
        self.next += 1;
    }

    // Writes a process for each sum at k, all with these locals: of a continuation's call, or of an item of the system line.
    pub fn put_sums(&mut self, tables: Tables, k: usize, locals: &[i64])
        requires { (Become.SumsFit tables.nodes.now (length tables.scopes.now) k (length self.old.fresh.now) self.old.next) × (length locals.now ≤ local_limit) }
        ensures same { self.new.fresh.ghost_name ≡ self.old.fresh.ghost_name }
        ensures written { (ns : List ℕ) → Represents.Sums tables.entry.nodes.now ns k → Become.Rows self.old.fresh.now self.old.next (Become.entered tables.entry.scopes.now ns locals.now) self.new.fresh.now self.new.next }
    {
        let cell = crate::cell_at(tables.nodes, k);
        if tree::kind_of(cell) != NodeKind::BESIDE {
            self.put_row(tree::token_of(cell), locals, tables.scopes);
            return;
        }
        let first = crate::cell_at(tables.nodes, tree::left_of(cell));
        self.put_row(tree::token_of(first), locals, tables.scopes);
        self.put_sums(tables, k - 1, locals);
    }

    // Writes the processes of the call at k, whose values are the locals of the sums at `body`.
    fn put_call(&mut self, tables: Tables, locals: &[i64], k: usize, body: usize)
        requires { (Become.CallFits tables.nodes.now (length tables.scopes.now) (length locals.now) k body (length self.old.fresh.now) self.old.next) × (Every InRange locals.now) }
        ensures same { self.new.fresh.ghost_name ≡ self.old.fresh.ghost_name }
        ensures written { (d : ℕ) (es : List Resolved.Expr) (ns : List ℕ) → Settled.Called tables.entry.nodes.now d es k → Represents.Sums tables.entry.nodes.now ns body → Become.Rows self.old.fresh.now self.old.next (Become.entered tables.entry.scopes.now ns (Become.arguments locals.now es)) self.new.fresh.now self.new.next }
    {
        let count = tree::third_of(crate::cell_at(tables.nodes, k));
        let mut values = [0i64; Row::LOCALS];
        let context = Context {
            nodes: tables.nodes,
            locals,
        };
        put_arguments(&context, k - 1, &mut values, 0);
        let given = &values[..count];
        self.put_sums(tables, body, given);
    }

    // Writes the processes that the continuation at k becomes.
    fn put_continued(&mut self, tables: Tables, locals: &[i64], k: usize)
        requires { (Become.Spaced tables.nodes.now tables.scopes.now tables.root tables.variables locals.now k (length self.old.fresh.now) self.old.next) × (Every InRange locals.now) }
        ensures same { self.new.fresh.ghost_name ≡ self.old.fresh.ghost_name }
        ensures written { (m : Resolved.Model) (ps : List Resolved.Part) → Become.Continues tables.entry.nodes.now tables.entry.root tables.entry.variables (length locals.now) m ps k → Become.Scoped tables.entry.scopes.now m → Become.Rows self.old.fresh.now self.old.next (next_processes m locals.now ps) self.new.fresh.now self.new.next }
    {
        let cell = crate::cell_at(tables.nodes, k);
        let kind = tree::kind_of(cell);
        if kind == NodeKind::GROUP {
            self.put_continued(tables, locals, k - 1);
            return;
        }
        if kind == NodeKind::ITEM {
            self.put_continued(tables, locals, tree::left_of(cell));
            self.put_continued(tables, locals, k - 1);
            return;
        }
        let token = tree::token_of(cell);
        if kind == NodeKind::SUM {
            self.put_row(token, locals, tables.scopes);
            return;
        }
        let body = body_of(tables, token);
        if kind == NodeKind::CALL {
            self.put_sums(tables, body, &locals[..0]);
            return;
        }
        self.put_call(tables, locals, k, body);
    }
}

// Writes the processes that the continuation at k becomes from row `at` on; the row after them.
pub fn put_processes(
    tables: Tables,
    locals: &[i64],
    k: usize,
    fresh: &mut [i64],
    at: usize,
) -> usize
    requires { (Become.Spaced tables.nodes.now tables.scopes.now tables.root tables.variables locals.now k (length fresh.old) at) × (Every InRange locals.now) }
    ensures { (m : Resolved.Model) (ps : List Resolved.Part) → Become.Continues tables.entry.nodes.now tables.entry.root tables.entry.variables (length locals.now) m ps k → Become.Scoped tables.entry.scopes.now m → Become.Rows fresh.old at (next_processes m locals.now ps) fresh.new result }
{
    let mut rows = Rows { fresh, next: at };
    rows.put_continued(tables, locals, k);
    rows.next
}
