// The processes of an opened state: the items of the system line in order, counts written out, each replaced by its definition's sums.
ghost use Rattle.std.specs.Prelude.{◌≡◌, List, ℕ, ◌-◌, ◌≤◌, ℤ, length, get_or, take};
ghost use Rattle.std.proofs.lemmas.List.Edits.{sets};
ghost use Rattle.model.specs.Limits.{local_limit};
ghost use Rattle.model.specs.Resolved as Resolved;
ghost use Rattle.tree.specs.Node.{third_of};
ghost use Rattle.value.specs.Range.{InRange};
ghost use Rattle.tables.specs.Represents as Represents;
ghost use Rattle.tables.specs.Settled as Settled;
ghost use Rattle.machine.specs.State.{process_room};
ghost use Rattle.machine.specs.Machine.{copies, start_processes};
ghost use Rattle.eval.specs.Next as Become;
ghost use Rattle.eval.specs.Next.{entered, Defines, Scoped};
ghost use Rattle.model.specs.Good.{Every, GoodStart, GoodModel};
ghost use Rattle.store.specs.Start as Start;

use eval::Context;
use eval::next::Rows;
use tables::Tables;
use tree::NodeKind;

#[derive(Clone, Copy)]
pub struct Locals;

impl Locals {
    // Locals of a process.
    pub const MOST: usize = model::Limits::LOCALS;
}

// Writes a process for each sum at k, so many times. The loop's number is the proof's: its invariant counts the copies that are written.
fn put_copies(rows: &mut Rows, tables: Tables, k: usize, locals: &[i64], count: usize)
    requires { Start.CopiesFit tables.nodes.now tables.scopes.now k locals.now count (length rows.old.fresh.now) rows.old.next }
    ensures same { rows.new.fresh.ghost_name ≡ rows.old.fresh.ghost_name }
    ensures written { (ns : List ℕ) → Represents.Sums tables.entry.nodes.now ns k → Become.Rows rows.old.fresh.now rows.old.next (copies count (entered tables.entry.scopes.now ns locals.now)) rows.new.fresh.now rows.new.next }
{
    for i in 0..count {
        rows.put_sums(tables, k, locals);
    }
}

// The whole number at k.
fn whole_at(nodes: &[u64], k: usize) -> i64
    requires { (z : ℤ) × (Settled.Number nodes.now 1 z k) × InRange z }
    ensures { (z : ℤ) → Settled.Number nodes.now 1 z k → result ≡ z }
{
    let context = Context { nodes, locals: &[] };
    eval::eval_node_lent(&context, k).unwrap_or(0)
}

// Writes the whole numbers at k from place `at` on. The walk is that of eval's `put_arguments`, which says why they are two, and why values and place are.
fn put_wholes(nodes: &[u64], k: usize, values: &mut [i64], at: usize)
    requires { Start.WholesFit nodes.now k (length values.old) at }
    ensures { (zs : List ℤ) → Represents.Wholes nodes.now zs k → values.new ≡ sets values.old at zs }
{
    let cell = eval::cell_at(nodes, k);
    if tree::kind_of(cell) != NodeKind::WHOLE {
        let z = whole_at(nodes, k);
        values[at] = z;
        return;
    }
    let z = whole_at(nodes, tree::left_of(cell));
    values[at] = z;
    put_wholes(nodes, k - 1, values, at + 1);
}

// Writes the values of the item at k.
fn put_values(nodes: &[u64], k: usize, values: &mut [i64; Locals::MOST])
    requires { (s : Resolved.Start) × (Represents.Start nodes.now s k) × (Every InRange s.values) × (length s.values ≤ local_limit) }
    ensures { (s : Resolved.Start) → Represents.Start nodes.now s k → take (third_of (get_or nodes.now k 0)) values.new ≡ s.values }
{
    if tree::kind_of(eval::cell_at(nodes, k)) == NodeKind::START_WITH {
        put_wholes(nodes, k - 1, values, 0);
    }
}

// Writes the processes of the item at k.
fn put_item(rows: &mut Rows, tables: Tables, k: usize)
    requires { Start.ItemFits tables.nodes.now tables.scopes.now tables.root tables.variables k (length rows.old.fresh.now) rows.old.next }
    ensures same { rows.new.fresh.ghost_name ≡ rows.old.fresh.ghost_name }
    ensures written { (m : Resolved.Model) (s : Resolved.Start) → Defines tables.entry.nodes.now tables.entry.root tables.entry.variables m → GoodModel m → Scoped tables.entry.scopes.now m → GoodStart m s → Represents.Start tables.entry.nodes.now s k → Become.Rows rows.old.fresh.now rows.old.next (start_processes m (Start.only s)) rows.new.fresh.now rows.new.next }
{
    let cell = eval::cell_at(tables.nodes, k);
    let body = eval::next::body_of(tables, tree::token_of(cell));
    let count = tree::third_of(cell);
    let mut values = [0i64; Locals::MOST];
    put_values(tables.nodes, k, &mut values);
    put_copies(rows, tables, body, &values[..count], tree::left_of(cell));
}

// Writes the processes of the items at k.
fn put_items(rows: &mut Rows, tables: Tables, k: usize)
    requires { Start.ItemsFit tables.nodes.now tables.scopes.now tables.root tables.variables k (length rows.old.fresh.now) rows.old.next }
    ensures same { rows.new.fresh.ghost_name ≡ rows.old.fresh.ghost_name }
    ensures written { (m : Resolved.Model) (ss : List Resolved.Start) → Defines tables.entry.nodes.now tables.entry.root tables.entry.variables m → GoodModel m → Scoped tables.entry.scopes.now m → Every (GoodStart m) ss → Represents.Starts tables.entry.nodes.now ss k → Become.Rows rows.old.fresh.now rows.old.next (start_processes m ss) rows.new.fresh.now rows.new.next }
{
    let cell = eval::cell_at(tables.nodes, k);
    if tree::kind_of(cell) != NodeKind::SYSTEM {
        put_item(rows, tables, k);
        return;
    }
    put_item(rows, tables, tree::left_of(cell));
    put_items(rows, tables, k - 1);
}

// Writes the processes of an opened state into the part of a state that has them; how many they are. The system line stands at the place after the last definition's.
// The two subtractions are eval's `body_of`'s too, and have no function of their own: its contract could say nothing but its body.
pub fn put_start(tables: Tables, definitions: usize, fresh: &mut [i64]) -> usize
    requires { (length fresh.old ≡ process_room) × ((m : Resolved.Model) × Start.Opens tables.nodes.now tables.scopes.now tables.root tables.variables definitions m) }
    ensures { (m : Resolved.Model) → Start.Opens tables.entry.nodes.now tables.entry.scopes.now tables.entry.root tables.entry.variables definitions m → Become.Rows fresh.old 0 (start_processes m m.starts) fresh.new result }
{
    let line = tables
        .root
        .saturating_sub(tables.variables)
        .saturating_sub(definitions);
    let mut rows = Rows { fresh, next: 0 };
    put_items(&mut rows, tables, line);
    rows.next
}
