#![tactic(auto)]

// What the open branches of a state offer, in a table.
ghost use Rattle.std.specs.Prelude.{◌≡◌, ℕ, suc, ◌+◌, ◌*◌, ◌≤◌, ◌<◌, length, set, List};
ghost use Rattle.model.specs.Resolved as Resolved;
ghost use Rattle.model.specs.Limits.{branch_limit};
ghost use Rattle.model.specs.Opening.{process_limit};
ghost use Rattle.tables.specs.Settled as Settled;
ghost use Rattle.model.specs.Good.{GoodBranch};
ghost use Rattle.std.proofs.Math.Option.{some};
ghost use Rattle.std.proofs.Math.ListN.{get_elem?};
ghost use Rattle.machine.specs.State.{State};
ghost use Rattle.machine.specs.Offer.{Process, branches_of};
ghost use Rattle.state.specs.Read.{process_count};
ghost use Rattle.machine.specs.Evaluate.{eval_branch};
ghost use Rattle.eval.specs.Held.{Held};
ghost use Rattle.offers.specs.Head.{kind_in, place_in, branch_in, rate_in};
ghost use Rattle.offers.specs.Table.{offer_in, row_of, locals_of, Small};
ghost use Rattle.offers.specs.Collect as Collect;
ghost use Rattle.offers.specs.Links.{row_limit, bucket_limit, bucket_part, bucket_of, Linked};

use eval::Context;
use eval::channel::Channel;
use eval::offer::{Listed, Offer};
pub use row::Row;
use tables::Tables;
use tree::NodeKind;

pub mod row;

// The offers of a state's processes, and the links of its handshake receives.
#[derive(Clone, Copy)]
pub struct Offers<'a> {
    pub rows: &'a [Row],
    pub firsts: &'a [u16; Table::BUCKETS],
    pub nexts: &'a [u16],
    ghost as_many: { length nexts.now ≡ length rows.now },
    ghost linked: { Linked rows.now 0 firsts.now nexts.now },
}

#[derive(Clone, Copy)]
pub struct Table;

impl Table {
    // The most rows: every branch of every process.
    pub const ROWS: usize = model::Limits::PROCESSES * model::Limits::BRANCHES;

    // Rows of a small table.
    pub const FEW: usize = 256;

    pub const BUCKETS: usize = 256;
}

// Room for a table of offers and its links: chains of row numbers, a bucket each, since there is no heap for a map. The links stand beside the rows, so that a row
// takes 64 bytes; with a link in it, it takes 72, and the large table, which stands in fixed memory, 24 KiB more.
#[derive(Drop)]
pub struct Space<const ROWS: usize> {
    pub rows: [Row; ROWS],
    pub firsts: [u16; Table::BUCKETS],
    pub nexts: [u16; ROWS],
}

impl<const ROWS: usize> Space<ROWS> {
    pub const EMPTY: Self = Space {
        rows: [Row::EMPTY; ROWS],
        firsts: [0; Table::BUCKETS],
        nexts: [0; ROWS],
    };
}

// A head has the kind below KINDS, the channel's shape below SHAPES, the count of values or sets below COUNTS, these three together below SMALL, then branch,
// place and rate. In fields of their own they take nine bytes, a row 72, and the large table 32 KiB more.
const KINDS: u64 = 64;

const SHAPES: u64 = 32;

const COUNTS: u64 = 4;

const SMALL: u64 = 8192;

const BRANCHES: u64 = model::Limits::BRANCHES as u64;

const PLACES: u64 = model::Limits::PROCESSES as u64;

// The kind of the action in a row.
pub fn kind_in(head: u64) -> u8
    ensures { result ≡ kind_in head }
{
    (head % KINDS) as u8
}

// What an item's value adds to its channel's bucket.
fn bucket_part(z: i64) -> usize
    ensures { (result ≡ bucket_part z) × (result < bucket_limit) }
{
    if z < 0 {
        return (-1 - z) as usize % Table::BUCKETS;
    }
    z as usize % Table::BUCKETS
}

// The bucket of a channel by the values of its items, as a row has them.
pub fn bucket_of(first: i64, second: i64, third: i64) -> usize
    ensures { (result ≡ bucket_of first second third) × (result < bucket_limit) }
{
    let a = bucket_part(first);
    let b = bucket_part(second);
    let c = bucket_part(third);
    (a + 5 * b + 25 * c) % Table::BUCKETS
}

// Links a row to the first of its bucket so far, if it is a handshake receive, and makes it the first. Rows and links stay three, here and in `link`, and no `Space`: a caller may have rows of its own,
// and of a Space only the rows in use are linked, so that a method would take their count and say of the first rows what is said here of all. A struct of the lent slices would be made for two functions.
fn link_row(rows: &[Row], row: usize, firsts: &mut [u16; Table::BUCKETS], nexts: &mut [u16])
    requires { (row < length rows.now) × (row < row_limit) × (length nexts.old ≡ length rows.now) }
    ensures { Linked rows.now (suc row) firsts.old nexts.old → Linked rows.now row firsts.new nexts.new }
{
    let r = rows[row];
    if kind_in(r.head) < NodeKind::HAND_RECEIVE {
        return;
    }
    let bucket = bucket_of(r.channel, r.channel2, r.channel3);
    nexts[row] = firsts[bucket];
    firsts[bucket] = row as u16;
}

// Links the handshake receives of all rows, the last row first.
pub fn link(rows: &[Row], firsts: &mut [u16; Table::BUCKETS], nexts: &mut [u16])
    requires { (length rows.now ≤ row_limit) × (length nexts.old ≡ length rows.now) }
    ensures { (Linked rows.now 0 firsts.new nexts.new) × (length nexts.new ≡ length nexts.old) }
{
    firsts.fill(rows.len() as u16);
    for row in (0..rows.len()).rev() {
        link_row(rows, row, firsts, nexts);
    }
}

// The row of what a branch offers, field by field: a row has the offer's numbers in another order, some of them in its head.
fn row_of(place: usize, branch: usize, o: Offer) -> Row
    requires { (place < process_limit) × (branch < branch_limit) × (Small o) }
    ensures { result ≡ row_of place branch o }
{
    let channel = o.channel;
    let list = o.list;
    let small = o.kind as u64 + KINDS * (channel.shape as u64 + SHAPES * list.count as u64);
    Row {
        head: small + SMALL * (branch as u64 + BRANCHES * (place as u64 + PLACES * o.rate)),
        channel: channel.first,
        first: list.first,
        first_end: list.first_end,
        second: list.second,
        second_end: list.second_end,
        channel2: channel.second,
        channel3: channel.third,
    }
}

// The offer in a row.
pub fn offer_in(row: Row) -> Offer
    ensures { result ≡ offer_in row }
{
    let head = row.head;
    Offer {
        kind: kind_in(head),
        rate: rate_in(head),
        channel: Channel {
            shape: (head / KINDS % SHAPES) as u8,
            first: row.channel,
            second: row.channel2,
            third: row.channel3,
        },
        list: Listed {
            count: (head / KINDS / SHAPES % COUNTS) as usize,
            first: row.first,
            first_end: row.first_end,
            second: row.second,
            second_end: row.second_end,
        },
    }
}

// The place, the branch and the rate of a row.
pub fn place_in(head: u64) -> usize
    ensures { result ≡ place_in head }
{
    (head / SMALL / BRANCHES % PLACES) as usize
}

pub fn branch_in(head: u64) -> usize
    ensures { result ≡ branch_in head }
{
    (head / SMALL % BRANCHES) as usize
}

pub fn rate_in(head: u64) -> u64
    ensures { result ≡ rate_in head }
{
    head / SMALL / BRANCHES / PLACES
}

// Why not all rows are filled: the branch at a place lacks a value, or no row is left.
#[derive(Clone, Copy)]
pub enum Stop {
    Missing(usize, usize),
    Full,
}

// A table as it is filled: its rows, lent, and how many of them, from the first on, are filled.
#[derive(Drop)]
struct Filling<'a> {
    rows: &'a mut [Row],
    count: usize,
    ghost room: { count ≤ length rows.now },
}

impl<'a> Filling<'a> {
    // Fills the next row, if there is one.
    fn push(&mut self, row: Row) -> Result<(), Stop>
        ensures same { self.new.rows.ghost_name ≡ self.old.rows.ghost_name }
        ensures pushed { Collect.Pushes row self.old.count self.old.rows.now self.new.count self.new.rows.now result }
    {
        if self.rows.len() <= self.count {
            return Err(Stop::Full);
        }
        self.rows[self.count] = row;
        self.count += 1;
        Ok(())
    }
}

// Puts the offer of the branch at k into a row, if it isn't hidden and there is one.
fn collect_branch(
    context: &Context,
    place: usize,
    branch: usize,
    k: usize,
    filling: &mut Filling,
) -> Result<(), Stop>
    requires { ((m : Resolved.Model) × Held (Settled.Branch context.now.nodes.now) (GoodBranch m (length context.now.locals.now)) k) × (filling.old.count < row_limit) × (place < process_limit) × (branch < branch_limit) }
    ensures same { filling.new.rows.ghost_name ≡ filling.old.rows.ghost_name }
    ensures collects { (b : Resolved.Branch) → Settled.Branch context.now.nodes.now b k → Collect.CollectsOne context.now.nodes.now context.now.locals.now place branch filling.old.count filling.old.rows.now filling.new.count filling.new.rows.now (eval_branch context.now.locals.now b) result }
{
    let shown = eval::offer::offer_of_lent(context, k).ok_or(Stop::Missing(place, branch))?;
    let Some(o) = shown else {
        return Ok(());
    };
    filling.push(row_of(place, branch, o))
}

// Puts the offers of the branches at k into rows, counted from `branch` on.
fn collect_branches(
    context: &Context,
    place: usize,
    branch: usize,
    k: usize,
    filling: &mut Filling,
) -> Result<(), Stop>
    requires { (Collect.Branched context.now.nodes.now (length context.now.locals.now) branch k) × (place < process_limit) × (filling.old.count ≤ place * branch_limit + branch) }
    ensures same { filling.new.rows.ghost_name ≡ filling.old.rows.ghost_name }
    ensures collects { (bs : List Resolved.Branch) → Settled.Branches context.now.nodes.now bs k → Collect.Collects context.now.nodes.now context.now.locals.now place branch filling.old.count filling.old.rows.now filling.new.count filling.new.rows.now bs result }
{
    let cell = eval::cell_at(context.nodes, k);
    let kind = tree::kind_of(cell);
    if kind != NodeKind::CHOICE {
        return collect_branch(context, place, branch, k, filling);
    }
    let left = tree::left_of(cell);
    collect_branch(context, place, branch, left, filling)?;
    collect_branches(context, place, branch + 1, k - 1, filling)
}

// The locals of the process at a place.
pub fn locals_of<'a>(scopes: &[u16], state: &'a [i64], place: usize) -> &'a [i64]
    requires { ((t : List ℕ) × (roots : List ℕ) × (m : Resolved.Model) × (s : State) × Collect.World t roots scopes.now state.now m s) × (place < process_count state.now) }
    ensures { (t roots : List ℕ) (m : Resolved.Model) (s : State) → Collect.World t roots scopes.now state.now m s → result.now ≡ locals_of s.processes place }
{
    let sum = state::sum_at(state, place);
    let count = state::locals_in(scopes[sum]);
    state::locals_at(state, place, count)
}

// Puts the offers of the process at a place into rows.
fn collect_place(
    tables: Tables,
    state: &[i64],
    place: usize,
    filling: &mut Filling,
) -> Result<(), Stop>
    requires { ((m : Resolved.Model) × (s : State) × Collect.World tables.nodes.now tables.roots.now tables.scopes.now state.now m s) × (place < process_count state.now) × (filling.old.count ≤ place * branch_limit) }
    ensures same { filling.new.rows.ghost_name ≡ filling.old.rows.ghost_name }
    ensures collects { (m : Resolved.Model) (s : State) (p : Process) → Collect.World tables.entry.nodes.now tables.entry.roots.now tables.entry.scopes.now state.now m s → get_elem? s.processes place ≡ some p → Collect.Collects tables.entry.nodes.now p.locals place 0 filling.old.count filling.old.rows.now filling.new.count filling.new.rows.now (branches_of m p) result }
{
    // Not by `locals_of`: the sum is wanted too, for the root.
    let sum = state::sum_at(state, place);
    let count = state::locals_in(tables.scopes[sum]);
    let locals = state::locals_at(state, place, count);
    let root = tables.roots[sum] as usize;
    let context = Context {
        nodes: tables.nodes,
        locals,
    };
    collect_branches(&context, place, 0, root, filling)
}

// Puts the offers of all processes into rows.
pub fn collect(tables: Tables, state: &[i64], rows: &mut [Row]) -> Result<usize, Stop>
    requires { ((m : Resolved.Model) × (s : State) × Collect.World tables.nodes.now tables.roots.now tables.scopes.now state.now m s) }
    ensures { (m : Resolved.Model) (s : State) → Collect.World tables.entry.nodes.now tables.entry.roots.now tables.entry.scopes.now state.now m s → Collect.Answers tables.entry.nodes.now rows.new m s.processes result }
{
    let places = state::process_count(state);
    // Behind a `&mut`: with the struct by value no proof was found that its slice holds at the loop's end what the last turn left.
    let filling = &mut Filling { rows, count: 0 };
    for place in 0..places {
        collect_place(tables, state, place, filling)?;
    }
    Ok(filling.count)
}
