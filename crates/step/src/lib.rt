#![tactic(auto)]

// The move of a chosen entry: questions 17 to 19, then the state after it.
ghost use Rattle.std.specs.Prelude.{◌≡◌, ◌⊎◌, not, ◌&&◌, ℕ, ◌∷◌, ◌+◌, ◌≤◌, ◌<◌, leb, ℤ, length, get_or, take};
ghost use mathlib.Core.List.{List, [], ◌++◌, Memᴰ as In};
ghost use Rattle.std.proofs.Math.Option.{some};
ghost use Rattle.tree.specs.Node as node;
ghost use Rattle.rules.specs.Offers.{Pair, Guard};
ghost use Rattle.rules.specs.Rules.{Nth, Change, unchanged, key};
ghost use Rattle.rules.specs.Listing as rules;
ghost use Rattle.rules.specs.Listing.{entry as listed, entries};
ghost use Rattle.rules.specs.Pairs.{pairs_after};
ghost use Rattle.rules.specs.Step.{values_at, bound_by, sent_by, on_action, change_of};
ghost use Rattle.model.specs.Resolved as Resolved;
ghost use Rattle.model.specs.Limits.{local_limit};
ghost use Rattle.model.specs.Opening.{process_limit};
ghost use Rattle.tables.specs.Settled as Settled;
ghost use Rattle.machine.specs.Offer.{Process, arguments_given, next_processes, branches};
ghost use Rattle.machine.specs.State.{State, pair_limit, pair_width, pair_numbers, state_numbers};
ghost use Rattle.machine.specs.Machine.{entry_arguments, entry_state};
ghost use Rattle.eval.specs.Next as Become;
ghost use Rattle.eval.specs.Next.{ShowsNext};
ghost use Rattle.eval.specs.Shown.{ShowsPair, ShowsGuard};
ghost use Rattle.step.specs.Enter as Enter;
ghost use Rattle.step.specs.Entries.{Row};

use eval::offer::Offer;
use eval::{Context, Values};
use listing::Entry;
use machine::EntryKind;
use state::Layout;
use tables::Tables;
use tree::NodeKind;

// Why a step is refused: an argument without value, too many processes, too many pairs.
#[derive(Clone, Copy)]
pub enum Refusal {
    Arguments,
    Processes,
    Pairs,
}

impl Refusal {
    pub fn number(self) -> u64
        ensures { result ≡ Enter.refusal_number self }
    {
        match self {
            Refusal::Arguments => 17,
            Refusal::Processes => 18,
            Refusal::Pairs => 19,
        }
    }
}

// The first so many of two values, which names take.
fn first_values(count: usize, first: i64, second: i64) -> Option<Values>
    requires { count ≤ 2 }
    ensures { Enter.values_of result ≡ take count (first ∷ second ∷ []) }
{
    match count {
        0 => None,
        1 => Some(Values::One(first)),
        _ => Some(Values::Two(first, second)),
    }
}

// A process's locals with two names more: the first `count` of the numbers.
#[derive(Clone, Copy)]
pub struct Locals {
    pub numbers: [i64; Room::LOCALS],
    pub count: usize,
    ghost few: { count ≤ local_limit + 2 },
}

impl Locals {
    pub const NONE: Locals = Locals {
        numbers: [0; Room::LOCALS],
        count: 0,
    };

    // The numbers in use.
    fn held(&self) -> &[i64]
        ensures { result.now ≡ take self.now.count self.now.numbers }
    {
        &self.numbers[..self.count]
    }
}

// What a process that acts enters beside its locals: its continuation and what it offers, nothing behind a false gate.
#[derive(Clone, Copy)]
pub struct Entered {
    pub next: Option<usize>,
    pub offer: Option<Offer>,
}

// What the process at a place becomes: its locals, with the names bound, and its continuation.
#[derive(Clone, Copy)]
pub struct Successor<'a> {
    pub place: usize,
    pub locals: &'a [i64],
    pub next: Option<usize>,
}

// The root of branch j of the branches at k.
fn branch_root(nodes: &[u64], k: usize, j: usize) -> usize
    requires { Enter.Chain nodes.now k j }
    ensures { (bs : List Resolved.Branch) (b : Resolved.Branch) → Settled.Branches nodes.now bs k → Nth bs j b → Settled.Branch nodes.now b result }
{
    let cell = eval::cell_at(nodes, k);
    if tree::kind_of(cell) != NodeKind::CHOICE {
        return k;
    }
    if j == 0 {
        return tree::left_of(cell);
    }
    branch_root(nodes, k - 1, j - 1)
}

#[derive(Clone, Copy)]
pub struct Room;

impl Room {
    // A process's locals with two names more.
    pub const LOCALS: usize = model::Limits::LOCALS + 2;

    pub const PROCESSES: usize = model::Limits::PROCESSES;

    pub const PAIRS: usize = machine::Limits::PAIRS;

    // The numbers of as many processes as a state holds.
    pub const FRESH: usize = state::Layout::ALL_PROCESSES;
}

// The values of a lit pair; none beyond the last.
fn pair_values(state: &[i64], pair: usize) -> Option<Values>
    requires { (m : Resolved.Model) × (s : State) × Enter.Stands state.now m s }
    ensures { (m : Resolved.Model) (s : State) → Enter.Stands state.now m s → Enter.values_of result ≡ values_at s.pairs pair }
{
    if state::pair_count(state) <= pair {
        return None;
    }
    let row = state::pair_row(state, pair);
    first_values(
        row[Layout::CHANNEL] as usize,
        row[Layout::VALUES],
        row[Layout::VALUES + 1],
    )
}

// The values sent; none by another action. An offer is asked here, and in the three below, whether it is there: each has an answer for a branch behind a false gate,
// and the callers would ask it once for each.
fn sent_values(offer: Option<Offer>) -> Option<Values>
    requires { Enter.SomeOffer offer }
    ensures { (t : List ℕ) (ls : List ℤ) (g : Guard) → ShowsGuard t ls g offer → Enter.values_of result ≡ on_action [] sent_by g }
{
    let offer = offer?;
    if offer.kind != NodeKind::HAND_SEND {
        return None;
    }
    first_values(offer.list.count, offer.list.first, offer.list.second)
}

// The values that an offered action binds.
fn bound_by(offer: Option<Offer>, values: Option<Values>) -> Option<Values>
    ensures { result ≡ Enter.bound_of offer values }
{
    match offer?.kind {
        NodeKind::BIND | NodeKind::HAND_BIND => values,
        _ => None,
    }
}

// Puts a process's locals, and the bound values after them.
fn put_locals(own: &[i64], bound: Option<Values>, locals: &mut Locals)
    requires { length own.now ≤ local_limit }
    ensures { take locals.new.count locals.new.numbers ≡ own.now ++ Enter.values_of bound }
{
    let n = own.len();
    for i in 0..n {
        locals.numbers[i] = own[i];
    }
    match bound {
        None => locals.count = n,
        Some(Values::One(first)) => {
            locals.numbers[n] = first;
            locals.count = n + 1;
        }
        Some(Values::Two(first, second)) => {
            locals.numbers[n] = first;
            locals.numbers[n + 1] = second;
            locals.count = n + 2;
        }
    }
}

// Where a process's branch is found: the root of the branch, and how many locals the process has.
#[derive(Clone, Copy)]
pub struct Found {
    pub own: usize,
    pub root: usize,
}

// Branch j of the process at place i. Tables, state, place and branch stay four, here, in `wait_token` and in `enter`: a struct of them would have no fact of its own, and be made anew, field by
// field, at each of four calls.
fn find_branch(tables: Tables, state: &[i64], i: usize, j: usize) -> Found
    requires { Enter.Acting tables.nodes.now tables.roots.now tables.scopes.now state.now i j }
    ensures { ((m : Resolved.Model) (s : State) (p : Process) (b : Resolved.Branch) (g : Guard) → Enter.Acts tables.entry.nodes.now tables.entry.roots.now tables.entry.scopes.now state.now i j m s p b g → (result.own ≡ length p.locals) × Settled.Branch tables.entry.nodes.now b result.root) × (result.own ≤ local_limit) }
{
    let sum = state::sum_at(state, i);
    let first = usize::from(tables.roots[sum]);
    let own = state::locals_in(tables.scopes[sum]);
    let root = branch_root(tables.nodes, first, j);
    Found { own, root }
}

// The token of the wait that branch j of the process at place i is.
pub fn wait_token(tables: Tables, state: &[i64], i: usize, j: usize) -> usize
    requires { Enter.Acting tables.nodes.now tables.roots.now tables.scopes.now state.now i j }
    ensures { (m : Resolved.Model) (s : State) (p : Process) (b : Resolved.Branch) (g : Guard) (n : ℕ) → Enter.Acts tables.entry.nodes.now tables.entry.roots.now tables.entry.scopes.now state.now i j m s p b g → b.action ≡ Resolved.wait n → result ≡ n }
{
    let found = find_branch(tables, state, i, j);
    let k = eval::next::past_gate(tables.nodes, found.root);
    let prefix = eval::cell_at(tables.nodes, k);
    let action = eval::cell_at(tables.nodes, tree::left_of(prefix));
    tree::token_of(action)
}

// What the process at place i enters by branch j, whose names take the values. Its locals are put into those lent.
fn enter(
    tables: Tables,
    state: &[i64],
    i: usize,
    j: usize,
    values: Option<Values>,
    locals: &mut Locals,
) -> Entered
    requires { Enter.Acting tables.nodes.now tables.roots.now tables.scopes.now state.now i j }
    ensures { (m : Resolved.Model) (s : State) (p : Process) (b : Resolved.Branch) (g : Guard) → Enter.Acts tables.entry.nodes.now tables.entry.roots.now tables.entry.scopes.now state.now i j m s p b g → Enter.Enters tables.entry.nodes.now p b g (Enter.values_of values) (take locals.new.count locals.new.numbers) result }
{
    let found = find_branch(tables, state, i, j);
    let root = found.root;
    let own = state::locals_at(state, i, found.own);
    let context = Context {
        nodes: tables.nodes,
        locals: own,
    };
    let offer = match eval::offer::offer_of_lent(&context, root) {
        Some(offer) => offer,
        None => None,
    };
    put_locals(own, bound_by(offer, values), locals);
    let next = eval::next::continuation_of(tables.nodes, root);
    Entered { next, offer }
}

// 17: whether all arguments of a continuation have values.
fn arguments_given(nodes: &[u64], locals: &[i64], next: Option<usize>) -> bool
    requires { Enter.Continued nodes.now locals.now next }
    ensures { (ps : List Resolved.Part) → ShowsNext nodes.now ps next → result ≡ arguments_given locals.now ps }
{
    match next {
        Some(k) => {
            let context = Context { nodes, locals };
            eval::next::arguments_given_lent(&context, k)
        }
        None => true,
    }
}

// How many processes a continuation becomes, up to MOST.
fn count_next(tables: Tables, next: Option<usize>) -> usize
    requires { (m : Resolved.Model) × (ls : List ℤ) × (ps : List Resolved.Part) × Enter.Defined tables.nodes.now tables.root tables.variables m ls ps next }
    ensures { ((m : Resolved.Model) (ls : List ℤ) (ps : List Resolved.Part) → Enter.Defined tables.entry.nodes.now tables.entry.root tables.entry.variables m ls ps next → result ≡ Become.cut (length (next_processes m ls ps))) × (result ≤ Become.most) }
{
    match next {
        Some(k) => eval::next::count_processes(tables, k),
        None => 0,
    }
}

// What a step works with: the tables, the state that moves, and room for the numbers of new processes. Each function that takes it promises that `state` stays the same reference: by that its lender
// knows what the state has become. To be read, the state is first borrowed by a variable: of `moving.state`, lent as it is, the length alone would be known afterwards.
#[derive(Drop)]
struct Moving<'a> {
    tables: Tables<'a>,
    state: &'a mut [i64],
    fresh: &'a mut [i64; Room::FRESH],
}

// The process at place i becomes what it enters.
fn replace_process(moving: &mut Moving, x: Successor)
    requires { (m : Resolved.Model) × (s : State) × (ps : List Resolved.Part) × Enter.Replaces moving.old x.place x.locals.now x.next m s ps }
    ensures same { (moving.new.state.ghost_name ≡ moving.old.state.ghost_name) × (moving.new.tables ≡ moving.old.tables) }
    ensures moves { (m : Resolved.Model) (s : State) (ps : List Resolved.Part) → Enter.Replaces moving.old x.entry.place x.entry.locals.now x.entry.next m s ps → moving.new.state.now ≡ state_numbers (Enter.entering m s x.entry.place x.entry.locals.now ps) }
{
    match x.next {
        Some(k) => {
            let n = eval::next::put_processes(moving.tables, x.locals, k, moving.fresh, 0);
            state::splice(moving.state, x.place, &moving.fresh[..], n);
        }
        None => {
            state::splice(moving.state, x.place, &moving.fresh[..], 0);
        }
    }
}

// The numbers of the pair that an offer carries.
fn pair_of(offer: Offer) -> [i64; Layout::PAIR]
    requires { Enter.Carries offer }
    ensures { (x : Pair) → ShowsPair offer x → result ≡ pair_numbers x }
{
    let mut row = [0i64; Layout::PAIR];
    offer.channel.put(&mut row);
    row[Layout::CHANNEL] = offer.list.count as i64;
    row[Layout::VALUES] = offer.list.first;
    row[Layout::VALUES + 1] = offer.list.second;
    row
}

// 19: whether a launch finds no place free, and its pair not lit.
fn is_overfull(state: &[i64], offer: Option<Offer>) -> bool
    requires { Enter.Changing state.now offer }
    ensures { (m : Resolved.Model) (s : State) (n : Change) → Enter.Changes state.now offer m s n → result ≡ not (leb (length (pairs_after n s.pairs)) pair_limit) }
{
    let Some(offer) = offer else {
        return false;
    };
    if offer.kind != NodeKind::LAUNCH {
        return false;
    }
    let pairs = state::lit_pairs(state);
    if pairs.len() < Room::PAIRS {
        return false;
    }
    !state::is_lit(pairs, &pair_of(offer))
}

// The lit pairs change as the offer says.
fn change_pairs(state: &mut [i64], offer: Option<Offer>)
    requires { (m : Resolved.Model) × (s : State) × (n : Change) × Enter.Changes state.old offer m s n × (length (pairs_after n s.pairs) ≤ pair_limit) }
    ensures { (m : Resolved.Model) (s : State) (n : Change) → Enter.Changes state.old offer m s n → length (pairs_after n s.pairs) ≤ pair_limit → state.new ≡ state_numbers (Enter.changed s n) }
{
    let Some(offer) = offer else {
        return;
    };
    match offer.kind {
        NodeKind::LAUNCH => state::launch_pair(state, &pair_of(offer)),
        NodeKind::KILL => state::kill_pair(state, &pair_of(offer)),
        _ => {}
    }
}

// 17 to 19 of a process that acts by itself, then its move.
fn move_alone(moving: &mut Moving, x: Successor, offer: Option<Offer>) -> Result<(), Refusal>
    requires { (m : Resolved.Model) × (s : State) × (ps : List Resolved.Part) × (n : Change) × Enter.Alone moving.old x.place x.locals.now x.next offer m s ps n }
    ensures same { moving.new.state.ghost_name ≡ moving.old.state.ghost_name }
    ensures answers { (m : Resolved.Model) (s : State) (ps : List Resolved.Part) (n : Change) → Enter.Alone moving.old x.entry.place x.entry.locals.now x.entry.next offer m s ps n → Enter.Answers (arguments_given x.entry.locals.now ps) s (Enter.changed (Enter.entering m s x.entry.place x.entry.locals.now ps) n) result moving.new.state.now }
{
    if !arguments_given(moving.tables.nodes, x.locals, x.next) {
        return Err(Refusal::Arguments);
    }
    let state = &mut *moving.state;
    let n = state::process_count(&state[..]);
    let count = count_next(moving.tables, x.next);
    if Room::PROCESSES + 1 < n + count {
        return Err(Refusal::Processes);
    }
    if is_overfull(&state[..], offer) {
        return Err(Refusal::Pairs);
    }
    replace_process(moving, x);
    change_pairs(moving.state, offer);
    Ok(())
}

// Two processes become what they enter, the one at x before the one at y. Where the first becomes nothing it goes first, so that no place is wanted for a moment.
fn replace_both(moving: &mut Moving, x: Successor, y: Successor)
    requires { (m : Resolved.Model) × (s : State) × (ps : List Resolved.Part) × (qs : List Resolved.Part) × Enter.Both moving.old x.place x.locals.now x.next y.place y.locals.now y.next m s ps qs }
    ensures same { moving.new.state.ghost_name ≡ moving.old.state.ghost_name }
    ensures moves { (m : Resolved.Model) (s : State) (ps qs : List Resolved.Part) → Enter.Both moving.old x.entry.place x.entry.locals.now x.entry.next y.entry.place y.entry.locals.now y.entry.next m s ps qs → moving.new.state.now ≡ state_numbers (Enter.both_entering m s x.entry.place x.entry.locals.now ps y.entry.place y.entry.locals.now qs) }
{
    if count_next(moving.tables, x.next) == 0 {
        replace_process(moving, x);
        let earlier = Successor {
            place: y.place - 1,
            ..y
        };
        replace_process(moving, earlier);
        return;
    }
    replace_process(moving, y);
    replace_process(moving, x);
}

// 17 and 18 of a handshake, then its move.
fn move_both(moving: &mut Moving, x: Successor, y: Successor) -> Result<(), Refusal>
    requires { (m : Resolved.Model) × (s : State) × (ps : List Resolved.Part) × (qs : List Resolved.Part) × Enter.Meets moving.old x.place x.locals.now x.next y.place y.locals.now y.next m s ps qs }
    ensures same { moving.new.state.ghost_name ≡ moving.old.state.ghost_name }
    ensures answers { (m : Resolved.Model) (s : State) (ps qs : List Resolved.Part) → Enter.Meets moving.old x.entry.place x.entry.locals.now x.entry.next y.entry.place y.entry.locals.now y.entry.next m s ps qs → Enter.Answers (arguments_given x.entry.locals.now ps && arguments_given y.entry.locals.now qs) s (Enter.both_entering m s x.entry.place x.entry.locals.now ps y.entry.place y.entry.locals.now qs) result moving.new.state.now }
{
    if !arguments_given(moving.tables.nodes, x.locals, x.next) {
        return Err(Refusal::Arguments);
    }
    if !arguments_given(moving.tables.nodes, y.locals, y.next) {
        return Err(Refusal::Arguments);
    }
    let state = &mut *moving.state;
    let n = state::process_count(&state[..]);
    let count = count_next(moving.tables, x.next);
    let also = count_next(moving.tables, y.next);
    if Room::PROCESSES + 2 < n + count + also {
        return Err(Refusal::Processes);
    }
    if x.place < y.place {
        replace_both(moving, x, y);
        return Ok(());
    }
    replace_both(moving, y, x);
    Ok(())
}

// An entry of one process: names take the values of the pair.
fn take_alone(moving: &mut Moving, entry: Entry) -> Result<(), Refusal>
    requires { (m : Resolved.Model) × (s : State) × (p : Process) × (b : Resolved.Branch) × (g : Guard) × Enter.AloneEntry moving.old entry.place entry.branch entry.pair m s p b g }
    ensures same { moving.new.state.ghost_name ≡ moving.old.state.ghost_name }
    ensures answers { (m : Resolved.Model) (s : State) (p : Process) (b : Resolved.Branch) (g : Guard) → Enter.AloneEntry moving.old entry.place entry.branch entry.pair m s p b g → Enter.Answers (arguments_given (Enter.locals_of p (values_at s.pairs entry.pair) g) b.next) s (Enter.changed (Enter.entering m s entry.place (Enter.locals_of p (values_at s.pairs entry.pair) g) b.next) (on_action unchanged change_of g)) result moving.new.state.now }
{
    let state = &mut *moving.state;
    let values = pair_values(&state[..], entry.pair);
    let mut locals = Locals::NONE;
    let entered = enter(
        moving.tables,
        &state[..],
        entry.place,
        entry.branch,
        values,
        &mut locals,
    );
    let successor = Successor {
        place: entry.place,
        locals: locals.held(),
        next: entered.next,
    };
    move_alone(moving, successor, entered.offer)
}

// An entry of two processes: the receiver's names take the values sent.
fn take_handshake(moving: &mut Moving, entry: Entry) -> Result<(), Refusal>
    requires { (m : Resolved.Model) × (s : State) × (x : Enter.Side) × (y : Enter.Side) × Enter.HandEntry moving.old entry.place entry.branch entry.partner entry.pbranch m s x y }
    ensures same { moving.new.state.ghost_name ≡ moving.old.state.ghost_name }
    ensures answers { (m : Resolved.Model) (s : State) (x y : Enter.Side) → Enter.HandEntry moving.old entry.place entry.branch entry.partner entry.pbranch m s x y → Enter.Answers (arguments_given (Enter.sent x) x.branch.next && arguments_given (Enter.received x y) y.branch.next) s (Enter.both_entering m s entry.place (Enter.sent x) x.branch.next entry.partner (Enter.received x y) y.branch.next) result moving.new.state.now }
{
    let state = &mut *moving.state;
    let mut locals = Locals::NONE;
    let mut others = Locals::NONE;
    let sender = enter(
        moving.tables,
        &state[..],
        entry.place,
        entry.branch,
        None,
        &mut locals,
    );
    let values = sent_values(sender.offer);
    let receiver = enter(
        moving.tables,
        &state[..],
        entry.partner,
        entry.pbranch,
        values,
        &mut others,
    );
    let x = Successor {
        place: entry.place,
        locals: locals.held(),
        next: sender.next,
    };
    let y = Successor {
        place: entry.partner,
        locals: others.held(),
        next: receiver.next,
    };
    move_both(moving, x, y)
}

// Takes a listed entry: the state moves, or 17, 18 or 19 leaves it as it is.
pub fn take_entry(
    tables: Tables,
    state: &mut [i64],
    fresh: &mut [i64; Room::FRESH],
    entry: Entry,
) -> Result<(), Refusal>
    requires { (m : Resolved.Model) × (s : State) × (w : ℕ) × Enter.Lent tables.nodes.now tables.roots.now tables.scopes.now tables.root tables.variables state.old m s × In (listed (key entry.kind entry.place entry.branch entry.partner entry.pbranch entry.pair) w) (entries (branches m) s) }
    ensures { (m : Resolved.Model) (s : State) (w : ℕ) → Enter.Lent tables.entry.nodes.now tables.entry.roots.now tables.entry.scopes.now tables.entry.root tables.entry.variables state.old m s → In (listed (key entry.kind entry.place entry.branch entry.partner entry.pbranch entry.pair) w) (entries (branches m) s) → Enter.Answers (entry_arguments m s (key entry.kind entry.place entry.branch entry.partner entry.pbranch entry.pair)) s (entry_state m s (key entry.kind entry.place entry.branch entry.partner entry.pbranch entry.pair)) result state.new }
{
    let mut moving = Moving {
        tables,
        state,
        fresh,
    };
    if entry.kind == EntryKind::HANDSHAKE {
        return take_handshake(&mut moving, entry);
    }
    take_alone(&mut moving, entry)
}

// Takes entry c of a listing: the state moves, or 17, 18 or 19 leaves it as it is.
pub fn take_row(
    tables: Tables,
    state: &mut [i64],
    fresh: &mut [i64; Room::FRESH],
    listing: &[u64],
    c: usize,
) -> Result<(), Refusal>
    requires { (m : Resolved.Model) × (s : State) × (es : List rules.Entry) × (e : rules.Entry) × Row tables.nodes.now tables.roots.now tables.scopes.now tables.root tables.variables state.old listing.now c m s es e }
    ensures { (m : Resolved.Model) (s : State) (es : List rules.Entry) (e : rules.Entry) → Row tables.entry.nodes.now tables.entry.roots.now tables.entry.scopes.now tables.entry.root tables.entry.variables state.old listing.now c m s es e → Enter.Answers (entry_arguments m s (rules.key_of e)) s (entry_state m s (rules.key_of e)) result state.new }
{
    take_entry(tables, state, fresh, listing::entry_at(listing, c))
}
