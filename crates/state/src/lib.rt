#![tactic(auto)]

// The numbers of a state.
ghost use Rattle.std.specs.Prelude.{◌≡◌, ◌+◌, ◌-◌, ◌*◌, ◌≤◌, ◌<◌, true, false, ◌++◌, pos, nat_abs, length, set, take, drop, replicate};
ghost use Rattle.model.specs.Limits.{local_limit};
ghost use Rattle.model.specs.Opening.{process_limit};
ghost use Rattle.model.specs.Scope.{locals_in, definition_in};
ghost use Rattle.value.specs.Arithmetic.{is_same};
ghost use Rattle.rules.specs.Order.{less};
ghost use Rattle.machine.specs.State.{pair_limit, process_width, channel_width, pair_width, state_length};
ghost use Rattle.state.specs.Change.{rewritten, pair_rows, pair_added, pair_taken, pair_launched, pair_killed, process_replaced, process_added, process_pushed};
ghost use Rattle.state.specs.Fits.{FewLocals, FewLocals-prop};
ghost use Rattle.state.specs.Read.{Passed, process_count, pair_count, sum_at, locals_at, definition_number, pair_row};
ghost use Rattle.state.specs.Test.{at, place_of, is_lit, values_past, every, rows, is_value, is_zero, is_below, is_padded, is_process, is_count, is_item, is_item_of, is_channel, is_pair, ascends, are_processes, are_pairs, is_state};

// What a state is judged by: the scope of each of the sums, none of more than 8 locals, and how many channel names there are.
#[derive(Clone, Copy)]
pub struct Shape<'a> {
    pub scopes: &'a [u16],
    pub channels: usize,
    ghost few: { FewLocals scopes.now } by { FewLocals-prop scopes.now },
}

#[derive(Clone, Copy)]
pub struct Layout;

impl Layout {
    // Past the greatest count of processes, and of pairs.
    pub const PROCESS_COUNTS: usize = model::Limits::PROCESSES + 1;

    pub const PAIR_COUNTS: usize = machine::Limits::PAIRS + 1;

    // Where the processes stand, and numbers of one.
    pub const PROCESSES: usize = 2;

    pub const PROCESS: usize = model::Limits::LOCALS + 2;

    // Where the definition stands among the numbers of a process: after the sum and all locals.
    pub const DEFINITION: usize = model::Limits::LOCALS + 1;

    // The numbers of as many processes as a state holds.
    pub const ALL_PROCESSES: usize = model::Limits::PROCESSES * Layout::PROCESS;

    // Where the pairs stand, and numbers of one.
    pub const PAIRS: usize = Layout::PROCESSES + Layout::ALL_PROCESSES;

    pub const PAIR: usize = 10;

    // Numbers of a pair's channel, after which its count of values stands; and past the greatest count of items.
    pub const CHANNEL: usize = 7;

    pub const ITEM_COUNTS: usize = 4;

    // Numbers of a pair before its values, and past the greatest count of these.
    pub const VALUES: usize = 8;

    pub const VALUE_COUNTS: usize = 3;

    // Numbers of a state.
    pub const NUMBERS: usize = Layout::PAIRS + machine::Limits::PAIRS * Layout::PAIR;
}

#[tactic(auto, unfolding(crate::specs::Test::is_value))]
fn is_value(z: i64) -> bool
    ensures { result ≡ is_value z }
{
    (value::Range::LEAST..=value::Range::GREATEST).contains(&z)
}

// A name for the test, as the definitions of rows and items have it: their proofs go case by case of what it ensures.
fn is_zero(z: i64) -> bool
    ensures { result ≡ is_zero z }
{
    z == 0
}

// By two comparisons: `usize::try_from(z)` would make a Result to take it apart at once.
pub fn is_below(z: i64, n: usize) -> bool
    ensures { result ≡ is_below n z }
{
    0 <= z && (z as usize) < n
}

fn all_values(s: &[i64]) -> bool
    ensures { result ≡ every is_value s.now }
{
    s.iter().all(|&z| is_value(z))
}

// Whether all numbers are 0. The bits are gathered and tested once, as in store's `is_clear` for bytes: a test of each number took 9% of a list of the sheet (docs/PERFORMANCE.md), and one function for both would need a trait of its own with the laws of `|`.
pub fn all_zero(s: &[i64]) -> bool
    ensures { result ≡ every is_zero s.now }
{
    let mut bits = 0;
    for &z in s {
        bits |= z;
    }
    bits == 0
}

// Whether values fill the first places, and zeros the rest.
fn is_padded(s: &[i64], count: usize) -> bool
    requires { count ≤ length s.now }
    ensures { result ≡ is_padded count s.now }
{
    all_values(&s[..count]) && all_zero(&s[count..])
}

// How many locals a sum has, of what is known of it.
pub fn locals_in(scope: u16) -> usize
    ensures { result ≡ locals_in scope }
{
    scope as usize % model::Limits::SCOPE
}

// The definition whose text holds a sum, of what is known of it.
pub fn definition_in(scope: u16) -> usize
    ensures { (result ≡ definition_in scope) × (result < 65536) }
{
    scope as usize / model::Limits::SCOPE
}

// The comparison as the definition has it: a name for it and for the bound under which the cast keeps the number.
fn is_number(z: i64, n: usize) -> bool
    requires { n < 9223372036854775808 }
    ensures { result ≡ is_same z (pos n) }
{
    z == n as i64
}

// Whether a row is a process of a sum that exists.
fn is_process(row: &[i64; Layout::PROCESS], shape: Shape) -> bool
    ensures { result ≡ is_process shape.entry.scopes.now row.now }
{
    let z = row[0];
    if !is_below(z, shape.scopes.len()) {
        return false;
    }
    let sum = z as usize;
    let scope = shape.scopes[sum];
    if !is_padded(&row[1..Layout::DEFINITION], locals_in(scope)) {
        return false;
    }
    is_number(row[Layout::DEFINITION], definition_in(scope))
}

// Whether a number is a count of 1 or more, below a bound.
fn is_count(z: i64, bound: usize) -> bool
    ensures { result ≡ is_count bound z }
{
    !is_zero(z) && is_below(z, bound)
}

fn is_item(kind: i64, z: i64, channels: usize) -> bool
    ensures { result ≡ is_item channels kind z }
{
    match kind {
        0 => is_value(z),
        1 => is_below(z, channels),
        _ => false,
    }
}

// Whether two numbers are item i of so many, or unused.
fn is_item_of(items: i64, i: i64, kind: i64, z: i64, channels: usize) -> bool
    ensures { result ≡ is_item_of channels items i kind z }
{
    if i < items {
        return is_item(kind, z, channels);
    }
    is_zero(kind) && is_zero(z)
}

// Whether a row begins with the numbers of a channel that exists. The three items are written out, as they are in the definition, each with its number.
fn is_channel(row: &[i64; Layout::PAIR], channels: usize) -> bool
    ensures { result ≡ is_channel channels row.now }
{
    let items = row[0];
    if !is_count(items, Layout::ITEM_COUNTS) {
        return false;
    }
    if !is_item_of(items, 0, row[1], row[2], channels) {
        return false;
    }
    if !is_item_of(items, 1, row[3], row[4], channels) {
        return false;
    }
    is_item_of(items, 2, row[5], row[6], channels)
}

// Whether a row is a pair on a channel that exists.
fn is_pair(row: &[i64; Layout::PAIR], channels: usize) -> bool
    ensures { result ≡ is_pair channels row.now }
{
    if !is_channel(row, channels) {
        return false;
    }
    let count = row[Layout::CHANNEL];
    if !is_count(count, Layout::VALUE_COUNTS) {
        return false;
    }
    is_padded(&row[Layout::VALUES..], count as usize)
}

// The first n rows of W numbers.
fn first_rows<const W: usize>(s: &[i64], n: usize) -> &[[i64; W]]
    requires { (0 < W) × (n * W ≤ length s.now) }
    ensures { (result.now ≡ rows W n s.now) × (length result.now ≡ n) }
{
    &s.as_chunks::<W>().0[..n]
}

// Whether the first of two rows stands before the second.
fn is_before(a: &[i64; Layout::PAIR], b: &[i64; Layout::PAIR]) -> bool
    ensures { result ≡ less a.now b.now }
{
    // Not `a < b`: on rows of ten it takes three times as long. One index for both rows, from which on the proof compares their rests.
    for (i, &x) in a.iter().enumerate() {
        if x != b[i] {
            return x < b[i];
        }
    }
    false
}

// Whether each pair stands before the next.
fn is_ascending(pairs: &[[i64; Layout::PAIR]]) -> bool
    ensures { result ≡ ascends pairs.now }
{
    pairs.is_sorted_by(is_before)
}

// Whether n processes stand in the part of the processes, and zeros after them.
fn are_processes(s: &[i64], n: usize, shape: Shape) -> bool
    requires { n * process_width ≤ length s.now }
    ensures { result ≡ are_processes shape.entry.scopes.now n s.now }
{
    let processes = first_rows::<{ Layout::PROCESS }>(s, n);
    processes.iter().all(|row| is_process(row, shape)) && all_zero(&s[n * Layout::PROCESS..])
}

// Whether n pairs ascend in the part of the pairs, and zeros stand after them.
fn are_pairs(s: &[i64], n: usize, channels: usize) -> bool
    requires { n * pair_width ≤ length s.now }
    ensures { result ≡ are_pairs channels n s.now }
{
    let pairs = first_rows::<{ Layout::PAIR }>(s, n);
    pairs.iter().all(|row| is_pair(row, channels))
        && (is_ascending(pairs) && all_zero(&s[n * Layout::PAIR..]))
}

// One of the two counts of a state.
fn counted(state: &[i64], i: usize) -> usize
    requires { (i < length state.now) × (is_below (process_limit + 1) (at state.now i) ≡ true) }
    ensures { (result ≡ nat_abs (at state.now i)) × (result ≤ process_limit) }
{
    state[i] as usize
}

// Whether the numbers are those of a state over the sums with these scopes and so many channel names.
pub fn is_state(state: &[i64], shape: Shape) -> bool
    requires { length state.now ≡ state_length }
    ensures { result ≡ is_state shape.entry.scopes.now shape.entry.channels state.now }
{
    if !is_below(state[0], Layout::PROCESS_COUNTS) {
        return false;
    }
    if !is_below(state[1], Layout::PAIR_COUNTS) {
        return false;
    }
    let processes = &state[Layout::PROCESSES..Layout::PAIRS];
    if !are_processes(processes, counted(state, 0), shape) {
        return false;
    }
    are_pairs(&state[Layout::PAIRS..], counted(state, 1), shape.channels)
}

// How many of the pairs, which ascend, stand before a row. That they ascend is a clause here, in is_lit, channel_run and listing's value_run: a struct of rows and fact
// would be made by lit_pairs alone, and opened by each of the four at once.
pub fn find_pair(pairs: &[[i64; Layout::PAIR]], row: &[i64; Layout::PAIR]) -> usize
    requires { ascends pairs.now ≡ true }
    ensures { result ≡ place_of row.now pairs.now }
{
    pairs.partition_point(
        |pair: &[i64; Layout::PAIR]| -> bool
            ensures { result ≡ less pair.now row.entry.now }
        { is_before(pair, row) },
    )
}

// Whether the pair at the place that find_pair gave is the row itself.
fn stands_at(pairs: &[[i64; Layout::PAIR]], place: usize, row: &[i64; Layout::PAIR]) -> bool
    requires { place ≡ place_of row.now pairs.now }
    ensures { result ≡ is_lit row.now pairs.now }
{
    place < pairs.len() && !is_before(row, &pairs[place])
}

// Whether a row is one of the pairs, which ascend.
pub fn is_lit(pairs: &[[i64; Layout::PAIR]], row: &[i64; Layout::PAIR]) -> bool
    requires { ascends pairs.now ≡ true }
    ensures { result ≡ is_lit row.now pairs.now }
{
    stands_at(pairs, find_pair(pairs, row), row)
}

// Where the pairs on one channel stand.
#[derive(Clone, Copy)]
pub struct Run {
    pub from: usize,
    pub to: usize,
}

// How many of the pairs, which ascend, stand before those on a channel, and how many up to the last of these. The row has the channel's numbers, then zeros.
pub fn channel_run(pairs: &[[i64; Layout::PAIR]], row: &mut [i64; Layout::PAIR]) -> Run
    requires { ascends pairs.now ≡ true }
    ensures { (result.from ≡ place_of row.old pairs.now) × (result.to ≡ place_of (set row.old channel_width (pos values_past)) pairs.now) }
{
    let from = find_pair(pairs, row);
    row[Layout::CHANNEL] = Layout::VALUE_COUNTS as i64;
    let to = find_pair(pairs, row);
    Run { from, to }
}

// Every number moves k places to the right; the last k fall off, the first k stay as they are.
fn shift_right(s: &mut [i64], k: usize)
    requires { k ≤ length s.old }
    ensures { s.new ≡ take k s.old ++ take (length s.old - k) s.old }
{
    s.copy_within(..s.len() - k, k);
}

// Every number moves k places to the left; the first k fall off, and zeros come in from the right.
fn shift_left(s: &mut [i64], k: usize)
    requires { k ≤ length s.old }
    ensures { s.new ≡ drop k s.old ++ replicate k (pos 0) }
{
    s.copy_within(k.., 0);
    let kept = s.len() - k;
    s[kept..].fill(0);
}

// The first `cut` numbers go out and fresh ones come in; what stands after them moves.
fn rewrite(s: &mut [i64], cut: usize, fresh: &[i64])
    requires { (cut ≤ length s.old) × (length fresh.now ≤ length s.old) }
    ensures { s.new ≡ rewritten cut fresh.now s.old }
{
    let count = fresh.len();
    if count < cut {
        shift_left(s, cut - count);
    } else if cut < count {
        shift_right(s, count - cut);
    }
    s[..count].copy_from_slice(fresh);
}

// Writes a count, number 0 that of the processes, number 1 that of the pairs: in a header, as in a step.
pub fn put_count(state: &mut [i64], i: usize, n: usize)
    requires { (i < length state.old) × (n < 9223372036854775808) }
    ensures { state.new ≡ set state.old i (pos n) }
{
    state[i] = n as i64;
}

// A pair comes in at a place; the later ones move.
pub fn insert_pair(state: &mut [i64], place: usize, row: &[i64; Layout::PAIR])
    requires { (length state.old ≡ state_length) × (place < pair_limit) × (is_below (pair_limit + 1) (at state.old 1) ≡ true) × (nat_abs (at state.old 1) < pair_limit) }
    ensures { state.new ≡ pair_added place row.now state.old }
{
    let n = counted(&state[..], 1);
    let from = Layout::PAIRS + place * Layout::PAIR;
    rewrite(&mut state[from..], 0, row);
    put_count(state, 1, n + 1);
}

// The pair at a place goes out; the later ones move.
pub fn remove_pair(state: &mut [i64], place: usize)
    requires { (length state.old ≡ state_length) × (place < pair_limit) × (is_below (pair_limit + 1) (at state.old 1) ≡ true) × (1 ≤ nat_abs (at state.old 1)) }
    ensures { state.new ≡ pair_taken place state.old }
{
    let n = counted(&state[..], 1);
    let from = Layout::PAIRS + place * Layout::PAIR;
    shift_left(&mut state[from..], Layout::PAIR);
    put_count(state, 1, n - 1);
}

// The process at a place goes out and the first `count` processes in `fresh` come in; the later ones move. The count stands beside: of a part cut to the new processes it would be the length divided by ten, under a clause that nothing is left over.
pub fn splice(state: &mut [i64], place: usize, fresh: &[i64], count: usize)
    requires { (length state.old ≡ state_length) × (place < process_limit) × (is_below (process_limit + 1) (at state.old 0) ≡ true) × (1 ≤ nat_abs (at state.old 0)) × (count + place ≤ process_limit) × (count * process_width ≤ length fresh.now) }
    ensures { state.new ≡ process_replaced place count (take (count * process_width) fresh.now) state.old }
{
    let n = counted(&state[..], 0);
    let from = Layout::PROCESSES + place * Layout::PROCESS;
    rewrite(
        &mut state[from..Layout::PAIRS],
        Layout::PROCESS,
        &fresh[..count * Layout::PROCESS],
    );
    put_count(state, 0, n - 1 + count);
}

// The sum and the locals of one more process, after the others. No struct of a process: what is pushed is never held, each number goes to its place.
fn put_process(state: &mut [i64], sum: usize, locals: &[i64])
    requires { (length state.old ≡ state_length) × (is_below (process_limit + 1) (at state.old 0) ≡ true) × (nat_abs (at state.old 0) < process_limit) × (sum < 9223372036854775808) × (length locals.now ≤ local_limit) }
    ensures { state.new ≡ process_added sum locals.now state.old }
{
    let n = counted(&state[..], 0);
    let from = Layout::PROCESSES + n * Layout::PROCESS;
    let first = from + 1;
    state[from] = sum as i64;
    state[first..first + locals.len()].copy_from_slice(locals);
    put_count(state, 0, n + 1);
}

// One more process, after the others.
pub fn push_process(state: &mut [i64], sum: usize, locals: &[i64], definition: usize)
    requires { (length state.old ≡ state_length) × (is_below (process_limit + 1) (at state.old 0) ≡ true) × (nat_abs (at state.old 0) < process_limit) × (sum < 9223372036854775808) × (length locals.now ≤ local_limit) × (definition < 9223372036854775808) }
    ensures { state.new ≡ process_pushed sum locals.now definition state.old }
{
    let n = counted(&state[..], 0);
    let last = Layout::PROCESSES + n * Layout::PROCESS + Layout::DEFINITION;
    state[last] = definition as i64;
    put_process(state, sum, locals);
}

// The lit pairs of a state.
pub fn lit_pairs(state: &[i64]) -> &[[i64; Layout::PAIR]]
    requires { Passed state.now }
    ensures { (result.now ≡ pair_rows state.now) × (ascends result.now ≡ true) }
{
    first_rows::<{ Layout::PAIR }>(&state[Layout::PAIRS..], counted(state, 1))
}

// A pair is lit; one that is lit already stays as it is.
pub fn launch_pair(state: &mut [i64], row: &[i64; Layout::PAIR])
    requires { Passed state.old × ((is_lit row.now (pair_rows state.old) ≡ false) → pair_count state.old < pair_limit) }
    ensures { state.new ≡ pair_launched row.now state.old }
{
    let pairs = lit_pairs(&state[..]);
    let place = find_pair(pairs, row);
    if stands_at(pairs, place, row) {
        return;
    }
    insert_pair(state, place, row);
}

// A pair is unlit, if it was lit.
pub fn kill_pair(state: &mut [i64], row: &[i64; Layout::PAIR])
    requires { Passed state.old }
    ensures { state.new ≡ pair_killed row.now state.old }
{
    let pairs = lit_pairs(&state[..]);
    let place = find_pair(pairs, row);
    if !stands_at(pairs, place, row) {
        return;
    }
    remove_pair(state, place);
}

// ---- reading a state
// A state stays a slice, whose length and numbers the contracts tell: C lends it as one, to be changed between the calls, and question 1 tests its length once.

// How many processes a state has.
pub fn process_count(state: &[i64]) -> usize
    requires { Passed state.now }
    ensures { (result ≡ process_count state.now) × (result ≤ process_limit) }
{
    counted(state, 0)
}

// How many pairs a state has.
pub fn pair_count(state: &[i64]) -> usize
    requires { Passed state.now }
    ensures { (result ≡ pair_count state.now) × (result ≤ pair_limit) }
{
    counted(state, 1)
}

// The sum number of the process at a place.
pub fn sum_at(state: &[i64], place: usize) -> usize
    requires { (Passed state.now) × (place < process_count state.now) }
    ensures { result ≡ sum_at state.now place }
{
    let from = Layout::PROCESSES + place * Layout::PROCESS;
    state[from] as usize
}

// The definition number of the process at a place.
pub fn definition_at(state: &[i64], place: usize) -> usize
    requires { (Passed state.now) × (place < process_count state.now) }
    ensures { result ≡ definition_number state.now place }
{
    let from = Layout::PROCESSES + place * Layout::PROCESS + Layout::DEFINITION;
    state[from] as usize
}

// The first locals of the process at a place.
pub fn locals_at(state: &[i64], place: usize, count: usize) -> &[i64]
    requires { (length state.now ≡ state_length) × (place < process_limit) × (count ≤ local_limit) }
    ensures { result.now ≡ locals_at state.now place count }
{
    let from = Layout::PROCESSES + place * Layout::PROCESS + 1;
    let to = from + count;
    &state[from..to]
}

// The numbers of the pair at a place.
// A slice, as `locals_at` gives: both callers read three of its numbers by their places.
pub fn pair_row(state: &[i64], place: usize) -> &[i64]
    requires { (length state.now ≡ state_length) × (place < pair_limit) }
    ensures { result.now ≡ pair_row state.now place }
{
    let from = Layout::PAIRS + place * Layout::PAIR;
    let to = from + Layout::PAIR;
    &state[from..to]
}
