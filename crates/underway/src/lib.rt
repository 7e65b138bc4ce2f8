#![tactic(auto)]

// The buffer of a search under way: its numbers, its exact test, and the search that it holds.
ghost use Rattle.std.specs.Prelude.{◌≡◌, not, ◌||◌, ◌≤◌, ◌<◌, length, take};
ghost use Rattle.machine.specs.State.{state_length};
ghost use Rattle.machine.specs.Machine.{depth_limit, count_limit, search_length};
ghost use Rattle.state.specs.Test.{every, is_zero};
ghost use Rattle.underway.specs.Buffer.{is_natural, is_entries, is_head, entries_in, run_numbers, begun_numbers, carried_numbers};

use machine::Limits;

#[derive(Clone, Copy)]
pub struct Layout;

impl Layout {
    // Where the depth, the wait, the count, whether a refusal was met, and the length of the run walked last stand.
    pub const DEPTH: usize = 0;

    pub const WAIT: usize = 1;

    pub const COUNT: usize = 2;

    pub const MET: usize = 3;

    pub const LENGTH: usize = 4;

    // Where its entries stand, and the numbers of the start.
    pub const RUN: usize = 5;

    pub const START: usize = Layout::RUN + Limits::DEPTH;

    // The numbers of all.
    pub const NUMBERS: usize = Layout::START + state::Layout::NUMBERS;

    // The largest count (28).
    pub const MOST: u64 = 9000000000000000000;
}

// ---- the test

fn all_natural(s: &[i64]) -> bool
    ensures { result ≡ every is_natural s.now }
{
    s.iter().all(|&z| 0 <= z)
}

// Whether so many entries stand first, and zeros after them.
fn is_entries(run: &[i64], n: usize) -> bool
    requires { n ≤ length run.now }
    ensures { result ≡ is_entries n run.now }
{
    all_natural(&run[..n]) && state::all_zero(&run[n..])
}

// Whether a search of which so many states were counted may have a run of this length.
fn may_have(count: i64, entries: i64) -> bool
    ensures { result ≡ (not (is_zero count) || is_zero entries) }
{
    count != 0 || entries == 0
}

// Whether the numbers before the start are those of a search in a model with so many names of waits.
pub fn is_head(search: &[i64], waits: usize) -> bool
    requires { (length search.now ≡ search_length) × (waits < 65536) }
    ensures { result ≡ is_head waits search.now }
{
    let depth = search[Layout::DEPTH];
    if !state::is_below(depth, Limits::DEPTH + 1) {
        return false;
    }
    let wait = search[Layout::WAIT];
    if !state::is_below(wait, waits + 1) {
        return false;
    }
    let count = search[Layout::COUNT];
    if !state::is_below(count, Layout::MOST as usize + 1) {
        return false;
    }
    let met = search[Layout::MET];
    if !state::is_below(met, 2) {
        return false;
    }
    let entries = search[Layout::LENGTH];
    if !state::is_below(entries, depth as usize + 1) {
        return false;
    }
    may_have(count, entries) && is_entries(&search[Layout::RUN..Layout::START], entries as usize)
}

// The run's numbers as entries; none where one of them is beyond every listing.
pub fn entries_in(search: &[i64]) -> Option<[u16; Limits::DEPTH]>
    requires { length search.now ≡ search_length }
    ensures { result ≡ entries_in search.now }
{
    let mut run = [0u16; Limits::DEPTH];
    for i in 0..Limits::DEPTH {
        let entry = search[Layout::RUN + i];
        if !state::is_below(entry, Limits::ENTRIES) {
            return None;
        }
        run[i] = entry as u16;
    }
    Some(run)
}

// ---- what is written

// Begins a search of this depth, to the wait of this code, at a state.
pub fn put_begun(search: &mut [i64], depth: usize, code: usize, state: &[i64])
    requires { (length search.old ≡ search_length) × (length state.now ≡ state_length) × (depth ≤ depth_limit) × (code < 65536) }
    ensures { search.new ≡ begun_numbers depth code state.now }
{
    search.fill(0);
    search[Layout::DEPTH] = depth as i64;
    search[Layout::WAIT] = code as i64;
    search[Layout::START..].copy_from_slice(state);
}

// Writes a run's first entries, and zeros after them.
fn put_run(part: &mut [i64], run: &[u16; Limits::DEPTH], n: usize)
    requires { (length part.old ≡ depth_limit) × (n ≤ depth_limit) }
    ensures { part.new ≡ run_numbers (take n run.now) }
{
    part.fill(0);
    for i in 0..n {
        part[i] = i64::from(run[i]);
    }
}

// Writes how far a search was carried on: the count, whether a refusal was met, and the run walked last.
pub fn put_carried(search: &mut [i64], count: u64, met: bool, run: &[u16; Limits::DEPTH], n: usize)
    requires { (length search.old ≡ search_length) × (count ≤ count_limit) × (n ≤ depth_limit) }
    ensures { search.new ≡ carried_numbers search.old count met (take n run.now) }
{
    search[Layout::COUNT] = count as i64;
    search[Layout::MET] = i64::from(met);
    search[Layout::LENGTH] = n as i64;
    put_run(&mut search[Layout::RUN..Layout::START], run, n);
}
