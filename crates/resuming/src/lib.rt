#![tactic(auto)]

// A search under way over the tables of a model, from buffer to buffer: its exact test, and carrying it on by so many states.
ghost use Rattle.std.specs.Prelude.{◌≡◌, Bool, true, false, not, List, ℕ, ◌+◌, ◌≤◌, ◌<◌, length, nat_abs};
ghost use Rattle.std.proofs.Math.Option.{none, some};
ghost use Rattle.grammar.specs.Limit.{token_limit};
ghost use Rattle.model.specs.Resolved as Resolved;
ghost use Rattle.model.specs.Good.{GoodModel};
ghost use Rattle.waitnames.specs.Names.{name_tokens};
ghost use Rattle.runs.specs.Tree as tree;
ghost use Rattle.runs.specs.Marks as marks;
ghost use Rattle.machine.specs.Machine.{Search as Searched, search_length, count_limit, moves_by, carried_as, ended_as, carries_by};
ghost use Rattle.state.specs.Test.{at, is_zero};
ghost use Rattle.underway.specs.Buffer.{is_natural, wait_of, search_numbers, under_in, search_in, is_under, is_search};
ghost use Rattle.searching.specs.Lent.{Lends};
ghost use Rattle.walk.specs.Held.{Holds};
ghost use Rattle.pieces.specs.Walked.{ways_of};
ghost use Rattle.pieces.specs.Position.{Comes};
ghost use Rattle.pieces.specs.declared.Going.TheVariants.{Over};
ghost use Rattle.resuming.specs.Progress.{bare, Tells};
ghost use Rattle.resuming.specs.Standing.{position_in, carried_on, count_of};

use naming::Words;
use pieces::{Ended, Going, Position, Run, Sought};
use store::Settled;
use underway::Layout;
use walk::{Level, Search, Written};

// What carrying on answers: 0 or a refusal's number; the count of states since the beginning; 1 where the search has ended, else 0; the length of the run, 0 for none; its entry numbers, unused ones 0.
// C reads these numbers in this order.
#[repr(C)]
#[derive(Clone, Copy)]
pub struct Progress {
    pub number: u64,
    pub count: u64,
    pub ended: u64,
    pub length: u64,
    pub run: [u64; Level::DEPTH],
}

impl Progress {
    // Without a run.
    pub fn bare(number: u64, count: u64, ended: u64) -> Self
        ensures { result ≡ bare number count ended }
    {
        Progress {
            number,
            count,
            ended,
            length: 0,
            run: [0u64; Level::DEPTH],
        }
    }
}

// ---- what a buffer tells

// A number of the buffer that is 0 or more.
fn number_at(search: &[i64], i: usize) -> u64
    requires { (i < length search.now) × (is_natural (at search.now i) ≡ true) }
    ensures { result ≡ nat_abs (at search.now i) }
{
    let z = search[i];
    z as u64
}

fn is_zero_at(search: &[i64], i: usize) -> bool
    requires { i < length search.now }
    ensures { result ≡ is_zero (at search.now i) }
{
    let z = search[i];
    z == 0
}

// Where its search stands, if its run's numbers are entries.
fn position_in(search: &[i64]) -> Option<Position>
    requires { (length search.now ≡ search_length) × (is_natural (at search.now 2) ≡ true) × (is_natural (at search.now 4) ≡ true) }
    ensures { result ≡ position_in search.now }
{
    let entries = underway::entries_in(search)?;
    Some(Position {
        count: number_at(search, Layout::COUNT),
        met: !is_zero_at(search, Layout::MET),
        last: Run {
            length: number_at(search, Layout::LENGTH) as usize,
            entries,
        },
    })
}

// What a search to the wait of this code goes over: to the wait whose name has this number, or to none.
fn sought_of<'a>(
    settled: Settled<'a>,
    written: Written<'a>,
    waits: &[u16],
    code: usize,
) -> Sought<'a>
    requires { ((m : Resolved.Model) × Lends settled written m × (waits.now ≡ name_tokens m)) × (code ≤ length waits.now) }
    ensures { (m : Resolved.Model) → Lends settled.entry written.entry m → waits.now ≡ name_tokens m → Holds result.search m × (ways_of result m ≡ moves_by m (wait_of code)) }
{
    if code == 0 {
        return Sought {
            search: Search {
                tables: settled.tables,
                written,
                name: &[],
            },
            named: false,
        };
    }
    let words = Words {
        text: written.text,
        places: written.places,
        sizes: written.sizes,
    };
    let token = usize::from(waits[code - 1]);
    Sought {
        search: Search {
            tables: settled.tables,
            written,
            name: words.word(token),
        },
        named: true,
    }
}

// ---- the test

// Whether the numbers are those of a search under way over the model.
fn is_under(settled: Settled, written: Written, waits: &[u16], search: &[i64]) -> bool
    requires { ((m : Resolved.Model) × Lends settled written m × (waits.now ≡ name_tokens m)) × (length waits.now ≤ token_limit) × (length search.now ≡ search_length) }
    ensures { (m : Resolved.Model) → Lends settled.entry written.entry m → waits.now ≡ name_tokens m → result ≡ is_under m search.now }
{
    if !underway::is_head(search, waits.len()) {
        return false;
    }
    let start = &search[Layout::START..];
    if !state::is_state(start, settled.shape()) {
        return false;
    }
    let found = position_in(search);
    let Some(position) = found else {
        return false;
    };
    let code = number_at(search, Layout::WAIT) as usize;
    let sought = sought_of(settled, written, waits, code);
    pieces::is_run(sought, start, position.last)
}

// Question 11: all zeros, or such numbers.
pub fn is_search(settled: Settled, written: Written, waits: &[u16], search: &[i64]) -> bool
    requires { ((m : Resolved.Model) × Lends settled written m × (waits.now ≡ name_tokens m)) × (length waits.now ≤ token_limit) × (length search.now ≡ search_length) }
    ensures { (m : Resolved.Model) → Lends settled.entry written.entry m → waits.now ≡ name_tokens m → result ≡ is_search m search.now }
{
    if is_zero_at(search, Layout::DEPTH) {
        return state::all_zero(search);
    }
    is_under(settled, written, waits, search)
}

// ---- carrying on

// What carrying the search of a buffer on by so many states comes to.
fn going_of(settled: Settled, written: Written, waits: &[u16], search: &[i64], number: u64) -> Going
    requires { ((m : Resolved.Model) × Lends settled written m × (waits.now ≡ name_tokens m) × (is_search m search.now ≡ true)) × (length search.now ≡ search_length) × (is_zero (at search.now 0) ≡ false) × (nat_abs (at search.now 2) + number ≤ count_limit) }
    ensures within { count_of result ≤ count_limit }
    ensures going { (m : Resolved.Model) → Lends settled.entry written.entry m → waits.now ≡ name_tokens m → is_search m search.now ≡ true → Comes (carried_on m number (under_in m search.now)) result }
{
    let position = position_in(search).unwrap();
    let code = number_at(search, Layout::WAIT) as usize;
    let depth = number_at(search, Layout::DEPTH) as usize;
    let sought = sought_of(settled, written, waits, code);
    pieces::carry_on(sought, &search[Layout::START..], depth, position, number)
}

// How a search has ended.
fn ended_as(ended: Ended) -> Progress
    requires { (g : marks.Going) × Comes g (Over ended) }
    ensures { (c : ℕ) (a : tree.Answer) → Comes (marks.gone c a) (Over ended) → Tells (ended_as c a) result }
{
    let found = match ended.found {
        Ok(run) => {
            let entries = run.entries;
            searching::result_of(Ok(run.length), &entries)
        }
        Err(missed) => {
            let entries = [0u16; Level::DEPTH];
            searching::result_of(Err(missed), &entries)
        }
    };
    let run = found.run;
    Progress {
        number: found.number,
        count: ended.count,
        ended: 1,
        length: found.length,
        run,
    }
}

// Writes what carrying on came to: where the search stands, or zeros at its end.
fn put_going(search: &mut [i64], going: Going) -> Progress
    requires { ((g : marks.Going) × Comes g going) × (length search.old ≡ search_length) × (count_of going ≤ count_limit) }
    ensures { (m : Resolved.Model) (x : Searched) (g : marks.Going) → GoodModel m → is_search m search.old ≡ true → search_in m search.old ≡ some x → Comes g going → (search.new ≡ search_numbers (carried_as x g).machine) × Tells (carried_as x g).answer result }
{
    match going {
        Going::On(position) => {
            let last = position.last;
            let entries = last.entries;
            underway::put_carried(search, position.count, position.met, &entries, last.length);
            Progress::bare(0, position.count, 0)
        }
        Going::Over(ended) => {
            search.fill(0);
            ended_as(ended)
        }
    }
}

// Note 10: the search of a buffer is carried on by so many states and no more, or 28.
pub fn carry(
    settled: Settled,
    written: Written,
    waits: &[u16],
    search: &mut [i64],
    number: u64,
) -> Progress
    requires { ((m : Resolved.Model) × Lends settled written m × (waits.now ≡ name_tokens m) × (is_search m search.old ≡ true)) × (length search.old ≡ search_length) }
    ensures { (m : Resolved.Model) → Lends settled.entry written.entry m → waits.now ≡ name_tokens m → is_search m search.old ≡ true → (search.new ≡ search_numbers (carries_by number m (search_in m search.old)).machine) × Tells (carries_by number m (search_in m search.old)).answer result }
{
    if is_zero_at(search, Layout::DEPTH) {
        return Progress::bare(28, 0, 0);
    }
    let left = Layout::MOST - number_at(search, Layout::COUNT);
    if left < number {
        return Progress::bare(28, 0, 0);
    }
    let going = going_of(settled, written, waits, search, number);
    put_going(search, going)
}
