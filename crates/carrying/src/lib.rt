#![tactic(auto)]

// A search that is begun and carried on over a text that a model buffer holds: questions 11, 26 and 28, the wait by its number, and what the search's buffer is left with.
ghost use Rattle.std.specs.Prelude.{◌≡◌, ◌&&◌, List, [], ℕ, ◌<◌, ◌≤◌, length, take};
ghost use Rattle.std.proofs.Math.Option.{some};
ghost use Rattle.grammar.specs.Limit.{token_limit};
ghost use Rattle.model.specs.Resolved as Resolved;
ghost use Rattle.model.specs.Held.{held};
ghost use Rattle.waitnames.specs.Names.{all_waits, name_tokens};
ghost use Rattle.naming.specs.Marks.{Within};
ghost use Rattle.machine.specs.State.{state_length};
ghost use Rattle.machine.specs.Machine.{search_length, begin', carry'};
ghost use Rattle.state.specs.Fits.{scopes_of};
ghost use Rattle.state.specs.Test.{is_state};
ghost use Rattle.underway.specs.Buffer.{is_search};
ghost use Rattle.buffers.specs.Parts.{lent_search};
ghost use Rattle.buffers.specs.Effect.{requested};
ghost use Rattle.searching.specs.Lent.{Lends};
ghost use Rattle.carrying.specs.Turns.{refusal_number, Begins, GivesProgress};

use naming::{WaitNames, Words};
use opening::Space;
use resuming::Progress;
use store::Settled;
use walk::Written;

// Why a search isn't begun: the model, the state or the search isn't held; or another depth.
#[derive(Clone, Copy)]
pub enum Refusal {
    NotHeld,
    Depth,
}

impl Refusal {
    // The number that it answers with.
    pub fn number(self) -> u64
        ensures { result ≡ refusal_number self }
    {
        match self {
            Refusal::NotHeld => 11,
            Refusal::Depth => 26,
        }
    }
}

// A text's bytes, and where its tokens stand.
fn words_of<'a>(written: Written<'a>) -> Words<'a>
    ensures { (result.text.now ≡ written.entry.text.now) × ((result.places.now ≡ written.entry.places.now) × (result.sizes.now ≡ written.entry.sizes.now)) }
{
    Words {
        text: written.text,
        places: written.places,
        sizes: written.sizes,
    }
}

// Question 11 of a state and a search over the tables of a model.
fn are_held(
    settled: Settled,
    written: Written,
    waits: &[u16],
    state: &[i64],
    search: &[i64],
) -> bool
    requires { ((m : Resolved.Model) × Lends settled written m × (waits.now ≡ name_tokens m)) × (length state.now ≡ state_length) × (length search.now ≡ search_length) × (length waits.now ≤ token_limit) }
    ensures { (m : Resolved.Model) → Lends settled.entry written.entry m → waits.now ≡ name_tokens m → result ≡ (is_state (scopes_of m) m.channels state.now && is_search m search.now) }
{
    state::is_state(state, settled.shape()) && resuming::is_search(settled, written, waits, search)
}

// Questions 11 and 26, then the beginning at a state, over the tables of a model.
fn begin_tables(
    settled: Settled,
    written: Written,
    waits: &[u16],
    state: &[i64],
    search: &mut [i64],
    name: &[u8],
    depth: u64,
) -> Result<(), Refusal>
    requires { ((m : Resolved.Model) × Lends settled written m × (waits.now ≡ name_tokens m)) × (length state.now ≡ state_length) × (length search.old ≡ search_length) × (length waits.now ≤ token_limit) }
    ensures { (m : Resolved.Model) (bs : List ℕ) → Lends settled.entry written.entry m → waits.now ≡ name_tokens m → Begins (requested (begin' name.now depth) (lent_search bs state.now search.old) [] (some m)) result (lent_search bs state.now search.new) }
{
    if !are_held(settled, written, waits, state, &search[..]) {
        return Err(Refusal::NotHeld);
    }
    if !searching::is_depth(depth) {
        return Err(Refusal::Depth);
    }
    let code = words_of(written).code_of(waits, name);
    underway::put_begun(search, depth as usize, code, state);
    Ok(())
}

// Question 11, then so many states more, over the tables of a model.
fn carry_tables(
    settled: Settled,
    written: Written,
    waits: &[u16],
    state: &[i64],
    search: &mut [i64],
    number: u64,
) -> Progress
    requires { ((m : Resolved.Model) × Lends settled written m × (waits.now ≡ name_tokens m)) × (length state.now ≡ state_length) × (length search.old ≡ search_length) × (length waits.now ≤ token_limit) }
    ensures { (m : Resolved.Model) (bs : List ℕ) → Lends settled.entry written.entry m → waits.now ≡ name_tokens m → GivesProgress (requested (carry' number) (lent_search bs state.now search.old) [] (some m)) result (lent_search bs state.now search.new) }
{
    if !are_held(settled, written, waits, state, &search[..]) {
        return Progress::bare(11, 0, 0);
    }
    resuming::carry(settled, written, waits, search, number)
}

// The wait names of a model, found in its tables.
fn find_waits(settled: Settled, written: Written, names: &mut WaitNames)
    requires { ((m : Resolved.Model) × Lends settled written m × Within token_limit (all_waits m)) × (names.old.count ≡ 0) }
    ensures are { (m : Resolved.Model) → Lends settled.entry written.entry m → Within token_limit (all_waits m) → take names.new.count names.new.tokens ≡ name_tokens m }
    ensures few { names.new.count ≤ token_limit }
{
    names.find(settled.tables, settled.sums, words_of(written));
}

// Begins a search over a text that a model buffer holds; nothing is walked.
pub fn begin_text(
    text: &[u8],
    state: &[i64],
    search: &mut [i64],
    name: &[u8],
    depth: u64,
) -> Result<(), Refusal>
    requires { (length state.now ≡ state_length) × (length search.old ≡ search_length) }
    ensures { (bs : List ℕ) → Begins (requested (begin' name.now depth) (lent_search bs state.now search.old) [] (held text.now)) result (lent_search bs state.now search.new) }
{
    let mut space = Space::EMPTY;
    let mut names = WaitNames::EMPTY;
    let Ok(read) = space.read_model(text) else {
        return Err(Refusal::NotHeld);
    };
    let found = read.model;
    let settled = Settled {
        tables: space.tables(found),
        sums: found.sums,
        channels: found.channels,
    };
    let written = Written {
        text,
        places: &space.places,
        sizes: &space.sizes,
    };
    find_waits(settled, written, &mut names);
    let waits = &names.tokens[..names.count];
    begin_tables(settled, written, waits, state, search, name, depth)
}

// Carries the search over a text that a model buffer holds on by so many states.
pub fn carry_text(text: &[u8], state: &[i64], search: &mut [i64], number: u64) -> Progress
    requires { (length state.now ≡ state_length) × (length search.old ≡ search_length) }
    ensures { (bs : List ℕ) → GivesProgress (requested (carry' number) (lent_search bs state.now search.old) [] (held text.now)) result (lent_search bs state.now search.new) }
{
    let mut space = Space::EMPTY;
    let mut names = WaitNames::EMPTY;
    let Ok(read) = space.read_model(text) else {
        return Progress::bare(11, 0, 0);
    };
    let found = read.model;
    let settled = Settled {
        tables: space.tables(found),
        sums: found.sums,
        channels: found.channels,
    };
    let written = Written {
        text,
        places: &space.places,
        sizes: &space.sizes,
    };
    find_waits(settled, written, &mut names);
    let waits = &names.tokens[..names.count];
    carry_tables(settled, written, waits, state, search, number)
}
