#![tactic(auto)]

// The search of notes 8 and 9 over the tables of a model: the runs from a state by length, then by entry numbers, up to the first whose last entry is the wait.
ghost use Rattle.std.specs.Prelude.{◌≡◌, Bool, List, ◌++◌, ℕ, ◌+◌, ◌*◌, ◌≤◌, ◌<◌, length, get_or, take, drop};
ghost use Rattle.token.specs.Token.{same_bytes};
ghost use Rattle.model.specs.Resolved as Resolved;
ghost use Rattle.tables.specs.Spelled.{Spells};
ghost use Rattle.rules.specs.Rules.{key};
ghost use Rattle.rules.specs.Listing as rules;
ghost use Rattle.runs.specs.Walk as walk;
ghost use Rattle.machine.specs.State.{State};
ghost use Rattle.machine.specs.Machine.{depth_limit, is_sought, moves_to};
ghost use Rattle.step.specs.Enter as Enter;
ghost use Rattle.search.specs.Walks.{Answered};
ghost use Rattle.walk.specs.Hunted.{hunt_at, hunt_from, hunt_longer, Hunts};
ghost use Rattle.walk.specs.Held.{Holds, Sees, first, Stands, Lists, Room, Takes};

use listing::Entry;
use search::Missed;
use tables::Tables;

// A text's bytes, and where its tokens stand. Places and sizes are two columns, as the reading's table of tokens is: rows of both would be a copy of it.
#[derive(Clone, Copy)]
pub struct Written<'a> {
    pub text: &'a [u8],
    pub places: &'a [u16],
    pub sizes: &'a [u16],
}

// What is searched: the tables of a model with its text, and for which name's wait.
#[derive(Clone, Copy)]
pub struct Search<'a> {
    pub tables: Tables<'a>,
    pub written: Written<'a>,
    pub name: &'a [u8],
}

#[derive(Clone, Copy)]
pub struct Level;

impl Level {
    // Numbers of a state, and of a listing.
    pub const STATE: usize = state::Layout::NUMBERS;

    pub const LISTING: usize = machine::Limits::LISTING;

    // The longest run, which has as many listings and one state more.
    pub const DEPTH: usize = machine::Limits::DEPTH;

    pub const STATES: usize = Level::DEPTH + 1;

    // The numbers of as many processes as a state holds.
    pub const FRESH: usize = step::Room::FRESH;
}

// ---- the wait of a name

// Number n of a table, 0 beyond its end: a name for the chain that both columns are read by, as eval's `cell_at` is of cells. It gives a usize of a u16, so that it isn't one of eval's two.
fn number_at(table: &[u16], n: usize) -> usize
    ensures { result ≡ get_or table.now n 0 }
{
    table.get(n).map_or(0, |x| usize::from(*x))
}

// Whether a token of the text is this name.
fn is_named(written: Written, token: usize, name: &[u8]) -> bool
    requires { (w : ℕ → List ℕ) × Spells w written.text.now written.places.now written.sizes.now }
    ensures { (w : ℕ → List ℕ) → Spells w written.entry.text.now written.entry.places.now written.entry.sizes.now → result ≡ same_bytes (w token) name.now }
{
    let from = number_at(written.places, token);
    let size = number_at(written.sizes, token);
    let to = from + size;
    &written.text[from..to] == name
}

// Whether a listed entry is the wait of this name.
fn is_sought(search: Search, state: &[i64], entry: Entry) -> bool
    requires { (m : Resolved.Model) × (s : State) × (k : ℕ) × (n : ℕ) × (q : ℕ) × (w : ℕ) × Sees search state.now entry.kind entry.place entry.branch m s k n q w }
    ensures { (m : Resolved.Model) (s : State) (k n q w : ℕ) → Sees search.entry state.now entry.kind entry.place entry.branch m s k n q w → result ≡ is_sought m search.entry.name.now s (key entry.kind entry.place entry.branch k n q) }
{
    if entry.kind != listing::EntryKind::WAIT {
        return false;
    }
    let token = step::wait_token(search.tables, state, entry.place, entry.branch);
    is_named(search.written, token, search.name)
}

// ---- one entry

// Takes entry e of the first state: the second becomes the one after it. None if it has weight zero, else whether it is the wait.
pub fn take_at(
    search: Search,
    states: &mut [[i64; Level::STATE]],
    listing: &[u64; Level::LISTING],
    e: usize,
) -> Result<Option<bool>, step::Refusal>
    requires { ((m : Resolved.Model) × (s : State) × (es : List rules.Entry) × Holds search m × Stands (first states.old) m s × Lists listing.now m s es × (e < length es)) × (2 ≤ length states.old) }
    ensures { (m : Resolved.Model) (s : State) (es : List rules.Entry) → Holds search.entry m → Stands (first states.old) m s → Lists listing.now m s es → e < length es → Takes m search.entry.name.now s e states.old states.new result }
{
    let entry = listing::entry_at(listing, e);
    if entry.weight == 0 {
        return Ok(None);
    }
    let wait = is_sought(search, &states[0], entry);
    states[1] = states[0];
    let mut fresh = [0i64; Level::FRESH];
    step::take_row(search.tables, &mut states[1], &mut fresh, listing, e)?;
    Ok(Some(wait))
}

// ---- from run to run
// Along a run of eight entries there are nine states, eight listings and the run that the caller is given, each a table of its own: rows of all three would have a ninth listing, whose 57 KB would be cleared and never used.
// They are handed on one by one: as a struct of three references each contract would promise besides that they stay and how long they are, and a body would take each into a variable
// before it takes a row: two parameters less for a clause and as many lines more.

// The first run of `more` and one more entries to the wait that begins with entry e.
#[cycle(seek_try_all_try_entry)]
fn try_entry(
    search: Search,
    states: &mut [[i64; Level::STATE]],
    listings: &mut [[u64; Level::LISTING]],
    run: &mut [u16],
    more: usize,
    e: usize,
) -> Result<(), Missed>
    requires { ((m : Resolved.Model) × (s : State) × (es : List rules.Entry) × Holds search m × Stands (first states.old) m s × Lists (first listings.old) m s es × (e < length es)) × Room (more + 1) states.old listings.old run.old }
    ensures { ((m : Resolved.Model) (s : State) (es : List rules.Entry) → Holds search.entry m → Stands (first states.old) m s → Lists (first listings.old) m s es → e < length es → Hunts run.new (more + 1) (hunt_at (moves_to m search.entry.name.now) s more e) result) × (first states.new ≡ first states.old) × (first listings.new ≡ first listings.old) }
{
    let taken = take_at(search, states, &listings[0], e);
    // A let-else: whichever refusal a step meets, the search is unsure.
    let Ok(moved) = taken else {
        return Err(Missed::Unsure);
    };
    let wait = moved.ok_or(Missed::Nothing)?;
    run[0] = e as u16;
    if more == 0 {
        if wait {
            return Ok(());
        }
        return Err(Missed::Nothing);
    }
    seek(
        search,
        &mut states[1..],
        &mut listings[1..],
        &mut run[1..],
        more - 1,
    )
}

// The same of all n entries.
#[cycle(seek_try_all_try_entry)]
fn try_all(
    search: Search,
    states: &mut [[i64; Level::STATE]],
    listings: &mut [[u64; Level::LISTING]],
    run: &mut [u16],
    more: usize,
    n: usize,
) -> Result<(), Missed>
    requires { ((m : Resolved.Model) × (s : State) × (es : List rules.Entry) × Holds search m × Stands (first states.old) m s × Lists (first listings.old) m s es × (n ≡ length es)) × Room (more + 1) states.old listings.old run.old }
    ensures { ((m : Resolved.Model) (s : State) (es : List rules.Entry) → Holds search.entry m → Stands (first states.old) m s → Lists (first listings.old) m s es → n ≡ length es → Hunts run.new (more + 1) (hunt_from (moves_to m search.entry.name.now) s more 0) result) × (first states.new ≡ first states.old) }
{
    let mut missed = Missed::Nothing;
    for e in 0..n {
        let tried = try_entry(search, states, listings, run, more, e);
        match tried {
            Ok(()) => return Ok(()),
            Err(m) => missed = missed.and(m),
        }
    }
    Err(missed)
}

// The same of a state that is still to be listed.
#[cycle(seek_try_all_try_entry)]
fn seek(
    search: Search,
    states: &mut [[i64; Level::STATE]],
    listings: &mut [[u64; Level::LISTING]],
    run: &mut [u16],
    more: usize,
) -> Result<(), Missed>
    requires { ((m : Resolved.Model) × (s : State) × Holds search m × Stands (first states.old) m s) × Room (more + 1) states.old listings.old run.old }
    ensures { ((m : Resolved.Model) (s : State) → Holds search.entry m → Stands (first states.old) m s → Hunts run.new (more + 1) (hunt_from (moves_to m search.entry.name.now) s more 0) result) × (first states.new ≡ first states.old) }
{
    match listing::list_here(search.tables, &states[0], &mut listings[0]) {
        Err(_) => Err(Missed::Unsure),
        Ok(l) => try_all(search, states, listings, run, more, l.count),
    }
}

// ---- the search

// The length of the first run to the wait from the first state, by length.
// The loop of try_all, over lengths. Tried as one function for both, which takes as a closure what is tried next: after it nothing is known of what the closure writes, as of states,
// listings and run here.
fn search_from(
    search: Search,
    states: &mut [[i64; Level::STATE]],
    listings: &mut [[u64; Level::LISTING]],
    run: &mut [u16],
    depth: usize,
) -> Result<usize, Missed>
    requires { ((m : Resolved.Model) × (s : State) × Holds search m × Stands (first states.old) m s) × Room depth states.old listings.old run.old }
    ensures { (m : Resolved.Model) (s : State) → Holds search.entry m → Stands (first states.old) m s → Answered (walk.search (moves_to m search.entry.name.now) s depth) result run.new }
{
    let mut missed = Missed::Nothing;
    for more in 0..depth {
        let hit = seek(search, states, listings, run, more);
        match hit {
            Ok(()) => return Ok(more + 1),
            Err(m) => missed = missed.and(m),
        }
    }
    Err(missed)
}

// The same from a state that is lent, in lent tables.
fn search_in(
    search: Search,
    state: &[i64],
    states: &mut [[i64; Level::STATE]],
    listings: &mut [[u64; Level::LISTING]],
    run: &mut [u16],
    depth: usize,
) -> Result<usize, Missed>
    requires { ((m : Resolved.Model) × (s : State) × Holds search m × Enter.Stands state.now m s) × Room depth states.old listings.old run.old }
    ensures { (m : Resolved.Model) (s : State) → Holds search.entry m → Enter.Stands state.now m s → Answered (walk.search (moves_to m search.entry.name.now) s depth) result run.new }
{
    states[0].copy_from_slice(state);
    search_from(search, states, listings, run, depth)
}

// Notes 8 and 9: the length of the first run of at most `depth` entries from a state to the wait of this name, none, or 27.
pub fn search_model(
    search: Search,
    state: &[i64],
    depth: usize,
    run: &mut [u16; Level::DEPTH],
) -> Result<usize, Missed>
    requires { ((m : Resolved.Model) × (s : State) × Holds search m × Enter.Stands state.now m s) × (depth ≤ depth_limit) }
    ensures { (m : Resolved.Model) (s : State) → Holds search.entry m → Enter.Stands state.now m s → Answered (walk.search (moves_to m search.entry.name.now) s depth) result run.new }
{
    let mut states = [[0i64; Level::STATE]; Level::STATES];
    let mut listings = [[0u64; Level::LISTING]; Level::DEPTH];
    search_in(search, state, &mut states, &mut listings, run, depth)
}
