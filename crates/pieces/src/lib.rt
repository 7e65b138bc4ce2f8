#![tactic(auto)]

// The search of note 10 over the tables of a model, piece by piece: from the run that was walked last on, so many states and no more. The states along that run are found again by taking its entries.
ghost use Rattle.std.specs.Prelude.{◌≡◌, Bool, true, false, List, [], ◌∷◌, ℕ, ◌+◌, ◌-◌, ◌≤◌, ◌<◌, length, get_or, take, drop};
ghost use Rattle.model.specs.Resolved as Resolved;
ghost use Rattle.rules.specs.Listing as rules;
ghost use Rattle.machine.specs.State.{State};
ghost use Rattle.runs.specs.Walk.{reaches, events_from, levels, later_same, later, walk as whole};
ghost use Rattle.spend.specs.Spend.{spend};
ghost use Rattle.walk.specs.Held.{Holds, first, Stands, Lists, Room};
ghost use Rattle.runs.specs.Marks.{going, settled, carry_on, is_mark};
ghost use Rattle.search.specs.Walks.{met_in};
ghost use Rattle.machine.specs.Machine.{depth_limit, count_limit};
ghost use Rattle.step.specs.Enter as Enter;
ghost use Rattle.pieces.specs.Position.{run_of, last_of, mark_of, remaining, Sound, Comes};
ghost use Rattle.pieces.specs.Walked.{events_at, events_behind, IsRun, is_run, ways_of, Spends, Reaches};

use search::Missed;
use walk::{Level, Search};

// What is walked, and whether to the wait of its name: where no wait has the name, no entry is the wait.
#[derive(Clone, Copy)]
pub struct Sought<'a> {
    pub search: Search<'a>,
    pub named: bool,
}

// What is left of a walk: one state may be walked and so many further ones, and whether a refusal was met.
#[derive(Clone, Copy)]
pub struct Budget {
    pub further: u64,
    pub met: bool,
}

// Why a walk goes no further than its last run: that is the wait's, and so many states are left; or none is left, and whether a refusal was met.
#[derive(Clone, Copy)]
pub enum Stop {
    Wait(u64),
    Spent(bool),
}

// The same with the length of that run.
#[derive(Clone, Copy)]
pub struct Reached {
    pub stop: Stop,
    pub length: usize,
}

// A run: the first numbers of a table.
#[derive(Clone, Copy)]
pub struct Run {
    pub length: usize,
    pub entries: [u16; Level::DEPTH],
}

// Where a search under way stands: how many states were walked, whether a refusal was met, and the run that was walked last, if any was.
#[derive(Clone, Copy)]
pub struct Position {
    pub count: u64,
    pub met: bool,
    pub last: Run,
}

// How a search has ended: after how many states, and with which run, or why with none.
#[derive(Clone, Copy)]
pub struct Ended {
    pub count: u64,
    pub found: Result<Run, Missed>,
}

// What carrying on comes to: the search is still under way, or it has ended. No Result: an end is no failure.
#[derive(Clone, Copy)]
pub enum Going {
    On(Position),
    Over(Ended),
}

// A run is walked, the first n numbers of a table.
fn walk_run(wait: bool, left: Budget) -> Result<Budget, Stop>
    ensures { (n : ℕ) (run : List ℕ) → Spends run n (spend left.further left.met (reaches wait (take n run) ∷ [])) result }
{
    if wait {
        return Err(Stop::Wait(left.further));
    }
    if left.further == 0 {
        return Err(Stop::Spent(left.met));
    }
    Ok(Budget {
        further: left.further - 1,
        ..left
    })
}

// ---- the runs of one length, from the first on

// The runs of `more` and one more entries that begin with entry e.
#[cycle(seek_try_rest_try_entry)]
fn try_entry(
    sought: Sought,
    states: &mut [[i64; Level::STATE]],
    listings: &mut [[u64; Level::LISTING]],
    run: &mut [u16],
    more: usize,
    e: usize,
    left: Budget,
) -> Result<Budget, Stop>
    requires { ((m : Resolved.Model) × (s : State) × (es : List rules.Entry) × Holds sought.search m × Stands (first states.old) m s × Lists (first listings.old) m s es × (e < length es)) × Room (more + 1) states.old listings.old run.old }
    ensures { ((m : Resolved.Model) (s : State) (es : List rules.Entry) → Holds sought.entry.search m → Stands (first states.old) m s → Lists (first listings.old) m s es → e < length es → Spends run.new (more + 1) (spend left.further left.met (events_at (ways_of sought.entry m) s more e)) result) × (first states.new ≡ first states.old) × (first listings.new ≡ first listings.old) }
{
    let taken = walk::take_at(sought.search, states, &listings[0], e);
    let Ok(moved) = taken else {
        return Ok(Budget { met: true, ..left });
    };
    let Some(wait) = moved else {
        return Ok(left);
    };
    run[0] = e as u16;
    if more == 0 {
        return walk_run(sought.named && wait, left);
    }
    seek(
        sought,
        &mut states[1..],
        &mut listings[1..],
        &mut run[1..],
        more - 1,
        left,
    )
}

// The same of the entries from number `from` on, of n.
#[cycle(seek_try_rest_try_entry)]
fn try_rest(
    sought: Sought,
    states: &mut [[i64; Level::STATE]],
    listings: &mut [[u64; Level::LISTING]],
    run: &mut [u16],
    more: usize,
    from: usize,
    n: usize,
    left: Budget,
) -> Result<Budget, Stop>
    requires { ((m : Resolved.Model) × (s : State) × (es : List rules.Entry) × Holds sought.search m × Stands (first states.old) m s × Lists (first listings.old) m s es × (n ≡ length es)) × Room (more + 1) states.old listings.old run.old }
    ensures { ((m : Resolved.Model) (s : State) (es : List rules.Entry) → Holds sought.entry.search m → Stands (first states.old) m s → Lists (first listings.old) m s es → n ≡ length es → Spends run.new (more + 1) (spend left.further left.met (events_from (ways_of sought.entry m) from more s)) result) × (first states.new ≡ first states.old) }
{
    let mut budget = left;
    for e in from..n {
        budget = try_entry(sought, states, listings, run, more, e, budget)?;
    }
    Ok(budget)
}

// The same of all entries of a state that is still to be listed.
#[cycle(seek_try_rest_try_entry)]
fn seek(
    sought: Sought,
    states: &mut [[i64; Level::STATE]],
    listings: &mut [[u64; Level::LISTING]],
    run: &mut [u16],
    more: usize,
    left: Budget,
) -> Result<Budget, Stop>
    requires { ((m : Resolved.Model) × (s : State) × Holds sought.search m × Stands (first states.old) m s) × Room (more + 1) states.old listings.old run.old }
    ensures { ((m : Resolved.Model) (s : State) → Holds sought.entry.search m → Stands (first states.old) m s → Spends run.new (more + 1) (spend left.further left.met (events_from (ways_of sought.entry m) 0 more s)) result) × (first states.new ≡ first states.old) }
{
    match listing::list_here(sought.search.tables, &states[0], &mut listings[0]) {
        Err(_) => Ok(Budget { met: true, ..left }),
        Ok(l) => try_rest(sought, states, listings, run, more, 0, l.count, left),
    }
}

// ---- the runs of one length, after one of them

// The runs after the one that the table has, which begin with its first entry e, as it does.
#[cycle(resume_resume_behind)]
fn resume_behind(
    sought: Sought,
    states: &mut [[i64; Level::STATE]],
    listings: &mut [[u64; Level::LISTING]],
    run: &mut [u16],
    more: usize,
    e: usize,
    left: Budget,
) -> Result<Budget, Stop>
    requires { ((m : Resolved.Model) × (s : State) × (es : List rules.Entry) × Holds sought.search m × Stands (first states.old) m s × Lists (first listings.old) m s es × IsRun (ways_of sought m) s (e ∷ take more (drop 1 run.old))) × Room (more + 1) states.old listings.old run.old × (e ≡ get_or run.old 0 0) }
    ensures { ((m : Resolved.Model) (s : State) (es : List rules.Entry) → Holds sought.entry.search m → Stands (first states.old) m s → Lists (first listings.old) m s es → IsRun (ways_of sought.entry m) s (e ∷ take more (drop 1 run.old)) → Spends run.new (more + 1) (spend left.further left.met (events_behind (ways_of sought.entry m) s e (take more (drop 1 run.old)))) result) × (first states.new ≡ first states.old) × (first listings.new ≡ first listings.old) }
{
    if more == 0 {
        return Ok(left);
    }
    // It is taken as it was before.
    let _ = walk::take_at(sought.search, states, &listings[0], e);
    resume(
        sought,
        &mut states[1..],
        &mut listings[1..],
        &mut run[1..],
        more - 1,
        left,
    )
}

// The runs after the one that the table has, of `more` and one more entries.
#[cycle(resume_resume_behind)]
fn resume(
    sought: Sought,
    states: &mut [[i64; Level::STATE]],
    listings: &mut [[u64; Level::LISTING]],
    run: &mut [u16],
    more: usize,
    left: Budget,
) -> Result<Budget, Stop>
    requires { ((m : Resolved.Model) × (s : State) × Holds sought.search m × Stands (first states.old) m s × IsRun (ways_of sought m) s (take (more + 1) run.old)) × Room (more + 1) states.old listings.old run.old }
    ensures { ((m : Resolved.Model) (s : State) → Holds sought.entry.search m → Stands (first states.old) m s → IsRun (ways_of sought.entry m) s (take (more + 1) run.old) → Spends run.new (more + 1) (spend left.further left.met (later_same (ways_of sought.entry m) s (take (more + 1) run.old))) result) × (first states.new ≡ first states.old) }
{
    let listed = listing::list_here(sought.search.tables, &states[0], &mut listings[0]);
    // It was listed before.
    let Ok(l) = listed else {
        return Ok(left);
    };
    let e = usize::from(run[0]);
    let budget = resume_behind(sought, states, listings, run, more, e, left)?;
    try_rest(sought, states, listings, run, more, e + 1, l.count, budget)
}

// ---- one length after the other

// The runs of more than `from` entries, up to the depth, by length.
fn walk_longer(
    sought: Sought,
    states: &mut [[i64; Level::STATE]],
    listings: &mut [[u64; Level::LISTING]],
    run: &mut [u16],
    from: usize,
    depth: usize,
    left: Budget,
) -> Result<Budget, Reached>
    requires { ((m : Resolved.Model) × (s : State) × Holds sought.search m × Stands (first states.old) m s) × Room depth states.old listings.old run.old }
    ensures { ((m : Resolved.Model) (s : State) → Holds sought.entry.search m → Stands (first states.old) m s → Reaches run.new (spend left.further left.met (levels (ways_of sought.entry m) s (from + 1) (depth - from))) result) × (first states.new ≡ first states.old) }
{
    let mut budget = left;
    for more in from..depth {
        let walked = seek(sought, states, listings, run, more, budget);
        match walked {
            Ok(b) => budget = b,
            Err(stop) => {
                return Err(Reached {
                    stop,
                    length: more + 1,
                })
            }
        }
    }
    Ok(budget)
}

// All runs, from the empty one on.
fn walk_all(
    sought: Sought,
    states: &mut [[i64; Level::STATE]],
    listings: &mut [[u64; Level::LISTING]],
    run: &mut [u16],
    depth: usize,
    left: Budget,
) -> Result<Budget, Reached>
    requires { ((m : Resolved.Model) × (s : State) × Holds sought.search m × Stands (first states.old) m s) × Room depth states.old listings.old run.old }
    ensures { ((m : Resolved.Model) (s : State) → Holds sought.entry.search m → Stands (first states.old) m s → Reaches run.new (spend left.further left.met (whole (ways_of sought.entry m) s depth)) result) × (first states.new ≡ first states.old) }
{
    match walk_run(false, left) {
        Err(stop) => Err(Reached { stop, length: 0 }),
        Ok(b) => walk_longer(sought, states, listings, run, 0, depth, b),
    }
}

// Those after the run that the table has, of n entries.
fn walk_after(
    sought: Sought,
    states: &mut [[i64; Level::STATE]],
    listings: &mut [[u64; Level::LISTING]],
    run: &mut [u16],
    n: usize,
    depth: usize,
    left: Budget,
) -> Result<Budget, Reached>
    requires { ((m : Resolved.Model) × (s : State) × Holds sought.search m × Stands (first states.old) m s × IsRun (ways_of sought m) s (take n run.old)) × Room depth states.old listings.old run.old × (n ≤ depth) }
    ensures { ((m : Resolved.Model) (s : State) → Holds sought.entry.search m → Stands (first states.old) m s → IsRun (ways_of sought.entry m) s (take n run.old) → Reaches run.new (spend left.further left.met (later (ways_of sought.entry m) s depth (take n run.old))) result) × (first states.new ≡ first states.old) }
{
    if n == 0 {
        return walk_longer(sought, states, listings, run, 0, depth, left);
    }
    match resume(sought, states, listings, run, n - 1, left) {
        Err(stop) => Err(Reached { stop, length: n }),
        Ok(b) => walk_longer(sought, states, listings, run, n, depth, b),
    }
}

// ---- whether entries are a run

// Entry e of the first state, and then `more` entries of the table behind its first.
#[cycle(replay_follow)]
fn follow(
    sought: Sought,
    states: &mut [[i64; Level::STATE]],
    listings: &mut [[u64; Level::LISTING]],
    run: &[u16],
    more: usize,
    e: usize,
) -> bool
    requires { ((m : Resolved.Model) × (s : State) × (es : List rules.Entry) × Holds sought.search m × Stands (first states.old) m s × Lists (first listings.old) m s es × (e < length es)) × Room (more + 1) states.old listings.old run.now }
    ensures { (m : Resolved.Model) (s : State) (es : List rules.Entry) (k : Bool) → Holds sought.entry.search m → Stands (first states.old) m s → Lists (first listings.old) m s es → e < length es → result ≡ is_run (ways_of sought.entry m) k s (e ∷ take more (drop 1 run.now)) }
{
    let taken = walk::take_at(sought.search, states, &listings[0], e);
    let Ok(moved) = taken else {
        return false;
    };
    let Some(_) = moved else {
        return false;
    };
    replay(
        sought,
        &mut states[1..],
        &mut listings[1..],
        &run[1..],
        more,
    )
}

// The first n numbers of the table, from the first state on.
#[cycle(replay_follow)]
fn replay(
    sought: Sought,
    states: &mut [[i64; Level::STATE]],
    listings: &mut [[u64; Level::LISTING]],
    run: &[u16],
    n: usize,
) -> bool
    requires { ((m : Resolved.Model) × (s : State) × Holds sought.search m × Stands (first states.old) m s) × Room n states.old listings.old run.now }
    ensures { (m : Resolved.Model) (s : State) (k : Bool) → Holds sought.entry.search m → Stands (first states.old) m s → result ≡ is_run (ways_of sought.entry m) k s (take n run.now) }
{
    if n == 0 {
        return true;
    }
    let listed = listing::list_here(sought.search.tables, &states[0], &mut listings[0]);
    let Ok(l) = listed else {
        return false;
    };
    let e = usize::from(run[0]);
    if e >= l.count {
        return false;
    }
    follow(sought, states, listings, run, n - 1, e)
}

// The same from a state that is lent, in lent tables.
fn replay_from(
    sought: Sought,
    state: &[i64],
    states: &mut [[i64; Level::STATE]],
    listings: &mut [[u64; Level::LISTING]],
    run: &[u16],
    n: usize,
) -> bool
    requires { ((m : Resolved.Model) × (s : State) × Holds sought.search m × Enter.Stands state.now m s) × Room n states.old listings.old run.now × (1 ≤ length states.old) }
    ensures { (m : Resolved.Model) (s : State) → Holds sought.entry.search m → Enter.Stands state.now m s → result ≡ is_run (ways_of sought.entry m) false s (take n run.now) }
{
    states[0].copy_from_slice(state);
    replay(sought, states, listings, run, n)
}

// Note 10, 11: whether entries are a run from the state.
pub fn is_run(sought: Sought, state: &[i64], run: Run) -> bool
    requires { ((m : Resolved.Model) × (s : State) × Holds sought.search m × Enter.Stands state.now m s) × (run.length ≤ length run.entries) }
    ensures { (m : Resolved.Model) (s : State) → Holds sought.entry.search m → Enter.Stands state.now m s → result ≡ is_run (ways_of sought.entry m) false s (run_of run) }
{
    let mut states = [[0i64; Level::STATE]; Level::STATES];
    let mut listings = [[0u64; Level::LISTING]; Level::DEPTH];
    replay_from(
        sought,
        state,
        &mut states,
        &mut listings,
        &run.entries,
        run.length,
    )
}

// ---- a search under way

// What a walk to its end misses.
fn missed(met: bool) -> Missed
    ensures { met_in result ≡ met }
{
    if met {
        return Missed::Unsure;
    }
    Missed::Nothing
}

// The runs that are left, from the first state: one may be walked and so many further ones.
fn walk_on(
    sought: Sought,
    states: &mut [[i64; Level::STATE]],
    listings: &mut [[u64; Level::LISTING]],
    run: &mut [u16],
    depth: usize,
    position: Position,
    further: u64,
) -> Result<Budget, Reached>
    requires { ((m : Resolved.Model) × (s : State) × Holds sought.search m × Stands (first states.old) m s × (is_mark (ways_of sought m) s depth position.count (last_of position) ≡ true)) × Room depth states.old listings.old run.old × (run.old ≡ position.last.entries) × (position.last.length ≤ length run.old) }
    ensures { ((m : Resolved.Model) (s : State) → Holds sought.entry.search m → Stands (first states.old) m s → is_mark (ways_of sought.entry m) s depth position.count (last_of position) ≡ true → Reaches run.new (spend further position.met (remaining (ways_of sought.entry m) s depth (last_of position))) result) × (first states.new ≡ first states.old) }
{
    let left = Budget {
        further,
        met: position.met,
    };
    if position.count == 0 {
        return walk_all(sought, states, listings, run, depth, left);
    }
    walk_after(
        sought,
        states,
        listings,
        run,
        position.last.length,
        depth,
        left,
    )
}

// Whether another run comes after the one that was walked last: else the search has ended with it.
fn settle(
    sought: Sought,
    states: &mut [[i64; Level::STATE]],
    listings: &mut [[u64; Level::LISTING]],
    depth: usize,
    position: Position,
) -> Going
    requires { ((m : Resolved.Model) × (s : State) × Holds sought.search m × Stands (first states.old) m s × (is_mark (ways_of sought m) s depth position.count (last_of position) ≡ true)) × Room depth states.old listings.old position.last.entries × Sound position }
    ensures { (m : Resolved.Model) (s : State) → Holds sought.entry.search m → Stands (first states.old) m s → is_mark (ways_of sought.entry m) s depth position.count (last_of position) ≡ true → Comes (settled (ways_of sought.entry m) s depth (going position.count (mark_of position))) result }
{
    let mut run = position.last.entries;
    match walk_on(sought, states, listings, &mut run, depth, position, 0) {
        Err(_) => Going::On(position),
        Ok(b) => Going::Over(Ended {
            count: position.count,
            found: Err(missed(b.met)),
        }),
    }
}

// Carries a search on by n states, one at least, from the first state.
fn carry_in(
    sought: Sought,
    states: &mut [[i64; Level::STATE]],
    listings: &mut [[u64; Level::LISTING]],
    depth: usize,
    position: Position,
    n: u64,
) -> Going
    requires { ((m : Resolved.Model) × (s : State) × Holds sought.search m × Stands (first states.old) m s × (is_mark (ways_of sought m) s depth position.count (last_of position) ≡ true)) × Room depth states.old listings.old position.last.entries × Sound position × (1 ≤ n) × (position.count + n ≤ count_limit) }
    ensures { (m : Resolved.Model) (s : State) → Holds sought.entry.search m → Stands (first states.old) m s → is_mark (ways_of sought.entry m) s depth position.count (last_of position) ≡ true → Comes (carry_on (ways_of sought.entry m) s depth n (going position.count (mark_of position))) result }
{
    let mut run = position.last.entries;
    let walked = walk_on(sought, states, listings, &mut run, depth, position, n - 1);
    let count = position.count + n;
    match walked {
        Ok(b) => Going::Over(Ended {
            count: count - 1 - b.further,
            found: Err(missed(b.met)),
        }),
        Err(reached) => {
            let last = Run {
                length: reached.length,
                entries: run,
            };
            match reached.stop {
                Stop::Wait(further) => Going::Over(Ended {
                    count: count - further,
                    found: Ok(last),
                }),
                Stop::Spent(met) => {
                    let next = Position { count, met, last };
                    settle(sought, states, listings, depth, next)
                }
            }
        }
    }
}

// The same from a state that is lent, in lent tables.
fn carry_from(
    sought: Sought,
    state: &[i64],
    states: &mut [[i64; Level::STATE]],
    listings: &mut [[u64; Level::LISTING]],
    depth: usize,
    position: Position,
    n: u64,
) -> Going
    requires { ((m : Resolved.Model) × (s : State) × Holds sought.search m × Enter.Stands state.now m s × (is_mark (ways_of sought m) s depth position.count (last_of position) ≡ true)) × Room depth states.old listings.old position.last.entries × Sound position × (1 ≤ n) × (position.count + n ≤ count_limit) }
    ensures { (m : Resolved.Model) (s : State) → Holds sought.entry.search m → Enter.Stands state.now m s → is_mark (ways_of sought.entry m) s depth position.count (last_of position) ≡ true → Comes (carry_on (ways_of sought.entry m) s depth n (going position.count (mark_of position))) result }
{
    states[0].copy_from_slice(state);
    carry_in(sought, states, listings, depth, position, n)
}

// Note 10: a search that began at the state is carried on by n states and no more.
pub fn carry_on(sought: Sought, state: &[i64], depth: usize, position: Position, n: u64) -> Going
    requires { ((m : Resolved.Model) × (s : State) × Holds sought.search m × Enter.Stands state.now m s × (is_mark (ways_of sought m) s depth position.count (last_of position) ≡ true)) × (depth ≤ depth_limit) × Sound position × (position.count + n ≤ count_limit) }
    ensures { (m : Resolved.Model) (s : State) → Holds sought.entry.search m → Enter.Stands state.now m s → is_mark (ways_of sought.entry m) s depth position.count (last_of position) ≡ true → Comes (carry_on (ways_of sought.entry m) s depth n (going position.count (mark_of position))) result }
{
    if n == 0 {
        return Going::On(position);
    }
    let mut states = [[0i64; Level::STATE]; Level::STATES];
    let mut listings = [[0u64; Level::LISTING]; Level::DEPTH];
    carry_from(
        sought,
        state,
        &mut states,
        &mut listings,
        depth,
        position,
        n,
    )
}
