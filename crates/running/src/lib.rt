#![tactic(auto)]

// Timed steps over the tables of a model: one by a draw, and many in one call, whose choosing draws come from words.
ghost use Rattle.std.specs.Prelude.{◌≡◌, List, ℕ, ◌+◌, ◌-◌, ◌*◌, ◌/◌, ◌≤◌, ◌<◌, min, length, drop};
ghost use Rattle.model.specs.Resolved as Resolved;
ghost use Rattle.rules.specs.Listing as rules;
ghost use Rattle.clock.specs.Clock.{InRange};
ghost use Rattle.machine.specs.State.{State};
ghost use Rattle.machine.specs.Timed.{timed};
ghost use Rattle.machine.specs.Machine.{entry_width, entry_arguments, entry_state, taken, drawn, steps_in};
ghost use Rattle.rules.specs.Draw.{weights, total as total_of};
ghost use Rattle.listing.specs.Buffer.{entry_in};
ghost use Rattle.step.specs.Enter.{verdict, Lent};
ghost use Rattle.step.specs.Entries.{Counted, Row};
ghost use Rattle.machine.specs.Machine.{Run, begun, follows, run_step, running, runs_with, event_width};
ghost use Rattle.running.specs.Taking.{refusal_number, of_step, StepsTo};
ghost use Rattle.running.specs.Progress.{written, end_number, begun_with, ended, longer_by, Holds, Stands, Stays, StandsIn, ListsIn, GoesIn};

use clock::{Clock, Late};
use listing::{Limits, Listed};
use offers::{Space, Table};
use tables::Tables;

#[derive(Clone, Copy)]
pub struct Room;

impl Room {
    // The numbers of a state.
    pub const STATE: usize = state::Layout::NUMBERS;

    // The numbers of as many processes as a state holds.
    pub const FRESH: usize = step::Room::FRESH;

    // The numbers of a listing.
    pub const LISTING: usize = machine::Limits::LISTING;

    // The numbers of an event: its ticks and its entry.
    pub const EVENT: usize = 1 + Limits::ENTRY;
}

// Why a timed step is refused once its state is listed: the total is zero; the draw chooses no entry; the entry can't be taken; the clock can't be brought forward.
#[derive(Clone, Copy)]
pub enum Refusal {
    NoWeight,
    Draw,
    Step(step::Refusal),
    Wait(Late),
}

impl Refusal {
    // The number that it answers with: 15, 16, 17 to 19, 23 to 25.
    pub fn number(self) -> u64
        ensures { result ≡ refusal_number self }
    {
        match self {
            Refusal::NoWeight => 15,
            Refusal::Draw => 16,
            Refusal::Step(refusal) => refusal.number(),
            Refusal::Wait(late) => late.number(),
        }
    }
}

impl From<step::Refusal> for Refusal {
    ghost from_gives = { λ r o. o ≡ of_step r };

    fn from(r: step::Refusal) -> Refusal {
        Refusal::Step(r)
    }
}

// How a run ends before its limit: the words give no draw any more; its state has no listing; its step is refused.
#[derive(Clone, Copy)]
pub enum End {
    Spent,
    Unlisted(listing::Refusal),
    Refused(Refusal),
}

// How a run stands: steps taken, words and waiting draws used; count and total of the last listing; the clock; and how it ended, if it did.
// The end is what a caller is told, so it stays beside the rest: None is a run that its limit or its room for events ended.
// Count and total apart: before the first listing, and where a state has none, they are 0, and a Listed of zeros would say that something was listed.
#[derive(Clone, Copy)]
pub struct Progress {
    pub steps: usize,
    pub words: usize,
    pub waiting: usize,
    pub count: usize,
    pub total: u64,
    pub clock: Clock,
    pub end: Option<End>,
}

impl Progress {
    // Before the first step. Zeros one by one: a clock has no default for `..` to take.
    fn begun(clock: Clock) -> Self
        ensures { result ≡ begun_with clock }
    {
        Progress {
            steps: 0,
            words: 0,
            waiting: 0,
            count: 0,
            total: 0,
            clock,
            end: None,
        }
    }

    // 0, or the number of the refusal that ended it.
    pub fn number(self) -> u64
        ensures { result ≡ end_number self.end }
    {
        match self.end {
            Some(End::Unlisted(refusal)) => refusal.number(),
            Some(End::Refused(refusal)) => refusal.number(),
            _ => 0,
        }
    }

    // No more steps.
    fn ended(self, end: End, count: usize, total: u64) -> Self
        ensures { result ≡ ended self end count total }
    {
        Progress {
            count,
            total,
            end: Some(end),
            ..self
        }
    }

    // One more step, which used so many words.
    fn longer(self, used: usize, count: usize, total: u64, clock: Clock) -> Self
        requires { (self.steps + 1 < 18446744073709551616) × (self.words + used < 18446744073709551616) × (self.clock.draws ≤ clock.draws) × (self.waiting + (clock.draws - self.clock.draws) < 18446744073709551616) }
        ensures { result ≡ longer_by self used count total clock }
    {
        let waited = clock.draws - self.clock.draws;
        Progress {
            steps: self.steps + 1,
            words: self.words + used,
            waiting: self.waiting + waited as usize,
            count,
            total,
            clock,
            end: None,
        }
    }
}

// What a run is lent to read: the tables of its model, the words of its choosing draws, and its waiting draws.
#[derive(Clone, Copy)]
pub struct Given<'a> {
    pub tables: Tables<'a>,
    pub words: &'a [u64],
    pub waiting: &'a [u16],
}

// What a timed step is lent to read: the tables of its model, its state's listing, its waiting draws, and its clock.
#[derive(Clone, Copy)]
pub struct Stepping<'a> {
    pub tables: Tables<'a>,
    pub listing: &'a [u64],
    pub waiting: &'a [u16],
    pub clock: Clock,
}

// What taking entry c of the listing would come to; the state stays as it was. State and `fresh` are lent one by one here and in take_waiting, as take_timed is lent them:
// as a struct of both, each of the two would promise besides that they stay the same, a parameter less for a clause more.
fn take_kept(
    read: Stepping,
    state: &mut [i64],
    fresh: &mut [i64; Room::FRESH],
    c: usize,
) -> Result<(), step::Refusal>
    requires { (m : Resolved.Model) × (s : State) × (es : List rules.Entry) × (e : rules.Entry) × Row read.tables.nodes.now read.tables.roots.now read.tables.scopes.now read.tables.root read.tables.variables state.old read.listing.now c m s es e }
    ensures { ((m : Resolved.Model) (s : State) (es : List rules.Entry) (e : rules.Entry) → Row read.entry.tables.nodes.now read.entry.tables.roots.now read.entry.tables.scopes.now read.entry.tables.root read.entry.tables.variables state.old read.entry.listing.now c m s es e → result ≡ verdict (entry_arguments m s (rules.key_of e)) (entry_state m s (rules.key_of e))) × (state.new ≡ state.old) }
{
    let mut before = [0i64; Room::STATE];
    before.copy_from_slice(&state[..]);
    let taken = step::take_row(read.tables, state, fresh, read.listing, c);
    state.copy_from_slice(&before);
    taken
}

// Takes entry c and waits: both the state and the clock move, or neither does. The state is kept only where the wait is refused.
fn take_waiting(
    read: Stepping,
    state: &mut [i64],
    fresh: &mut [i64; Room::FRESH],
    c: usize,
    total: u64,
) -> Result<(usize, Clock), Refusal>
    requires { ((m : Resolved.Model) × (s : State) × (es : List rules.Entry) × (e : rules.Entry) × Row read.tables.nodes.now read.tables.roots.now read.tables.scopes.now read.tables.root read.tables.variables state.old read.listing.now c m s es e) × (InRange read.clock) × (0 < total) }
    ensures { (m : Resolved.Model) (s : State) (es : List rules.Entry) (e : rules.Entry) → Row read.entry.tables.nodes.now read.entry.tables.roots.now read.entry.tables.scopes.now read.entry.tables.root read.entry.tables.variables state.old read.entry.listing.now c m s es e → total ≡ total_of (weights es) → StepsTo (steps_in read.entry.clock read.entry.waiting.now s (taken m s es c (rules.key_of e))) read.entry.clock result state.new }
{
    match clock::bring(read.clock, read.waiting, total) {
        Ok(next) => {
            step::take_row(read.tables, state, fresh, read.listing, c)?;
            Ok((c, next))
        }
        Err(late) => {
            take_kept(read, state, fresh, c)?;
            Err(Refusal::Wait(late))
        }
    }
}

// A timed step with a choosing draw, once the state is listed and its total above zero: 16 to 19, then 23 to 25. A run's steps go through it: the waiting draws are
// read before the entry is taken, so that a step that is accepted copies no state.
pub fn take_timed(
    read: Stepping,
    state: &mut [i64],
    fresh: &mut [i64; Room::FRESH],
    listed: Listed,
    draw: u64,
) -> Result<(usize, Clock), Refusal>
    requires { ((m : Resolved.Model) × (s : State) × (es : List rules.Entry) × Counted read.tables.nodes.now read.tables.roots.now read.tables.scopes.now read.tables.root read.tables.variables state.old read.listing.now listed.count listed.total m s es) × (InRange read.clock) × (0 < listed.total) }
    ensures { (m : Resolved.Model) (s : State) (es : List rules.Entry) → Counted read.entry.tables.nodes.now read.entry.tables.roots.now read.entry.tables.scopes.now read.entry.tables.root read.entry.tables.variables state.old read.entry.listing.now listed.count listed.total m s es → StepsTo (steps_in read.entry.clock read.entry.waiting.now s (drawn m s es draw)) read.entry.clock result state.new }
{
    let c = listed.choose(read.listing, draw).ok_or(Refusal::Draw)?;
    take_waiting(read, state, fresh, c, listed.total)
}

// The same for a call that makes this one step: the entry is taken before the waiting draws are read, so that a step that 17 to 19 refuse reads none. The state is
// kept meanwhile, and put back where the wait is refused.
pub fn take_single(
    read: Stepping,
    state: &mut [i64],
    fresh: &mut [i64; Room::FRESH],
    listed: Listed,
    draw: u64,
) -> Result<(usize, Clock), Refusal>
    requires { ((m : Resolved.Model) × (s : State) × (es : List rules.Entry) × Counted read.tables.nodes.now read.tables.roots.now read.tables.scopes.now read.tables.root read.tables.variables state.old read.listing.now listed.count listed.total m s es) × (InRange read.clock) × (0 < listed.total) }
    ensures { (m : Resolved.Model) (s : State) (es : List rules.Entry) → Counted read.entry.tables.nodes.now read.entry.tables.roots.now read.entry.tables.scopes.now read.entry.tables.root read.entry.tables.variables state.old read.entry.listing.now listed.count listed.total m s es → StepsTo (steps_in read.entry.clock read.entry.waiting.now s (drawn m s es draw)) read.entry.clock result state.new }
{
    let c = listed.choose(read.listing, draw).ok_or(Refusal::Draw)?;
    let mut before = [0i64; Room::STATE];
    before.copy_from_slice(&state[..]);
    step::take_row(read.tables, state, fresh, read.listing, c)?;
    match clock::bring(read.clock, read.waiting, listed.total) {
        Ok(next) => Ok((c, next)),
        Err(late) => {
            state.copy_from_slice(&before);
            Err(Refusal::Wait(late))
        }
    }
}

// Writes an event: the ticks, and entry c of the listing. A slice and a step: an array of the event's part would be an unwrap with its proof, for three lines.
fn put_event(events: &mut [u64], step: usize, ticks: u64, listing: &[u64], c: usize)
    requires { (step * event_width + event_width ≤ length events.old) × (c * entry_width + entry_width ≤ length listing.now) }
    ensures { events.new ≡ written events.old step ticks (entry_in listing.now c) }
{
    let at = step * Room::EVENT;
    let from = c * Limits::ENTRY;
    events[at] = ticks;
    events[at + 1..at + Room::EVENT].copy_from_slice(&listing[from..from + Limits::ENTRY]);
}

// A run as it is made: the state and the events, which it is lent to write, and what its steps are made in: the table of offers, the processes that an entry leads
// to, and the listing. What it is given to read stays apart, so that it needs no promise to stay.
#[derive(Drop)]
struct Making<'a> {
    state: &'a mut [i64],
    events: &'a mut [u64],
    space: Space<{ Table::ROWS }>,
    fresh: [i64; Room::FRESH],
    listing: [u64; Room::LISTING],
}

impl<'a> Making<'a> {
    // A step with its choosing draw, which took so many words.
    fn step_drawn(
        &mut self,
        given: Given,
        listed: Listed,
        draw: u64,
        used: usize,
        p: Progress,
    ) -> Progress
        requires { ((z : List ℕ) × (m : Resolved.Model) × (r : Run) × (es : List rules.Entry) × ListsIn given z self.old p m r listed.count listed.total es × (p.words + used ≤ length given.words.now)) × (0 < listed.total) × (p.steps * event_width + event_width ≤ length self.old.events.now) }
        ensures same { Stays self.old self.new }
        ensures goes { (z : List ℕ) (m : Resolved.Model) (r : Run) (es : List rules.Entry) → ListsIn given.entry z self.old p m r listed.count listed.total es → p.words + used ≤ length given.entry.words.now → GoesIn given.entry z (follows used (steps_in r.timed.clock (drop r.waiting given.entry.waiting.now) r.timed.state (drawn m r.timed.state es draw)) r) result self.new m }
    {
        let state = &mut *self.state;
        let events = &mut *self.events;
        let waiting = given.waiting;
        let gone = p.waiting;
        let read = Stepping {
            tables: given.tables,
            listing: &self.listing,
            waiting: &waiting[gone..],
            clock: p.clock,
        };
        match take_timed(read, state, &mut self.fresh, listed, draw) {
            Err(refusal) => p.ended(End::Refused(refusal), listed.count, listed.total),
            Ok((chosen, next)) => {
                put_event(events, p.steps, next.ticks, &self.listing, chosen);
                p.longer(used, listed.count, listed.total, next)
            }
        }
    }

    // A step once the state is listed: 15, the draw from words, then the step.
    fn step_counted(&mut self, given: Given, listed: Listed, p: Progress) -> Progress
        requires { ((z : List ℕ) × (m : Resolved.Model) × (r : Run) × (es : List rules.Entry) × ListsIn given z self.old p m r listed.count listed.total es) × (p.steps * event_width + event_width ≤ length self.old.events.now) }
        ensures same { Stays self.old self.new }
        ensures goes { (z : List ℕ) (m : Resolved.Model) (r : Run) (es : List rules.Entry) → ListsIn given.entry z self.old p m r listed.count listed.total es → GoesIn given.entry z (run_step given.entry.words.now given.entry.waiting.now m r) result self.new m }
    {
        if listed.total == 0 {
            return p.ended(End::Refused(Refusal::NoWeight), listed.count, listed.total);
        }
        let words = given.words;
        let from = p.words;
        let drawn = words::draw_from(&words[from..], listed.total);
        match drawn {
            None => p.ended(End::Spent, listed.count, listed.total),
            Some((draw, used)) => self.step_drawn(given, listed, draw, used, p),
        }
    }

    // One step: the listing, then the rest of the step.
    fn step(&mut self, given: Given, p: Progress) -> Progress
        requires { ((z : List ℕ) × (m : Resolved.Model) × (r : Run) × StandsIn given z self.old p m r) × (p.steps * event_width + event_width ≤ length self.old.events.now) }
        ensures same { Stays self.old self.new }
        ensures goes { (z : List ℕ) (m : Resolved.Model) (r : Run) → StandsIn given.entry z self.old p m r → GoesIn given.entry z (run_step given.entry.words.now given.entry.waiting.now m r) result self.new m }
    {
        // Not `&*`: beside a shared loan through a field that is a reference the check covers none to write of another field.
        let state = &mut *self.state;
        let listed = listing::list_over(
            given.tables,
            state,
            &mut self.space.rows,
            &mut self.space.firsts,
            &mut self.space.nexts,
            &mut self.listing,
        );
        match listed {
            Err(refusal) => p.ended(End::Unlisted(refusal), 0, 0),
            Ok(listed) => self.step_counted(given, listed, p),
        }
    }

    // Up to so many steps, for all of whose events there is room.
    fn steps(&mut self, given: Given, clock: Clock, steps: usize) -> Progress
        requires { ((m : Resolved.Model) × (s : State) × Holds given self.old.state.now m s) × (InRange clock) × (steps * event_width ≤ length self.old.events.now) }
        ensures same { Stays self.old self.new }
        ensures stands { (m : Resolved.Model) (s : State) → Holds given.entry self.old.state.now m s → Stands given.entry self.old.events.now self.new.state.now self.new.events.now result m (running steps given.entry.words.now given.entry.waiting.now m (begun (timed s clock))) }
    {
        let mut p = Progress::begun(clock);
        for _ in 0..steps {
            p = self.step(given, p);
            if p.end.is_some() {
                return p;
            }
        }
        p
    }
}

// A run over the tables of a model: no more steps than the limit, and none for whose event there is no room. Its tables are made once.
pub fn run(
    given: Given,
    state: &mut [i64],
    events: &mut [u64],
    clock: Clock,
    limit: usize,
) -> Progress
    requires { ((m : Resolved.Model) × (s : State) × Holds given state.old m s) × (InRange clock) }
    ensures { (m : Resolved.Model) (s : State) → Holds given.entry state.old m s → Stands given.entry events.old state.new events.new result m (runs_with limit (length events.old / event_width) given.entry.words.now given.entry.waiting.now m s clock) }
{
    let steps = limit.min(events.len() / Room::EVENT);
    let mut making = Making {
        state,
        events,
        space: Space::EMPTY,
        fresh: [0i64; Room::FRESH],
        listing: [0u64; Room::LISTING],
    };
    making.steps(given, clock, steps)
}
