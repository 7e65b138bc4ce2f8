#![tactic(auto)]

// An engine: its calls open, open_steady, list, step, step_timed, run, report, save, return_to and forget, and, in searches, search, begin and carry_on; and what they answer.
pub mod held;
pub mod listings;
pub mod queries;
pub mod searches;
pub mod steps;
pub mod subtotals;
pub mod texts;
pub mod waiting;

ghost use Rattle.std.specs.Prelude.{◌≡◌, [], length};
ghost use Rattle.clock.specs.Clock.{InRange};
ghost use Rattle.machine.specs.State.{state_length};
ghost use Rattle.machine.specs.Machine.{model_length, listing_length, list', step', report', timed', run', save', return', forget', open', open_steady', on'};
ghost use Rattle.buffers.specs.Parts.{lent_two, lent_three, lent_timed, lent_all, lent_whole};
ghost use Rattle.buffers.specs.Effect.{answered, effect};
ghost use Rattle.engine.specs.Gives.{bare, filled, refusal_number, refusal_answer, accepted, answer_of, of_listing, of_text, of_run, Gives, are_long, are_all_long, are_whole_long};
ghost use Rattle.engine.specs.Waited.{timed, timed_by};
ghost use Rattle.engine.specs.Ran.{GivesRan, told_of, unbegun};
ghost use Rattle.engine.specs.Asks.{ask_under};

use clock::Clock;
use listing::Listed;
use listings::List;
use opening::Space;
use running::Progress;
use saves::Layout;
use simulation::Asked;
use steady::Profile;
use store::Engine;
use subtotals::Report;

// What a call answers: 0 or a refusal's number; its place and branch; the listing's entries, their total, and the entry that a step took.
// C reads these numbers in this order.
#[repr(C)]
#[derive(Clone, Copy)]
pub struct Answer {
    pub number: u64,
    pub place: u64,
    pub branch: u64,
    pub count: u64,
    pub total: u64,
    pub chosen: u64,
}

impl Answer {
    // An answer without a listing.
    pub fn bare(number: u64, place: u64, branch: u64) -> Self
        ensures { result ≡ bare number place branch }
    {
        Answer {
            number,
            place,
            branch,
            count: 0,
            total: 0,
            chosen: 0,
        }
    }

    // An answer with a listing.
    pub fn filled(number: u64, count: u64, total: u64, chosen: u64) -> Self
        ensures { result ≡ filled number count total chosen }
    {
        Answer {
            number,
            place: 0,
            branch: 0,
            count,
            total,
            chosen,
        }
    }
}

// Why a call is refused: a buffer hasn't its length; the text; the model, the state, the saves or the clock isn't held; the state's listing; a step over a listing
// of so many entries and this total; the name of a save.
#[derive(Clone, Copy)]
pub enum Refusal {
    Lengths,
    Text(token::Refusal),
    NotHeld,
    Listing(listing::Refusal),
    Step(running::Refusal, Listed),
    Save(saves::Refusal),
}

impl Refusal {
    // The number that it answers with.
    fn number(self) -> u64
        ensures { result ≡ refusal_number self }
    {
        match self {
            Refusal::Lengths => 1,
            Refusal::Text(refusal) => refusal.question.number(),
            Refusal::NotHeld => 11,
            Refusal::Listing(refusal) => refusal.number(),
            Refusal::Step(refusal, _) => refusal.number(),
            Refusal::Save(refusal) => refusal.number(),
        }
    }
}

impl From<token::Refusal> for Refusal {
    ghost from_gives = { λ r o. o ≡ of_text r };

    fn from(r: token::Refusal) -> Refusal {
        Refusal::Text(r)
    }
}

impl From<listing::Refusal> for Refusal {
    ghost from_gives = { λ r o. o ≡ of_listing r };

    fn from(r: listing::Refusal) -> Refusal {
        Refusal::Listing(r)
    }
}

impl From<simulation::Refusal> for Refusal {
    ghost from_gives = { λ r o. o ≡ of_run r };

    fn from(r: simulation::Refusal) -> Refusal {
        match r {
            simulation::Refusal::Lengths => Refusal::Lengths,
            simulation::Refusal::NotHeld => Refusal::NotHeld,
        }
    }
}

impl From<Refusal> for Answer {
    ghost from_gives = { λ r a. a ≡ refusal_answer r };

    fn from(r: Refusal) -> Answer {
        let number = r.number();
        match r {
            Refusal::Lengths => Answer::bare(number, 0, 0),
            Refusal::Text(refusal) => Answer::bare(number, refusal.place as u64, 0),
            Refusal::NotHeld => Answer::bare(number, 0, 0),
            // Matched by itself: a listing's refusal has its own ways, and only one of them has a place.
            Refusal::Listing(refusal) => match refusal {
                listing::Refusal::Missing { place, branch } => {
                    Answer::bare(number, place as u64, branch as u64)
                }
                listing::Refusal::Entries => Answer::bare(number, 0, 0),
                listing::Refusal::Total => Answer::bare(number, 0, 0),
            },
            Refusal::Step(_, listed) => {
                Answer::filled(number, listed.count as u64, listed.total, 0)
            }
            Refusal::Save(_) => Answer::bare(number, 0, 0),
        }
    }
}

// What a call that lists is accepted with: what was listed, and the entry that a step took, else 0.
#[derive(Clone, Copy)]
pub struct Told {
    pub listed: Listed,
    pub chosen: usize,
}

impl From<Told> for Answer {
    ghost from_gives = { λ t a. a ≡ accepted t };

    fn from(told: Told) -> Answer {
        let listed = told.listed;
        Answer::filled(0, listed.count as u64, listed.total, told.chosen as u64)
    }
}

impl From<Result<Told, Refusal>> for Answer {
    ghost from_gives = { λ r a. a ≡ answer_of r };

    fn from(r: Result<Told, Refusal>) -> Answer {
        match r {
            Ok(told) => Answer::from(told),
            Err(refusal) => Answer::from(refusal),
        }
    }
}

// What a call that moves the clock gives: its answer, and the clock afterwards.
#[derive(Clone, Copy)]
pub struct Timed {
    pub answer: Answer,
    pub clock: Clock,
}

impl Timed {
    pub fn of(answer: Answer, clock: Clock) -> Self
        ensures { result ≡ timed answer clock }
    {
        Timed { answer, clock }
    }
}

// What a run answers: 0 or the number of the refusal that ended it; the steps that it took, the words and waiting draws that these used; the count and total of its last listing.
// C reads these numbers in this order.
#[repr(C)]
#[derive(Clone, Copy)]
pub struct Ran {
    pub number: u64,
    pub steps: u64,
    pub words: u64,
    pub waiting: u64,
    pub count: u64,
    pub total: u64,
}

// What a run gives: its answer, and the clock after its last accepted step.
#[derive(Clone, Copy)]
pub struct Simulated {
    pub ran: Ran,
    pub clock: Clock,
}

// What a run has come to.
impl From<Progress> for Simulated {
    ghost from_gives = { λ p s. s ≡ told_of p };

    fn from(p: Progress) -> Self {
        let clock = p.clock;
        Simulated {
            ran: Ran {
                number: p.number(),
                steps: p.steps as u64,
                words: p.words as u64,
                waiting: p.waiting as u64,
                count: p.count as u64,
                total: p.total,
            },
            clock,
        }
    }
}

impl Simulated {
    // A run that doesn't begin: the clock stays.
    fn unbegun(refusal: Refusal, clock: Clock) -> Self
        ensures { result ≡ unbegun refusal clock }
    {
        Simulated {
            ran: Ran {
                number: refusal.number(),
                steps: 0,
                words: 0,
                waiting: 0,
                count: 0,
                total: 0,
            },
            clock,
        }
    }
}

// Question 1 of a call that is lent a model, a state and an output of this right length.
fn are_long(model: usize, state: usize, output: usize, right: usize) -> bool
    ensures { result ≡ are_long model state output right }
{
    simulation::are_parts_long(model, state) && output == right
}

// Question 1 of the model, the state and the saves. Past it they stay slices under clauses of their lengths, here and in held.rt, each lent by itself: `first_chunk_mut`,
// which alone leaves known what is written through an array made of a slice, would be an unwrap with its proof in each call, to save one clause. What C
// lends one by one goes on one by one: a struct of the references would be made, and promised to be the same, in each call.
fn are_all_long(model: usize, state: usize, saves: usize) -> bool
    ensures { result ≡ are_all_long model state saves }
{
    simulation::are_parts_long(model, state) && saves == Engine::SAVES
}

// Question 1 of all that an opening is lent.
fn are_whole_long(model: usize, state: usize, saves: usize, search: usize) -> bool
    ensures { result ≡ are_whole_long model state saves search }
{
    are_all_long(model, state, saves) && search == Engine::SEARCH
}

// Opens a text under a profile.
fn open_under(
    profile: Profile,
    text: &[u8],
    model: &mut [u8],
    state: &mut [i64],
    saves: &mut [i64],
    search: &mut [i64],
    clock: Clock,
) -> Timed
    ensures { Gives (effect (ask_under profile text.now) (lent_whole model.old state.old saves.old clock search.old) []) result.answer (lent_whole model.new state.new saves.new result.clock search.new) [] }
{
    if !are_whole_long(model.len(), state.len(), saves.len(), search.len()) {
        return Timed::of(Answer::from(Refusal::Lengths), clock);
    }
    saves.fill(0);
    search.fill(0);
    let answer = texts::open_lent(profile, text, model, state);
    Timed::of(answer, Clock::fresh())
}

// Reads a model text, sets the engine to its start, forgets every save, ends a search under way and sets the clock, which goes by value, to zero.
pub fn open(
    text: &[u8],
    model: &mut [u8],
    state: &mut [i64],
    saves: &mut [i64],
    search: &mut [i64],
    clock: Clock,
) -> Timed
    ensures { Gives (effect (open' text.now) (lent_whole model.old state.old saves.old clock search.old) []) result.answer (lent_whole model.new state.new saves.new result.clock search.new) [] }
{
    open_under(Profile::Plain, text, model, state, saves, search, clock)
}

// The same under the steady profile: a text is refused where a continuation may leave more than one process.
pub fn open_steady(
    text: &[u8],
    model: &mut [u8],
    state: &mut [i64],
    saves: &mut [i64],
    search: &mut [i64],
    clock: Clock,
) -> Timed
    ensures { Gives (effect (open_steady' text.now) (lent_whole model.old state.old saves.old clock search.old) []) result.answer (lent_whole model.new state.new saves.new result.clock search.new) [] }
{
    open_under(Profile::Steady, text, model, state, saves, search, clock)
}

// Lists every transition that can happen next, with its weight.
pub fn list(model: &[u8], state: &[i64], listing: &mut [u64]) -> Answer
    ensures { Gives (effect (on' list') (lent_two model.now state.now) listing.old) result (lent_two model.now state.now) listing.new }
{
    Answer::from(queries::ask::<List>(model, state, listing))
}

// Steps over buffers of the right lengths. No query as list and report are: its state is lent to be changed.
fn step_lent(
    model: &[u8],
    state: &mut [i64],
    listing: &mut [u64],
    draw: u64,
) -> Result<Told, Refusal>
    requires { (length model.now ≡ model_length) × (length state.old ≡ state_length) × (length listing.old ≡ listing_length) }
    ensures { Gives (answered (on' (step' draw)) (lent_two model.now state.old) listing.old) (answer_of result) (lent_two model.now state.new) listing.new }
{
    let mut space = Space::EMPTY;
    let settled = simulation::read(model, &mut space).ok_or(Refusal::NotHeld)?;
    steps::step_model(settled, state, listing, draw)
}

// Lists, then takes the entry that the draw chooses.
pub fn step(model: &[u8], state: &mut [i64], listing: &mut [u64], draw: u64) -> Answer
    ensures { Gives (effect (on' (step' draw)) (lent_two model.now state.old) listing.old) result (lent_two model.now state.new) listing.new }
{
    if !are_long(model.len(), state.len(), listing.len(), Engine::LISTING) {
        return Answer::from(Refusal::Lengths);
    }
    Answer::from(step_lent(model, state, listing, draw))
}

// A timed step over buffers of the right lengths, with a clock in its range.
fn timed_lent(
    model: &[u8],
    state: &mut [i64],
    listing: &mut [u64],
    waiting: &[u16],
    draw: u64,
    clock: Clock,
) -> Result<(Told, Clock), Refusal>
    requires { (length model.now ≡ model_length) × (length state.old ≡ state_length) × (length listing.old ≡ listing_length) × (InRange clock) }
    ensures { Gives (answered (on' (timed' waiting.now draw)) (lent_timed model.now state.old clock) listing.old) (timed_by clock result).answer (lent_timed model.now state.new (timed_by clock result).clock) listing.new }
{
    let mut space = Space::EMPTY;
    let settled = simulation::read(model, &mut space).ok_or(Refusal::NotHeld)?;
    waiting::step_waiting(settled, state, listing, waiting, draw, clock)
}

// Steps, and then waits: both the state and the clock, which goes by value, move, or neither does.
pub fn step_timed(
    model: &[u8],
    state: &mut [i64],
    listing: &mut [u64],
    waiting: &[u16],
    draw: u64,
    clock: Clock,
) -> Timed
    ensures { Gives (effect (on' (timed' waiting.now draw)) (lent_timed model.now state.old clock) listing.old) result.answer (lent_timed model.now state.new result.clock) listing.new }
{
    if !are_long(model.len(), state.len(), listing.len(), Engine::LISTING) {
        return Timed::of(Answer::from(Refusal::Lengths), clock);
    }
    if !clock::in_range(clock) {
        return Timed::of(Answer::from(Refusal::NotHeld), clock);
    }
    match timed_lent(model, state, listing, waiting, draw, clock) {
        Ok((told, next)) => Timed::of(Answer::from(told), next),
        Err(refusal) => Timed::of(Answer::from(refusal), clock),
    }
}

// Many timed steps, lent what C lends, with choosing draws from words: up to the limit, the end of the room for events or of the words, or a refusal. The clock goes by value.
pub fn run(
    model: &[u8],
    state: &mut [i64],
    words: &[u64],
    waiting: &[u16],
    events: &mut [u64],
    limit: u64,
    clock: Clock,
) -> Simulated
    ensures { GivesRan (effect (on' (run' words.now waiting.now limit (length events.old))) (lent_timed model.now state.old clock) events.old) result.ran (lent_timed model.now state.new result.clock) events.new }
{
    let asked = Asked {
        words,
        waiting,
        limit,
        clock,
    };
    match simulation::run(model, state, events, asked) {
        Ok(p) => Simulated::from(p),
        Err(refusal) => Simulated::unbegun(Refusal::from(refusal), clock),
    }
}

// Lists, and reports the sum of the weights of each definition's processes.
pub fn report(model: &[u8], state: &[i64], report: &mut [u64]) -> Answer
    ensures { Gives (effect (on' report') (lent_two model.now state.now) report.old) result (lent_two model.now state.now) report.new }
{
    Answer::from(queries::ask::<Report>(model, state, report))
}

// Saves the state and the clock under a name.
pub fn save(model: &[u8], state: &[i64], saves: &mut [i64], name: &[u8], clock: Clock) -> Answer
    ensures { Gives (effect (on' (save' name.now)) (lent_all model.now state.now saves.old clock) []) result (lent_all model.now state.now saves.new clock) [] }
{
    if !are_all_long(model.len(), state.len(), saves.len()) {
        return Answer::from(Refusal::Lengths);
    }
    if !held::holds_all(model, state, &saves[..], clock) {
        return Answer::from(Refusal::NotHeld);
    }
    let mut kept = [0i64; Layout::KEPT];
    saves::put_kept(&mut kept, state, clock);
    held::stored_answer(saves::save(saves, &kept, name))
}

// Makes the state and the clock, which goes by value, that were saved under a name the present ones.
pub fn return_to(model: &[u8], state: &mut [i64], saves: &[i64], name: &[u8], clock: Clock) -> Timed
    ensures { Gives (effect (on' (return' name.now)) (lent_all model.now state.old saves.now clock) []) result.answer (lent_all model.now state.new saves.now result.clock) [] }
{
    if !are_all_long(model.len(), state.len(), saves.len()) {
        return Timed::of(Answer::from(Refusal::Lengths), clock);
    }
    if !held::holds_all(model, &state[..], saves, clock) {
        return Timed::of(Answer::from(Refusal::NotHeld), clock);
    }
    held::return_held(state, saves, name, clock)
}

// Forgets what was saved under a name.
pub fn forget(model: &[u8], state: &[i64], saves: &mut [i64], name: &[u8]) -> Answer
    ensures { Gives (effect (on' (forget' name.now)) (lent_three model.now state.now saves.old) []) result (lent_three model.now state.now saves.new) [] }
{
    if !are_all_long(model.len(), state.len(), saves.len()) {
        return Answer::from(Refusal::Lengths);
    }
    if !held::holds(model, state, &saves[..]) {
        return Answer::from(Refusal::NotHeld);
    }
    held::stored_answer(saves::forget(saves, name))
}
