#![tactic(auto)]

// The engine's calls as C makes them (include/matgravel.h). Each is engine's call of that name, with the same contract, but for three: timed_step is step_timed, return is return_to, and independent is independence's, as a number.
// Where a call moves a clock that it is lent, the clock goes to engine's by value and is written back.
ghost use Rattle.std.specs.Prelude.{◌≡◌, cond, [], length};
ghost use Rattle.machine.specs.Machine.{list', step', report', timed', run', save', return', forget', open', open_steady', search', begin', carry', on'};
ghost use Rattle.buffers.specs.Parts.{lent_two, lent_three, lent_timed, lent_all, lent_search, lent_whole};
ghost use Rattle.buffers.specs.Effect.{effect};
ghost use Rattle.independence.specs.Judged.{judged};
ghost use Rattle.engine.specs.Gives.{Gives};
ghost use Rattle.engine.specs.Ran.{GivesRan};
ghost use Rattle.searching.specs.Run.{GivesRun};
ghost use Rattle.carrying.specs.Turns.{GivesProgress};

use clock::Clock;
use engine::{Answer, Ran};
use resuming::Progress;
use searching::Found;

#[unsafe(no_mangle)]
pub extern "C" fn matgravel_open(
    text: &[u8],
    model: &mut [u8],
    state: &mut [i64],
    saves: &mut [i64],
    search: &mut [i64],
    clock: &mut Clock,
) -> Answer
    ensures { Gives (effect (open' text.now) (lent_whole model.old state.old saves.old clock.old search.old) []) result (lent_whole model.new state.new saves.new clock.new search.new) [] }
{
    let t = engine::open(text, model, state, saves, search, *clock);
    *clock = t.clock;
    t.answer
}

#[unsafe(no_mangle)]
pub extern "C" fn matgravel_open_steady(
    text: &[u8],
    model: &mut [u8],
    state: &mut [i64],
    saves: &mut [i64],
    search: &mut [i64],
    clock: &mut Clock,
) -> Answer
    ensures { Gives (effect (open_steady' text.now) (lent_whole model.old state.old saves.old clock.old search.old) []) result (lent_whole model.new state.new saves.new clock.new search.new) [] }
{
    let t = engine::open_steady(text, model, state, saves, search, *clock);
    *clock = t.clock;
    t.answer
}

#[unsafe(no_mangle)]
pub extern "C" fn matgravel_list(model: &[u8], state: &[i64], listing: &mut [u64]) -> Answer
    ensures { Gives (effect (on' list') (lent_two model.now state.now) listing.old) result (lent_two model.now state.now) listing.new }
{
    engine::list(model, state, listing)
}

#[unsafe(no_mangle)]
pub extern "C" fn matgravel_step(
    model: &[u8],
    state: &mut [i64],
    listing: &mut [u64],
    draw: u64,
) -> Answer
    ensures { Gives (effect (on' (step' draw)) (lent_two model.now state.old) listing.old) result (lent_two model.now state.new) listing.new }
{
    engine::step(model, state, listing, draw)
}

#[unsafe(no_mangle)]
pub extern "C" fn matgravel_timed_step(
    model: &[u8],
    state: &mut [i64],
    listing: &mut [u64],
    waiting: &[u16],
    draw: u64,
    clock: &mut Clock,
) -> Answer
    ensures { Gives (effect (on' (timed' waiting.now draw)) (lent_timed model.now state.old clock.old) listing.old) result (lent_timed model.now state.new clock.new) listing.new }
{
    let t = engine::step_timed(model, state, listing, waiting, draw, *clock);
    *clock = t.clock;
    t.answer
}

#[unsafe(no_mangle)]
pub extern "C" fn matgravel_run(
    model: &[u8],
    state: &mut [i64],
    words: &[u64],
    waiting: &[u16],
    events: &mut [u64],
    limit: u64,
    clock: &mut Clock,
) -> Ran
    ensures { GivesRan (effect (on' (run' words.now waiting.now limit (length events.old))) (lent_timed model.now state.old clock.old) events.old) result (lent_timed model.now state.new clock.new) events.new }
{
    let t = engine::run(model, state, words, waiting, events, limit, *clock);
    *clock = t.clock;
    t.ran
}

#[unsafe(no_mangle)]
pub extern "C" fn matgravel_report(model: &[u8], state: &[i64], report: &mut [u64]) -> Answer
    ensures { Gives (effect (on' report') (lent_two model.now state.now) report.old) result (lent_two model.now state.now) report.new }
{
    engine::report(model, state, report)
}

#[unsafe(no_mangle)]
pub extern "C" fn matgravel_save(
    model: &[u8],
    state: &[i64],
    saves: &mut [i64],
    name: &[u8],
    clock: Clock,
) -> Answer
    ensures { Gives (effect (on' (save' name.now)) (lent_all model.now state.now saves.old clock) []) result (lent_all model.now state.now saves.new clock) [] }
{
    engine::save(model, state, saves, name, clock)
}

#[unsafe(no_mangle)]
pub extern "C" fn matgravel_return(
    model: &[u8],
    state: &mut [i64],
    saves: &[i64],
    name: &[u8],
    clock: &mut Clock,
) -> Answer
    ensures { Gives (effect (on' (return' name.now)) (lent_all model.now state.old saves.now clock.old) []) result (lent_all model.now state.new saves.now clock.new) [] }
{
    let t = engine::return_to(model, state, saves, name, *clock);
    *clock = t.clock;
    t.answer
}

#[unsafe(no_mangle)]
pub extern "C" fn matgravel_forget(
    model: &[u8],
    state: &[i64],
    saves: &mut [i64],
    name: &[u8],
) -> Answer
    ensures { Gives (effect (on' (forget' name.now)) (lent_three model.now state.now saves.old) []) result (lent_three model.now state.now saves.new) [] }
{
    engine::forget(model, state, saves, name)
}

// Whether two entries of one listing lead to one state in either order: 1 or 0.
#[unsafe(no_mangle)]
pub extern "C" fn matgravel_independent(entry: &[u64], other: &[u64]) -> u64
    ensures { result ≡ cond (judged entry.now other.now) 1 0 }
{
    u64::from(independence::independent(entry, other))
}

#[unsafe(no_mangle)]
pub extern "C" fn matgravel_search(model: &[u8], state: &[i64], name: &[u8], depth: u64) -> Found
    ensures { GivesRun (effect (on' (search' name.now depth)) (lent_two model.now state.now) []) result (lent_two model.now state.now) }
{
    engine::searches::search(model, state, name, depth)
}

#[unsafe(no_mangle)]
pub extern "C" fn matgravel_begin(
    model: &[u8],
    state: &[i64],
    search: &mut [i64],
    name: &[u8],
    depth: u64,
) -> Answer
    ensures { Gives (effect (on' (begin' name.now depth)) (lent_search model.now state.now search.old) []) result (lent_search model.now state.now search.new) [] }
{
    engine::searches::begin(model, state, search, name, depth)
}

#[unsafe(no_mangle)]
pub extern "C" fn matgravel_carry_on(
    model: &[u8],
    state: &[i64],
    search: &mut [i64],
    number: u64,
) -> Progress
    ensures { GivesProgress (effect (on' (carry' number)) (lent_search model.now state.now search.old) []) result (lent_search model.now state.now search.new) }
{
    engine::searches::carry_on(model, state, search, number)
}
