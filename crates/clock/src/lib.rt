#![tactic(auto)]

// The clock of an engine, and how a timed step brings it forward: by value.
ghost use Rattle.std.specs.Prelude.{◌≡◌, ◌<◌, ◌≤◌};
ghost use Rattle.waits.specs.Runs.{wait_limit};
ghost use Rattle.clock.specs.Clock.{tick_limit, fresh_clock, ticks_of, InRange, late_number, late_of, forwarded, brought_by, is_in_range};

use waits::{Limits, Unread};

// Model time in ten-thousandths of a unit, and how many waiting draws were used. C lends it with any numbers, so its range is a clause of those that need it:
// a second type for it would be unwrapped wherever the clock is given back.
#[repr(C)]
#[derive(Clone, Copy)]
pub struct Clock {
    pub ticks: u64,
    pub draws: u64,
}

impl Clock {
    // Each number is 0 to this.
    pub const LIMIT: u64 = 9223372036854775807;

    // Ticks that E = 65,536 takes at a total of 1.
    pub const SCALE: u64 = 1000000000000;

    // No time has passed, and no draw was used. By this name and not by Default: its contract says that it is the clock of a model just opened.
    pub fn fresh() -> Self
        ensures { result ≡ fresh_clock }
    {
        Clock { ticks: 0, draws: 0 }
    }
}

// Why a clock isn't brought forward: the waiting draws give no wait, or a number would pass its limit.
#[derive(Clone, Copy)]
pub enum Late {
    Wait(Unread),
    Past,
}

impl Late {
    // The number that it answers with.
    pub fn number(self) -> u64
        ensures { result ≡ late_number self }
    {
        match self {
            Late::Wait(Unread::Ended) => 23,
            Late::Wait(Unread::Long) => 24,
            Late::Past => 25,
        }
    }
}

impl From<Unread> for Late {
    ghost from_gives = { λ u l. l ≡ late_of u };

    fn from(u: Unread) -> Late {
        Late::Wait(u)
    }
}

// The time that E takes at a total: in two divisions, since 65,536 times the total can pass 64 bits.
pub fn ticks_of(e: u64, total: u64) -> u64
    requires { (e < wait_limit) × (0 < total) }
    ensures value { result ≡ ticks_of e total }
    ensures upper_bound { result < tick_limit }
{
    let scaled = e * Clock::SCALE / Limits::DRAWS;
    scaled / total
}

// Question 11 of a clock.
pub fn in_range(clock: Clock) -> bool
    ensures { result ≡ is_in_range clock }
{
    clock.ticks <= Clock::LIMIT && clock.draws <= Clock::LIMIT
}

// A clock later by so many ticks and draws.
fn forward(clock: Clock, ticks: u64, used: usize) -> Result<Clock, Late>
    requires { (InRange clock) × (ticks < tick_limit) }
    ensures { result ≡ forwarded clock ticks used }
{
    let next = clock.ticks + ticks;
    if Clock::LIMIT < next {
        return Err(Late::Past);
    }
    let more = used as u64;
    if Clock::LIMIT - clock.draws < more {
        return Err(Late::Past);
    }
    Ok(Clock {
        ticks: next,
        draws: clock.draws + more,
    })
}

// Questions 23 to 25 of a timed step whose total is above zero.
// By a clause, as in `ticks_of`, and not a NonZeroU64: the callers' contracts and answers are over the number itself, which may be 0 there, so that they would hold it in both forms.
pub fn bring(clock: Clock, draws: &[u16], total: u64) -> Result<Clock, Late>
    requires { (InRange clock) × (0 < total) }
    ensures { result ≡ brought_by clock draws.now total }
{
    let (e, used) = waits::wait_for(draws)?;
    forward(clock, ticks_of(e, total), used)
}
