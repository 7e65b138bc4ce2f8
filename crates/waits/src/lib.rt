#![tactic(auto)]

// The waiting draws of a timed step, read by Von Neumann's method.
ghost use Rattle.std.specs.Prelude.{◌≡◌, Bool, ◌<◌, ◌≤◌, length};
ghost use Rattle.waits.specs.Runs.{next_in_run, read, wait_of, Fits, Within};

#[derive(Clone, Copy)]
pub struct Limits;

impl Limits {
    // Once k would be this, the wait is refused.
    pub const RUNS: u64 = 32;

    // How many values a waiting draw has.
    pub const DRAWS: u64 = 65536;
}

// Where a reading stands: before a run, with k; in one, with k, its first draw, its latest, and whether its length is odd so far; E is known; k would be 32.
// The outcomes stand in it too, and not in a Result of it: the law of the waits is by induction over one step from place to place, `read`, which has these four.
#[derive(Clone, Copy)]
pub enum Run {
    Before(u64),
    In {
        k: u64,
        first: u16,
        last: u16,
        odd: bool,
    },
    Known(u64),
    Over,
}

// Why waiting draws give no wait: they ended first (23); k would be 32 (24).
#[derive(Clone, Copy)]
pub enum Unread {
    Ended,
    Long,
}

// A draw within a run: it goes on while each is less than the one before.
fn next_in_run(k: u64, first: u16, last: u16, odd: bool, draw: u16) -> Run
    requires { k < 32 }
    ensures value { result ≡ next_in_run k first last odd draw }
    ensures fits { Fits result }
{
    if draw < last {
        return Run::In {
            k,
            first,
            last: draw,
            odd: !odd,
        };
    }
    if odd {
        return Run::Known(k * Limits::DRAWS + u64::from(first));
    }
    let next = k + 1;
    if next == Limits::RUNS {
        return Run::Over;
    }
    Run::Before(next)
}

// One more draw.
fn take(run: Run, draw: u16) -> Run
    requires { Fits run }
    ensures value { result ≡ read run draw }
    ensures fits { Fits result }
{
    match run {
        Run::Before(k) => Run::In {
            k,
            first: draw,
            last: draw,
            odd: true,
        },
        Run::In {
            k,
            first,
            last,
            odd,
        } => next_in_run(k, first, last, odd, draw),
        Run::Known(_) | Run::Over => run,
    }
}

// What waiting draws come to.
pub fn wait_for(draws: &[u16]) -> Result<(u64, usize), Unread>
    ensures value { result ≡ wait_of draws.now }
    ensures within { Within (length draws.now) result }
{
    let mut run = Run::Before(0);
    for (i, &draw) in draws.iter().enumerate() {
        run = take(run, draw);
        match run {
            Run::Known(e) => return Ok((e, i + 1)),
            Run::Over => return Err(Unread::Long),
            Run::Before(_) | Run::In { .. } => {}
        }
    }
    Err(Unread::Ended)
}
