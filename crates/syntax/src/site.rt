// Where a reader stands that numbers sums.
ghost use Rattle.std.specs.Prelude.{◌+◌, ◌≤◌};

use crate::spot::Spot;

// `sums` is the number of the next sum. OPEN sums have their number and no token yet, so there are no more than the tokens before this place and OPEN.
#[derive(Clone, Copy)]
pub struct Site<'a, const OPEN: usize> {
    pub spot: Spot<'a>,
    pub sums: usize,
    ghost few: { sums ≤ spot.at + OPEN },
}
