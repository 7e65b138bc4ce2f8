// Where a name stands.
ghost use Rattle.std.specs.Prelude.{◌≡◌, ◌+◌, get_or};
ghost use Rattle.token.specs.Kind as kind;

use crate::spot::Spot;

// At a name with the token AFTER after it.
#[derive(Clone, Copy)]
pub struct Named<'a, const AFTER: u8> {
    pub spot: Spot<'a>,
    ghost name: { get_or spot.toks.now spot.at 0 ≡ kind.name },
    ghost sign: { get_or spot.toks.now (spot.at + 1) 0 ≡ AFTER },
}
