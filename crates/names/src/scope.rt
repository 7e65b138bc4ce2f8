ghost use Rattle.std.specs.Prelude.{◌≤◌};
ghost use Rattle.model.specs.Limits.{local_limit};

use crate::Limits;

// The locals in scope: the tokens of their names.
// An array with its count, no ArrayVec: a Scope is copied where names are bound, and an ArrayVec is not Copy.
#[derive(Clone, Copy)]
pub struct Scope {
    pub names: [u16; Limits::LOCALS],
    pub count: usize,
    ghost few: { count ≤ local_limit },
}
