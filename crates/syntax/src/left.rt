// Where a reader goes on after a tree.
ghost use Rattle.std.specs.Prelude.{◌≡◌, ◌+◌};
ghost use Rattle.tree.specs.Reading.{Ready};

use crate::spot::Spot;

// At the token `at`, to the right of a tree whose root is the last node used. Not a Spot: at the start of a text no node is used and there is no root.
#[derive(Clone, Copy)]
pub struct Left<'a> {
    pub toks: &'a [u8],
    pub at: usize,
    pub root: usize,
    ghost ready: { Ready toks.now at (root + 1) },
}

impl<'a> Left<'a> {
    // The place there.
    pub(crate) fn spot(self) -> Spot<'a>
        ensures { (ready : Ready self.entry.toks.now self.entry.at (self.entry.root + 1)) × (result ≡ record { toks = self.entry.toks; at = self.entry.at; used = self.entry.root + 1; ready = ready }) }
    {
        Spot {
            toks: self.toks,
            at: self.at,
            used: self.root + 1,
        }
    }
}
