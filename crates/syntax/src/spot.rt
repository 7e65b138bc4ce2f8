// Where a reader stands.
ghost use Rattle.std.specs.Prelude.{◌≡◌, ◌+◌, get_or};
ghost use Rattle.tree.specs.Reading.{Ready};

use crate::left::Left;

// At the token `at`, with `used` nodes of the table used. The nodes are lent beside it: a Spot is copied, and a struct with a `&mut` can't be.
// The readers of lists, of expressions and of what these make up to an action take the three as words: a Spot goes through memory at each call.
#[derive(Clone, Copy)]
pub struct Spot<'a> {
    pub toks: &'a [u8],
    pub at: usize,
    pub used: usize,
    ghost ready: { Ready toks.now at used },
}

impl<'a> Spot<'a> {
    // The token there; past the last one END, which no token is.
    pub(crate) fn peek(self) -> u8
        ensures { result ≡ get_or self.entry.toks.now self.entry.at 0 }
    {
        token::peek(self.toks, self.at)
    }

    // Another place in the same tokens.
    pub(crate) fn to(self, at: usize, used: usize) -> Spot<'a>
        requires { Ready self.toks.now at used }
        ensures { (ready : Ready self.entry.toks.now at used) × (result ≡ record { toks = self.entry.toks; at = at; used = used; ready = ready }) }
    {
        Spot {
            toks: self.toks,
            at,
            used,
        }
    }

    // The place after its token.
    pub(crate) fn next(self) -> Spot<'a>
        requires { Ready self.toks.now (self.at + 1) self.used }
        ensures { (ready : Ready self.entry.toks.now (self.entry.at + 1) self.entry.used) × (result ≡ record { toks = self.entry.toks; at = self.entry.at + 1; used = self.entry.used; ready = ready }) }
    {
        self.to(self.at + 1, self.used)
    }

    // The place after a tree that was read from there.
    pub(crate) fn after(self, at: usize, root: usize) -> Left<'a>
        requires { Ready self.toks.now at (root + 1) }
        ensures { (ready : Ready self.entry.toks.now at (root + 1)) × (result ≡ record { toks = self.entry.toks; at = at; root = root; ready = ready }) }
    {
        Left {
            toks: self.toks,
            at,
            root,
        }
    }
}
