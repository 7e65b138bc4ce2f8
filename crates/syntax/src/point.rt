// Where a token stands.
ghost use Rattle.std.specs.Prelude.{◌≡◌, ◌≤◌, length, get_or};
ghost use Rattle.tree.specs.Reading.{token_room};

// At the token `at`, for what reads tokens and no tree: a Spot without the nodes used, of which it asks nothing.
#[derive(Clone, Copy)]
pub struct Point<'a> {
    pub toks: &'a [u8],
    pub at: usize,
    ghost inside: { at ≤ length toks.now },
    ghost room: { length toks.now ≤ token_room },
}

impl<'a> Point<'a> {
    // The token there; past the last one END, which no token is.
    pub(crate) fn peek(self) -> u8
        ensures { result ≡ get_or self.entry.toks.now self.entry.at 0 }
    {
        token::peek(self.toks, self.at)
    }
}
