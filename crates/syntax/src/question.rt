// Questions 5 and 6 of a text's tokens.
ghost use Rattle.std.specs.Prelude.{◌≤◌, length};
ghost use Rattle.tree.specs.Reading.{token_room};
ghost use Rattle.syntax.specs.Asked.{TextAsks};

use crate::line;

#[derive(Clone, Copy)]
pub struct Limits;

impl Limits {
    // tokens of a text
    pub const TOKENS: usize = 4096;
}

// The token that doesn't fit (5), or the one that is one too many (6).
#[derive(Clone, Copy)]
pub enum Unfit {
    Misfit(usize),
    Crowded(usize),
}

// The root of the text's tree, or why there is none.
pub fn judge_text(toks: &[u8], nodes: &mut [u64]) -> Result<usize, Unfit>
    requires { length toks.now ≤ token_room }
    ensures { TextAsks toks.now nodes.new result }
{
    let root = line::read_text(toks, nodes).map_err(Unfit::Misfit)?;
    if Limits::TOKENS < toks.len() {
        return Err(Unfit::Crowded(Limits::TOKENS));
    }
    Ok(root)
}
