#![tactic(auto)]

// Asks questions 2 to 6 of a model text: prints `fits` and how many tokens it has, or `refused`, the number of the first no and its place.
// It reads standard input, or each file that an argument names, after a line with the name.
ghost use Rattle.std.specs.Prelude.{◌≤◌, length};
ghost use Rattle.token.specs.Questions.{text_limit};

use std::io;
use syntax::question;
use syntax::question::Unfit;
use token::{Limits, Question, Refusal};

// The place of token k of a text, or the text's end past the last.
fn place(text: &[u8], places: &[u16], k: usize) -> usize {
    match places.get(k) {
        Some(place) => usize::from(*place),
        None => text.len(),
    }
}

// How many tokens a text has that passes questions 5 and 6. Not by `opening::read_tree`, which goes on to what each token holds. A body of its own: in one with
// `judge_bytes` the loops over the text take a fifth more time.
#[inline(never)]
fn judge_tokens(text: &[u8]) -> Result<usize, Refusal>
    requires { length text.now ≤ text_limit }
{
    let mut kinds = [0u8; Limits::TEXT];
    let mut places = [0u16; Limits::TEXT];
    let mut sizes = [0u16; Limits::TEXT];
    let mut nodes = [0u64; question::Limits::TOKENS];
    let n = token::fill(text, &mut kinds, &mut places, &mut sizes);
    let asked = question::judge_text(&kinds[..n], &mut nodes);
    match asked {
        Err(Unfit::Misfit(k)) => Err(Refusal {
            question: Question::Grammar,
            place: place(text, &places[..n], k),
        }),
        Err(Unfit::Crowded(k)) => Err(Refusal {
            question: Question::Tokens,
            place: place(text, &places[..n], k),
        }),
        Ok(_) => Ok(n),
    }
}

// The same of any text, with questions 2 to 4 before.
fn judge(text: &[u8]) -> Result<usize, Refusal> {
    token::judge_bytes(text)?;
    judge_tokens(text)
}

fn show(rt: &impl Print, text: &[u8]) -> io::Result<()> {
    match judge(text) {
        Err(r) => println!(rt; "refused,{},{}", r.question.number(), r.place),
        Ok(tokens) => println!(rt; "fits,{tokens}"),
    }
}

fn main(rt: HostRuntime) -> io::Result<()> {
    let mut space = [0u8; Limits::READ];
    reading::show_texts(&rt, &mut space, |text| show(&rt, text))
}
