#![tactic(auto)]

// Prints the tokens of a model text, a line `place,length,kind` for each, and then the no of question 2, 3 or 4, if there is one.
// It reads standard input, or each file that an argument names, after a line with the name.
ghost use Rattle.std.specs.Prelude.{◌≤◌, length};
ghost use Rattle.token.specs.Questions.{text_limit};

use std::io;
use token::{Kind, Limits};

// A word or a sign is named by its own bytes.
fn put_token(rt: &impl Print, kind: u8, place: usize, bytes: &[u8]) -> io::Result<()> {
    let name: &[u8] = match kind {
        Kind::NAME => b"name",
        Kind::WHOLE => b"whole",
        Kind::DECIMAL => b"decimal",
        Kind::OTHER => b"other",
        _ => bytes,
    };
    print!(rt; "{place},{},", bytes.len())?;
    rt.write_all(name)?;
    println!(rt)
}

fn put_tokens(rt: &impl Print, text: &[u8]) -> io::Result<()>
    requires { length text.now ≤ text_limit }
{
    let mut kinds = [0u8; Limits::TEXT];
    let mut places = [0u16; Limits::TEXT];
    let mut sizes = [0u16; Limits::TEXT];
    let n = token::fill(text, &mut kinds, &mut places, &mut sizes);
    // By index, as token's `contents`: what is known of a token's place and size is told by its number.
    for i in 0..n {
        let at = usize::from(places[i]);
        let end = at + usize::from(sizes[i]);
        put_token(rt, kinds[i], at, &text[at..end])?;
    }
    Ok(())
}

// By hand, here and in reads and opens, not by a Display of Refusal: token is a part of the C library, in which nothing is formatted.
fn put_no(rt: &impl Print, text: &[u8]) -> io::Result<()> {
    match token::judge_bytes(text) {
        Err(r) => println!(rt; "refused,{},{}", r.question.number(), r.place),
        Ok(()) => Ok(()),
    }
}

fn show(rt: &impl Print, text: &[u8]) -> io::Result<()> {
    if text.len() <= Limits::TEXT {
        put_tokens(rt, text)?;
    }
    put_no(rt, text)
}

fn main(rt: HostRuntime) -> io::Result<()> {
    let mut space = [0u8; Limits::READ];
    reading::show_texts(&rt, &mut space, |text| show(&rt, text))
}
