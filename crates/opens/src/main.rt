#![tactic(auto)]

// Opens model texts: prints `accepted` and the numbers of variables, definitions, sums, channel names and starting processes, or `refused`, the number of
// the first no and its place. It reads standard input, or each file that an argument names, after a line with the name.
use opening::{Accepted, Space};
use std::io;
use token::{Limits, Refusal};

fn put_accepted(rt: &impl Print, opened: Accepted) -> io::Result<()> {
    let Accepted { model, processes } = opened;
    let lists = model.lists;
    println!(rt;
        "accepted,{},{},{},{},{processes}",
        lists.variables, lists.definitions, model.sums, model.channels
    )
}

fn put_refused(rt: &impl Print, refusal: Refusal) -> io::Result<()> {
    println!(rt; "refused,{},{}", refusal.question.number(), refusal.place)
}

// Opens a text with tables of its own.
fn put_opened(rt: &impl Print, text: &[u8]) -> io::Result<()> {
    let mut space = Space::EMPTY;
    let opened = opening::open_text(
        text,
        &mut space.kinds,
        &mut space.places,
        &mut space.sizes,
        &mut space.contents,
        &mut space.nodes,
        &mut space.roots,
        &mut space.scopes,
        &mut space.names,
    );
    match opened {
        Ok(accepted) => put_accepted(rt, accepted),
        Err(refusal) => put_refused(rt, refusal),
    }
}

fn main(rt: HostRuntime) -> io::Result<()> {
    let mut space = [0u8; Limits::READ];
    reading::show_texts(&rt, &mut space, |text| put_opened(&rt, text))
}
