#![tactic(auto)]

// Reads texts of a bounded size, for the programs that show what comes of them.
ghost use Rattle.std.specs.Prelude.{◌≡◌, ◌<◌, length, take, IfOk};
ghost use Rattle.std.specs.Io.{ReadsAtMost};
ghost use Rattle.std.specs.Io.KnownBytes.{Consumes, IsAtEnd};

use std::fs::File;
use std::io::Read;
use std::rt::Files;
use std::{env, io};

// Reads until the buffer is full or the input ends, and returns how many bytes it put at the buffer's start.
pub fn read_full<R: Read>(reader: &mut R, space: &mut [u8]) -> io::Result<usize>
    ensures bound { ReadsAtMost result space.new }
    ensures bytes { IfOk result (λ n. Consumes (R.remaining reader.old) (R.remaining reader.new) (take n space.new)) }
    ensures end { IfOk result (λ n. n < length space.new → IsAtEnd (R.remaining reader.new)) }
{
    let mut done = 0;
    // A while: a step is as long as the read.
    while done < space.len() {
        let n = reader.read(&mut space[done..])?;
        if n == 0 {
            break;
        }
        done += n;
    }
    Ok(done)
}

// Shows the text that a reader gives, as far as the buffer has room.
fn show_text<R: Read, F: Fn(&[u8]) -> io::Result<()>>(
    from: &mut R,
    space: &mut [u8],
    show: &F,
) -> io::Result<()>
    requires { F.IsAlwaysCallable show.now }
{
    let n = read_full(from, space)?;
    show(&space[..n])
}

fn show_file<F: Fn(&[u8]) -> io::Result<()>>(
    rt: &(impl Print + Eprint + Files),
    name: &str,
    space: &mut [u8],
    show: &F,
) -> io::Result<()>
    requires { F.IsAlwaysCallable show.now }
{
    println!(rt; "== {name}")?;
    match File::open(rt, name) {
        Ok(mut file) => show_text(&mut file, space, show),
        Err(e) => eprintln!(rt; "{name}: {e}"),
    }
}

// Shows the text of standard input, or of each file that an argument names, after a line with the name.
pub fn show_texts<F: Fn(&[u8]) -> io::Result<()>>(
    rt: &HostRuntime,
    space: &mut [u8],
    show: F,
) -> io::Result<()>
    requires { F.IsAlwaysCallable show }
{
    let names = env::args(rt)?;
    if names.len() < 2 {
        return show_text(&mut rt.stdin(), space, &show);
    }
    for name in names.skip(1) {
        show_file(rt, name.as_str(), space, &show)?;
    }
    Ok(())
}
