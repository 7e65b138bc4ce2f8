#![tactic(auto)]

// Choosing draws from 64-bit words, by rejection: every draw below a total comes from equally many words.
ghost use Rattle.std.specs.Prelude.{◌≡◌, ◌+◌, ◌<◌, length};
ghost use Rattle.words.specs.Words.{word_values, usable, draw_of, Within};

#[derive(Clone, Copy)]
pub struct Limits;

impl Limits {
    // The largest word.
    pub const LAST: u64 = u64::MAX;
}

// The largest word that is used at a total. 2^64 passes 64 bits, and has the same remainder as 2^64 less the total.
fn last_used(total: u64) -> u64
    requires { 0 < total }
    ensures { result + 1 ≡ usable word_values total }
{
    let rest = (Limits::LAST - total + 1) % total;
    Limits::LAST - rest
}

// The first word that is used, modulo the total.
// The total is above 0 by a clause, as in `last_used`, and not a NonZeroU64: the caller's contracts and answers are over the number itself, which may be 0 there, so that it would hold it in both forms.
// A `for`: the answer is of the word and of its place, and a chain would need enumerate, find and map, the last two with closures that capture.
pub fn draw_from(words: &[u64], total: u64) -> Option<(u64, usize)>
    requires { 0 < total }
    ensures value { result ≡ draw_of total words.now }
    ensures within { Within total (length words.now) result }
{
    let last = last_used(total);
    for (i, &word) in words.iter().enumerate() {
        if word <= last {
            return Some((word % total, i + 1));
        }
    }
    None
}
