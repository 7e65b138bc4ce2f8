// The model buffer: two bytes for the text's length, low byte first, then the text, then zeros; and an engine's header in both buffers.
ghost use Rattle.std.specs.Prelude.{◌≡◌, ◌∷◌, ◌≤◌, ◌<◌, ◌%◌, ◌/◌, pos, length, drop, replicate, MatchOption};
ghost use Rattle.std.proofs.Math.Option.{none};
ghost use Rattle.token.specs.Questions.{text_limit};
ghost use Rattle.model.specs.Opening.{process_limit};
ghost use Rattle.model.specs.Resolved as Resolved;
ghost use Rattle.machine.specs.State.{pair_limit, state_length, state_numbers};
ghost use Rattle.machine.specs.Machine.{model_length, opened_state};
ghost use Rattle.buffers.specs.Held.{model_bytes, length_in, zeros, held_in};
ghost use Rattle.store.specs.Start as Start;
ghost use Rattle.store.specs.Text.{TextOf};

use crate::{Engine, start};
use state::Layout;
use tables::Tables;

#[derive(Clone, Copy)]
pub struct Bytes;

impl Bytes {
    // The most bytes of a text, and where they stand.
    pub const MOST: usize = token::Limits::TEXT;

    pub const FIRST: usize = 2;

    // Numbers that a byte has.
    pub const SIZE: usize = 256;
}

// Writes an engine's header, a fresh one's as an opened one's: the length of its text, low byte first, and both counts. A step changes a count by state's `put_count`.
fn put_header(engine: Engine, model: &mut [u8], state: &mut [i64])
    requires { (engine.text ≤ text_limit) × (engine.processes ≤ process_limit) × (engine.pairs ≤ pair_limit) × (2 ≤ length model.old) × (2 ≤ length state.old) }
    ensures { (model.new ≡ engine.text % 256 ∷ engine.text / 256 ∷ drop 2 model.old) × (state.new ≡ pos engine.processes ∷ pos engine.pairs ∷ drop 2 state.old) }
{
    model[..Bytes::FIRST].copy_from_slice(&(engine.text as u16).to_le_bytes());
    state::put_count(state, 0, engine.processes);
    state::put_count(state, 1, engine.pairs);
}

// A fresh engine: its header, and zeros.
pub fn put_fresh(model: &mut [u8], state: &mut [i64])
    requires { (length model.old ≡ model_length) × (length state.old ≡ state_length) }
    ensures { (model.new ≡ replicate model_length 0) × (state.new ≡ replicate state_length (pos 0)) }
{
    model.fill(0);
    state.fill(0);
    put_header(Engine::fresh(), model, state);
}

// An opened engine in cleared buffers: the processes that its model starts with, its header, and its text.
pub fn put_opened(
    tables: Tables,
    definitions: usize,
    text: &[u8],
    model: &mut [u8],
    state: &mut [i64],
)
    requires { (model.old ≡ replicate model_length 0) × (state.old ≡ replicate state_length (pos 0)) × (length text.now ≤ text_limit) × ((m : Resolved.Model) × Start.Opens tables.nodes.now tables.scopes.now tables.root tables.variables definitions m) }
    ensures bytes { model.new ≡ model_bytes text.now }
    ensures numbers { (m : Resolved.Model) → Start.Opens tables.entry.nodes.now tables.entry.scopes.now tables.entry.root tables.entry.variables definitions m → state.new ≡ state_numbers (opened_state m) }
{
    let processes = start::put_start(
        tables,
        definitions,
        &mut state[Layout::PROCESSES..Layout::PAIRS],
    );
    let engine = Engine {
        text: text.len(),
        processes,
        pairs: 0,
    };
    put_header(engine, model, state);
    model[Bytes::FIRST..Bytes::FIRST + text.len()].copy_from_slice(text);
}

// The length in the first two bytes.
fn text_length(model: &[u8]) -> usize
    requires { 2 ≤ length model.now }
    ensures { (result ≡ length_in model.now) × (result < 65536) }
{
    usize::from(u16::from_le_bytes([model[0], model[1]]))
}

// Whether every byte is 0. The bits are gathered and tested once, as in state's `all_zero` for numbers: a test of each byte took 30% of a list of the sheet (docs/PERFORMANCE.md), and one function for both would need a trait of its own with the laws of `|`.
fn is_clear(s: &[u8]) -> bool
    ensures { result ≡ zeros s.now }
{
    let mut bits = 0;
    for &b in s {
        bits |= b;
    }
    bits == 0
}

// The text that a model buffer may hold: of a length that a text may have, with zeros after it.
pub fn find_text(model: &[u8]) -> Option<&[u8]>
    requires { length model.now ≡ model_length }
    ensures { MatchOption result (held_in model.now ≡ none) (λ text. TextOf model.now text.now) }
{
    let n = text_length(model);
    if Bytes::MOST < n {
        return None;
    }
    let end = Bytes::FIRST + n;
    if is_clear(&model[end..]) {
        return Some(&model[Bytes::FIRST..end]);
    }
    None
}
