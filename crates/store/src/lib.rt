#![tactic(auto)]

// An engine's buffers as they are written and read: the text in the model buffer, the header in both, the numbers of an opened state.
pub mod buffer;
pub mod start;

ghost use Rattle.std.specs.Prelude.{◌≡◌, take};
ghost use Rattle.model.specs.Resolved as Resolved;
ghost use Rattle.store.specs.Tables.{Holds};

use state::Shape;
use tables::Tables;

// The header of an engine: the length of its text, and how many processes and pairs it has.
#[derive(Clone, Copy)]
pub struct Engine {
    pub text: usize,
    pub processes: usize,
    pub pairs: usize,
}

impl Engine {
    // The lengths of the lent buffers.
    pub const MODEL: usize = buffer::Bytes::FIRST + buffer::Bytes::MOST;

    pub const STATE: usize = state::Layout::NUMBERS;

    pub const LISTING: usize = machine::Limits::LISTING;

    pub const REPORT: usize = model::Limits::DEFINITIONS;

    pub const SAVES: usize = saves::Layout::SAVES;

    pub const SEARCH: usize = underway::Layout::NUMBERS;

    // Closed, no process, no pair: an associated function, by the form that the rules name for a fresh engine.
    pub fn fresh() -> Self
        ensures { (result.text ≡ 0) × (result.processes ≡ 0) × (result.pairs ≡ 0) }
    {
        Engine {
            text: 0,
            processes: 0,
            pairs: 0,
        }
    }
}

// The tables of a model, with its numbers of sums and of channel names. Roots and scopes are as long as the reading's arrays, and `shape` alone asks where they end.
#[derive(Clone, Copy)]
pub struct Settled<'a> {
    pub tables: Tables<'a>,
    pub sums: usize,
    pub channels: usize,
}

impl<'a> Settled<'a> {
    // What a state over the model is judged by.
    pub fn shape(self) -> Shape<'a>
        requires { (m : Resolved.Model) × Holds self m }
        ensures { (result.scopes.now ≡ take self.entry.sums self.entry.tables.scopes.now) × (result.channels ≡ self.entry.channels) }
    {
        let scopes = self.tables.scopes;
        Shape {
            scopes: &scopes[..self.sums],
            channels: self.channels,
        }
    }
}
