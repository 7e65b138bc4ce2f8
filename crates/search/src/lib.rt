#![tactic(auto)]

// What a search over runs comes to, whatever a state is. The walk over the engine's tables stands above it.
ghost use Rattle.std.specs.Prelude.{◌≡◌};
ghost use Rattle.search.specs.Walks.{joined};

// Why a search, or a part of one, has no run to the wait: there is none; or a refusal was met, so that it isn't known (27).
#[derive(Clone, Copy)]
pub enum Missed {
    Nothing,
    Unsure,
}

impl Missed {
    // What two parts miss together.
    pub fn and(self, other: Missed) -> Self
        ensures { result ≡ joined self other }
    {
        match self {
            Missed::Nothing => other,
            Missed::Unsure => Missed::Unsure,
        }
    }
}
