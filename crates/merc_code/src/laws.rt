//! Laws of what instructions do.
ghost use Rattle.std.specs.Prelude.{◌≡◌, ◌<◌};
ghost use Rattle.merc_code.specs.Steps.{Codes, State, Moves, step};
ghost use Rattle.merc_code.specs.Weight.{weight};

/// A step that only moves makes the weight less.
pub fn moves_are_lighter()
    ensures { (codes : Codes) (state next : State) → step codes state ≡ Moves next → weight next < weight state }
{}
