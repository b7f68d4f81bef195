//! Places in a text.
ghost use Rattle.std.specs.Prelude.{◌≡◌};
ghost use Rattle.merc_base.specs.Places.{place_of};

/// Bytes of a text that stand side by side.
#[derive(Clone, Copy)]
pub struct Span {
    /// The index of the first byte, from 0.
    pub first: u32,
    /// The index behind the last byte.
    pub past: u32,
    /// The line of the first byte, from 1.
    pub line: u32,
}

/// A place in a text.
#[derive(Clone, Copy)]
pub struct Place {
    /// The index of a byte, from 0.
    pub byte: u32,
    /// The line of that byte, from 1.
    pub line: u32,
}

impl Span {
    /// The place of the first byte.
    pub fn start(self) -> Place
        ensures { result ≡ place_of self }
    {
        Place {
            byte: self.first,
            line: self.line,
        }
    }
}
