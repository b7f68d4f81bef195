//! A sink in memory that keeps the pieces apart.
ghost use Rattle.std.specs.Prelude.{◌≡◌, ◌≢◌, ◌<◌, [], ◌∷◌, ◌++◌, length, OnOk, OnErr};
ghost use Rattle.merc_base.specs.Outside.{AnswersWrite};
ghost use Rattle.merc_io.specs.Sinks.{pieces_told, pieces_after};

use merc_base::{NoMemory, Sink, Text, Wrote};
use std::alloc::Global;
use std::marker::Model;

/// Bytes in memory, each piece of them as it was given.
#[derive(Drop)]
pub struct PieceSink {
    alloc: Global,
    pieces: Vec<Text>,
    faults: u64,
}

impl Model for PieceSink {
    ghost use Rattle.merc_io.specs.Sinks.{PieceSinkState};

    ghost Value = { PieceSinkState };

    ghost view = { λ s. record { pieces = s.pieces.items; faults = s.faults } };
}

impl PieceSink {
    /// An empty sink. It takes no memory before something is written.
    pub fn new(alloc: Global) -> PieceSink
        ensures { result ≡ record { pieces = []; faults = 0 } }
    {
        PieceSink {
            alloc,
            pieces: Vec::new(alloc),
            faults: 0,
        }
    }

    /// The pieces that were taken so far, in order.
    pub fn pieces(&self) -> &[Text]
        ensures { result.now ≡ self.now.pieces }
    {
        &self.pieces
    }
}

impl Sink for PieceSink {
    ghost sink_state = { pieces_told };

    /// A piece is taken whole, an empty one too; where memory is refused the write fails.
    fn write(&mut self, piece: &[u8]) -> Wrote
        requires { self.old.faults < 18446744073709551615 }
        ensures answer { AnswersWrite piece.now (pieces_told self.old) (pieces_told self.new) result }
        ensures took { result ≢ Wrote.Failed → result ≡ Wrote.Took (length piece.now) }
        ensures state { self.new ≡ pieces_after piece.now result self.old }
    {
        match keep(self.alloc, piece, &mut self.pieces) {
            Ok(()) => Wrote::Took(piece.len()),
            Err(NoMemory) => {
                self.faults += 1;
                Wrote::Failed
            }
        }
    }
}

// Puts a piece behind the others.
fn keep(alloc: Global, piece: &[u8], pieces: &mut Vec<Text>) -> Result<(), NoMemory>
    ensures ok { OnOk result (pieces.new.items ≡ pieces.old.items ++ piece.now ∷ []) }
    ensures err { OnErr result (pieces.new.items ≡ pieces.old.items) }
{
    pieces.push(Text::of(alloc, piece)?)?;
    Ok(())
}
