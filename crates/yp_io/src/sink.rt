//! Where bytes go.
ghost use Rattle.std.specs.Prelude.{ℕ, List, length, Option, IfSome};
ghost use Rattle.yp_io.specs.Moves.{TakesAtMost, WritesFirst, PutCause};

/// What a write takes.
#[derive(Debug, Clone, Copy, PartialEq, Eq, Drop)]
pub enum Put {
    /// The first so many bytes of the piece, one at least of a piece that isn't empty.
    Took(usize),
    /// Writing failed, and took nothing.
    Failed,
}

/// Where bytes go.
pub trait Sink {
    /// The bytes that were written, where the sink tells them.
    ghost written: { Self → Option (List ℕ) };

    /// How often writing has failed.
    ghost faults: { Self → ℕ };

    /// Appends the first bytes of the piece: one at least of a piece that isn't empty. `Failed` comes
    /// only where the count of faults rose, with nothing written; no other answer raises the count.
    fn write(&mut self, piece: &[u8]) -> Put
        ensures room { TakesAtMost result (length piece.now) }
        ensures bytes { IfSome (written self.old)
            (λ before. WritesFirst before (written self.new) result piece.now) }
        ensures cause { PutCause (faults self.old) (faults self.new) result };
}
