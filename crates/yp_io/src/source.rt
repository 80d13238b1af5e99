//! Where bytes come from.
ghost use Rattle.std.specs.Prelude.{◌≡◌, ℕ, ◌<◌, List, length, Option, IfSome};
ghost use Rattle.yp_io.specs.Moves.{GivesAtMost, GivesFirst, GotCause};

/// What a read gives.
#[derive(Debug, Clone, Copy, PartialEq, Eq, Drop)]
pub enum Got {
    /// So many bytes, one at least.
    Bytes(usize),
    /// Nothing is left.
    End,
    /// Reading failed, and took nothing.
    Failed,
}

/// Where bytes come from.
pub trait Source {
    /// The bytes that are left, where the source tells them.
    ghost left: { Self → Option (List ℕ) };

    /// How often reading has failed.
    ghost faults: { Self → ℕ };

    /// Reads the first of the bytes that are left into the front of `into`, which isn't empty: one byte
    /// at least, and no more than fit. `End` comes only where nothing is left, and `Failed` only where
    /// the count of faults rose; no other answer raises it.
    fn read(&mut self, into: &mut [u8]) -> Got
        requires { 0 < length into.old }
        ensures room { GivesAtMost result (length into.new) }
        ensures bytes { IfSome (left self.old)
            (λ before. GivesFirst before (left self.new) result into.new) }
        ensures cause { GotCause (faults self.old) (faults self.new) result };
}
