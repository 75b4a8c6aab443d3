//! Where bytes go.
ghost use Rattle.std.specs.Prelude.{◌≡◌, ℕ, ◌<◌, Bool, true, List, Option, length, IfOk, IsErr};
ghost use Rattle.std.specs.Bool.{OnTrue};
ghost use Rattle.std.specs.Io.{WritesAtMost};
ghost use Rattle.std.specs.Io.KnownBytes.{WriteAppends, Keeps};
ghost use Rattle.uno_base.specs.Causes.{HasCause};

use crate::Failed;

/// A stream of bytes that go out.
pub trait Sink {
    /// The bytes that were taken, where the sink tells them; no real stream does.
    ghost taken: { Self → Option (List ℕ) };

    /// How often the sink has failed.
    ghost faults: { Self → ℕ };

    /// Whether the sink was closed.
    ghost closed: { Self → Bool };

    /// Takes a front of the piece, at least one byte of it, and says how many.
    fn write(&mut self, piece: &[u8]) -> Result<usize, Failed>
        requires { 0 < length piece.now }
        ensures some { IfOk result (λ n. 0 < n) }
        ensures bound { WritesAtMost result piece.now }
        ensures bytes { WriteAppends (taken self.old) (taken self.new) result piece.now }
        ensures cause { HasCause (faults self.old) (faults self.new) result }
        ensures shut { OnTrue (closed self.old) (IsErr result) }
        ensures stays { closed self.new ≡ closed self.old };

    /// Ends the stream: each later write fails.
    fn close(&mut self)
        ensures bytes { Keeps (taken self.old) (taken self.new) }
        ensures no_fault { faults self.new ≡ faults self.old }
        ensures shut { closed self.new ≡ true };
}
