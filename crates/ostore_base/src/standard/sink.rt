ghost use Rattle.std.specs.Prelude.{◌≡◌, ◌<◌, ◌≤◌, length, None, IfOk};
ghost use Rattle.std.specs.Io.KnownBytes.{WriteAppends};
ghost use Rattle.ostore_base.specs.Faults.{HasCause, CountsFault};

use crate::outside::{Failed, Sink};
use crate::standard::counted::Counted;
use std::io::Write;

/// A writer as a sink. A writer that takes nothing of a piece that isn't empty has failed.
pub type StdSink<W> = Counted<W>;

impl<W: Write> Sink for Counted<W> {
    ghost written = { λ _. None };

    ghost faults = { λ s. s.1 };

    /// Answers what the writer answers.
    fn write(&mut self, bytes: &[u8]) -> Result<usize, Failed>
        ensures bound { IfOk result (λ n. n ≤ length bytes.now) }
        ensures some { IfOk result (λ n. 0 < length bytes.now → 0 < n) }
        ensures writer { WriteAppends (W.contents self.old.0) (W.contents self.new.0)
            result bytes.now }
        ensures fault { CountsFault self.old.1 self.new.1 result }
        ensures cause { HasCause self.old.1 self.new.1 result }
    {
        match self.inner.write(bytes) {
            Ok(count) if count > 0 || bytes.is_empty() => Ok(count),
            _ => Err(self.count.rise()),
        }
    }
}
