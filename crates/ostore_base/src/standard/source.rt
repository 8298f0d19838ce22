ghost use Rattle.std.specs.Prelude.{◌≡◌, ◌≤◌, length, None, IfOk};
ghost use Rattle.std.specs.Io.KnownBytes.{ReadConsumes};
ghost use Rattle.ostore_base.specs.Faults.{HasCause, CountsFault};

use crate::outside::{Failed, Source};
use crate::standard::counted::Counted;
use std::io::Read;

/// A reader as a source.
pub type StdSource<R> = Counted<R>;

impl<R: Read> Source for Counted<R> {
    ghost left = { λ _. None };

    ghost faults = { λ s. s.1 };

    /// Answers what the reader answers.
    fn read(&mut self, into: &mut [u8]) -> Result<usize, Failed>
        ensures bound { IfOk result (λ n. n ≤ length into.new) }
        ensures reader { ReadConsumes (R.remaining self.old.0) (R.remaining self.new.0)
            result into.new }
        ensures fault { CountsFault self.old.1 self.new.1 result }
        ensures cause { HasCause self.old.1 self.new.1 result }
    {
        match self.inner.read(into) {
            Ok(count) => Ok(count),
            Err(_) => Err(self.count.rise()),
        }
    }
}
