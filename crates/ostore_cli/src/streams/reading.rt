ghost use Rattle.std.specs.Prelude.{◌≡◌, ℕ, ◌+◌, ◌<◌, ◌≤◌, true, false, List, length, Option, IfOk, OnOk};
ghost use Rattle.ostore_cli.specs.Streams.{IsWholeRead};
ghost use Rattle.ostore_cli.specs.inside.HasRead.{HasRead, IsAtEnd};
ghost use Rattle.ostore_cli.specs.inside.InputCause.{HasInputCause};
ghost use Rattle.ostore_cli.specs.declared.streams.reading.InputFault.TheVariants.{OutOfMemory as NoMemory};

use ostore_base::{OutOfMemory, Source, Text};
use ostore_job_text::LONGEST_TEXT;
use std::alloc::Global;

/// How many bytes of a source are read at most: one more than the longest text.
const LONGEST_READ: usize = LONGEST_TEXT + 1;

/// How many bytes are asked for at a time.
const PIECE: usize = 8192;

/// Why a source's text could not be had.
#[derive(Clone, Copy, Debug, PartialEq, Eq)]
pub enum InputFault {
    /// A read failed, and the source's count of faults rose.
    SourceFailed,
    OutOfMemory,
}

impl From<OutOfMemory> for InputFault {
    ghost from_gives = { λ _ e. e ≡ NoMemory };

    fn from(_refused: OutOfMemory) -> InputFault {
        InputFault::OutOfMemory
    }
}

/// What was read of a source so far.
#[derive(Drop)]
struct Reading {
    text: Text,
    /// Whether a read has met the end. No read may follow it: at a terminal it would wait again.
    ended: bool,
}

// One read, into the buffer and from there to the end of what was read.
fn read_piece<S: Source>(
    source: &mut S,
    buffer: &mut [u8],
    reading: &mut Reading,
) -> Result<(), InputFault>
    requires unended { reading.old.ended ≡ false }
    requires room { 0 < length buffer.old }
    ensures cause { HasInputCause (S.faults source.old) (S.faults source.new) result }
    ensures read { (first : Option (List ℕ)) → HasRead first (S.left source.old) reading.old.text
        → OnOk result (HasRead first (S.left source.new) reading.new.text) }
    ensures bound { OnOk result
        (length reading.new.text ≤ length reading.old.text + length buffer.old) }
    ensures more { OnOk result (reading.new.ended ≡ false
        → length reading.old.text < length reading.new.text) }
    ensures end { OnOk result (reading.new.ended ≡ true → IsAtEnd (S.left source.new)) }
{
    let count = match source.read(buffer) {
        Ok(count) => count,
        Err(_) => return Err(InputFault::SourceFailed),
    };
    reading.text.push_bytes(&buffer[..count])?;
    reading.ended = count == 0;
    Ok(())
}

/// Reads a source to its end, or up to one byte more than the longest text. Nothing is read behind
/// the end.
pub(crate) fn read_text<S: Source>(alloc: Global, source: &mut S) -> Result<Text, InputFault>
    ensures cause { HasInputCause (S.faults source.old) (S.faults source.new) result }
    ensures read { IfOk result (λ all. IsWholeRead (S.left source.old) (S.left source.new) all) }
{
    let mut reading = Reading {
        text: Text::new(alloc),
        ended: false,
    };
    let mut buffer = [0u8; PIECE];
    while reading.text.bytes().len() < LONGEST_READ {
        let room = PIECE.min(LONGEST_READ - reading.text.bytes().len());
        read_piece(source, &mut buffer[..room], &mut reading)?;
        if reading.ended {
            return Ok(reading.text);
        }
    }
    Ok(reading.text)
}
