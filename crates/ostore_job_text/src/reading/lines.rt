//! The lines of a job, by where they stand.

ghost use Rattle.std.specs.Prelude.{◌≡◌};
ghost use Rattle.ostore_text_words.specs.Gives.{GivesSame, GivesTaken};
ghost use Rattle.ostore_text_words.specs.Seen.{seen_line};
ghost use Rattle.ostore_job_text.specs.LinesSaid.{in_txn_at, in_turns_at, at_start_at, in_client_at, said_by_verb, said_at, stand_after, ends_at};

use super::clients::{read_client, read_turns};
use crate::said::{LineSaid, Stand};
use ostore_command_text::read_command;
use ostore_text_words::{Line, LineReader, TextFault, Word};
use std::alloc::Global;

/// A command of a transaction, or its last line.
#[tactic(auto, unfolding(crate::specs::LinesSaid::in_txn_at))]
fn in_txn(alloc: Global, line: &Line, verb: &Word) -> Result<LineSaid, TextFault>
    ensures { GivesSame result (in_txn_at (seen_line line.now) verb.now.at verb.now.bytes.now) }
{
    if verb.bytes == b"commit".as_slice() {
        line.ended(1)?;
        return Ok(LineSaid::End { aborts: false });
    }
    if verb.bytes == b"abort".as_slice() {
        line.ended(1)?;
        return Ok(LineSaid::End { aborts: true });
    }
    let command = read_command(alloc, line, verb)?;
    Ok(LineSaid::Command(command))
}

/// A line `turns`.
#[tactic(auto, unfolding(crate::specs::LinesSaid::in_turns_at))]
fn in_turns(alloc: Global, line: &Line, verb: &Word) -> Result<LineSaid, TextFault>
    ensures { GivesSame result (in_turns_at (seen_line line.now) verb.now.at verb.now.bytes.now) }
{
    if verb.bytes == b"turns".as_slice() {
        return read_turns(alloc, line);
    }
    Err(TextFault::Syntax { at: verb.at })
}

/// A client's line, or a line `turns`.
#[tactic(auto, unfolding(crate::specs::LinesSaid::at_start_at))]
fn at_start(alloc: Global, line: &Line, verb: &Word) -> Result<LineSaid, TextFault>
    ensures { GivesSame result (at_start_at (seen_line line.now) verb.now.at verb.now.bytes.now) }
{
    if verb.bytes == b"client".as_slice() {
        return read_client(alloc, line);
    }
    in_turns(alloc, line, verb)
}

/// The first line of a transaction, or a line that stands behind a client.
#[tactic(auto, unfolding(crate::specs::LinesSaid::in_client_at))]
fn in_client(alloc: Global, line: &Line, verb: &Word) -> Result<LineSaid, TextFault>
    ensures { GivesSame result (in_client_at (seen_line line.now) verb.now.at verb.now.bytes.now) }
{
    if verb.bytes == b"begin".as_slice() {
        line.ended(1)?;
        return Ok(LineSaid::Begin { update: true });
    }
    if verb.bytes == b"read".as_slice() {
        line.ended(1)?;
        return Ok(LineSaid::Begin { update: false });
    }
    at_start(alloc, line, verb)
}

/// What the line says by its first word, where it stands.
fn read_by_verb(
    alloc: Global,
    stand: Stand,
    line: &Line,
    verb: &Word,
) -> Result<LineSaid, TextFault>
    ensures { GivesSame result
        (said_by_verb stand (seen_line line.now) verb.now.at verb.now.bytes.now) }
{
    match stand {
        Stand::Start => at_start(alloc, line, verb),
        Stand::InClient => in_client(alloc, line, verb),
        Stand::InTxn => in_txn(alloc, line, verb),
        Stand::InTurns => in_turns(alloc, line, verb),
    }
}

/// What the line says, where it stands.
#[tactic(auto, unfolding(crate::specs::LinesSaid::said_at))]
fn read_line(alloc: Global, stand: Stand, line: &Line) -> Result<LineSaid, TextFault>
    ensures { GivesSame result (said_at stand (seen_line line.now)) }
{
    let verb = line.word(0)?;
    read_by_verb(alloc, stand, line, &verb)
}

/// Takes the next line, which stands there.
pub(super) fn take_line(
    alloc: Global,
    stand: Stand,
    lines: &mut LineReader,
) -> Result<LineSaid, TextFault>
    ensures { GivesTaken (said_at stand) lines.old lines.new result }
{
    let said = read_line(alloc, stand, lines.line()?)?;
    lines.advance()?;
    Ok(said)
}

/// Where the line behind this one stands.
pub(super) fn stand_after(said: &LineSaid) -> Stand
    ensures { result ≡ stand_after said.now }
{
    match said {
        LineSaid::Client(_) => Stand::InClient,
        LineSaid::Begin { .. } => Stand::InTxn,
        LineSaid::Command(_) => Stand::InTxn,
        LineSaid::End { .. } => Stand::InClient,
        LineSaid::Turns(_) => Stand::InTurns,
    }
}

/// The text may end here, where no transaction lacks its last line.
pub(super) fn ends(end: usize, stand: Stand) -> Result<(), TextFault>
    ensures { GivesSame result (ends_at end stand) }
{
    match stand {
        Stand::InTxn => Err(TextFault::Syntax { at: end }),
        Stand::Start | Stand::InClient | Stand::InTurns => Ok(()),
    }
}
