//! The canonical text of a job.

mod commands;
#[cfg(test)]
mod tests;
mod words;

ghost use Rattle.std.specs.Prelude.{◌≡◌, [], ◌∷◌, ◌++◌, map, codes, if◌then◌else◌, decimal, slice_get, IfOk, OnOk};
ghost use Rattle.std.specs.List.{flat_map};
ghost use Rattle.ostore_text_words.specs.Lines.{joined, text_of_lines};
ghost use Rattle.ostore_command_text.specs.CommandWords.{command_words};
ghost use Rattle.ostore_job_text.specs.Canonical.{option_words, client_options, client_line, begin_line, end_line, txn_lines, client_lines, client_name, turn_word, turns_line, turns_lines, canonical_text};
ghost use Rattle.ostore_job_print.specs.ReadBack.{IsReadBackIfLawful};
ghost use Rattle.ostore_job_print.specs.inside.Spaced.{spaced};

use commands::push_command;
use ostore_base::{ClientNo, OutOfMemory, Text};
use ostore_graph_model::{Command, Txn};
use ostore_job_text::{DEFAULT_CACHE, DEFAULT_FRAMES, DEFAULT_TRIES, Job, JobClient, JobTurn};
use ostore_text_words::push_number;
use std::alloc::Global;
use words::{push_count, push_word};

/// The canonical text of a job: one space between words, no comments, and a newline after each line. Each
/// entry of its `turns` names one of its clients; of an entry that names none nothing but its count is
/// printed. Of a lawful job, as `parse_job` gives one, the text is UTF-8, and reading it gives the job again,
/// unless it has more than 4,194,304 bytes: then it is `JobFault::TooLong`.
pub fn print_job(alloc: Global, job: &Job) -> Result<Text, OutOfMemory>
    ensures exact { IfOk result (λ text. text ≡ canonical_text job.now) }
    ensures read_back { IfOk result (λ text. IsReadBackIfLawful text job.now) }
{
    printed(alloc, job)
}

/// The lines of the clients, and behind them those of the turns.
fn printed(alloc: Global, job: &Job) -> Result<Text, OutOfMemory>
    ensures { IfOk result (λ text. text ≡ canonical_text job.now) }
{
    let mut out = Text::new(alloc);
    push_clients(&mut out, job.clients.items())?;
    push_turns(&mut out, job.clients.items(), job.turns.items())?;
    Ok(out)
}

/// Adds the lines of clients.
fn push_clients(out: &mut Text, clients: &[JobClient]) -> Result<(), OutOfMemory>
    ensures { OnOk result (out.new ≡ out.old ++ text_of_lines (flat_map client_lines clients.now)) }
{
    for client in clients {
        push_client(out, client)?;
    }
    Ok(())
}

/// Adds the lines of a client.
fn push_client(out: &mut Text, client: &JobClient) -> Result<(), OutOfMemory>
    ensures { OnOk result (out.new ≡ out.old ++ text_of_lines (client_lines client.now)) }
{
    push_client_line(out, client)?;
    push_txns(out, client.txns.items())
}

/// Adds `client NAME`, with those options that aren't at their default.
#[tactic(auto, using(crate::proofs::PrintWords::line_printed, crate::proofs::PrintWords::joined_parts))]
fn push_client_line(out: &mut Text, client: &JobClient) -> Result<(), OutOfMemory>
    ensures { OnOk result (out.new ≡ out.old ++ joined (client_line client.now)) }
{
    out.push_bytes(b"client")?;
    push_word(out, client.name.bytes())?;
    push_options(out, client)?;
    out.push_bytes(b"\n")
}

/// Adds those options that aren't at their default.
fn push_options(out: &mut Text, client: &JobClient) -> Result<(), OutOfMemory>
    ensures { OnOk result (out.new ≡ out.old ++ spaced (client_options client.now)) }
{
    push_option(out, b"tries", DEFAULT_TRIES, client.tries)?;
    push_option(out, b"cache", DEFAULT_CACHE, client.cache)?;
    push_option(out, b"frames", DEFAULT_FRAMES, client.frames)
}

/// Adds an option, where it isn't at its default.
fn push_option(out: &mut Text, name: &[u8], default: u32, value: u32) -> Result<(), OutOfMemory>
    ensures { OnOk result (out.new ≡ out.old ++ spaced (option_words name.now default value)) }
{
    if value == default {
        return Ok(());
    }
    push_word(out, name)?;
    push_count(out, u64::from(value))
}

/// Adds the lines of transactions.
fn push_txns(out: &mut Text, txns: &[Txn]) -> Result<(), OutOfMemory>
    ensures { OnOk result (out.new ≡ out.old ++ text_of_lines (flat_map txn_lines txns.now)) }
{
    for txn in txns {
        push_txn(out, txn)?;
    }
    Ok(())
}

/// Adds the lines of a transaction.
fn push_txn(out: &mut Text, txn: &Txn) -> Result<(), OutOfMemory>
    ensures { OnOk result (out.new ≡ out.old ++ text_of_lines (txn_lines txn.now)) }
{
    push_begin(out, txn.update)?;
    push_commands(out, txn.commands.items())?;
    push_end(out, txn.aborts)
}

/// Adds the first line of a transaction.
fn push_begin(out: &mut Text, update: bool) -> Result<(), OutOfMemory>
    ensures { OnOk result
        (out.new ≡ out.old ++ joined ((if update then codes "begin" else codes "read") ∷ [])) }
{
    if update {
        out.push_bytes(b"begin\n")
    } else {
        out.push_bytes(b"read\n")
    }
}

/// Adds the last line of a transaction.
fn push_end(out: &mut Text, aborts: bool) -> Result<(), OutOfMemory>
    ensures { OnOk result
        (out.new ≡ out.old ++ joined ((if aborts then codes "abort" else codes "commit") ∷ [])) }
{
    if aborts {
        out.push_bytes(b"abort\n")
    } else {
        out.push_bytes(b"commit\n")
    }
}

/// Adds the lines of commands.
fn push_commands(out: &mut Text, commands: &[Command]) -> Result<(), OutOfMemory>
    ensures { OnOk result (out.new ≡ out.old ++ text_of_lines (map command_words commands.now)) }
{
    for command in commands {
        push_command(out, command)?;
    }
    Ok(())
}

/// Adds the line `turns`, where there are entries.
#[tactic(auto, using(crate::proofs::PrintWords::turns_text))]
fn push_turns(out: &mut Text, clients: &[JobClient], turns: &[JobTurn]) -> Result<(), OutOfMemory>
    ensures { OnOk result (out.new ≡ out.old ++ text_of_lines (turns_lines clients.now turns.now)) }
{
    if turns.is_empty() {
        return Ok(());
    }
    push_turns_line(out, clients, turns)?;
    Ok(())
}

/// Adds the line `turns`.
#[tactic(auto, using(crate::proofs::PrintWords::line_printed, crate::proofs::PrintWords::joined_parts))]
fn push_turns_line(
    out: &mut Text,
    clients: &[JobClient],
    turns: &[JobTurn],
) -> Result<(), OutOfMemory>
    ensures { OnOk result (out.new ≡ out.old ++ joined (turns_line clients.now turns.now)) }
{
    out.push_bytes(b"turns")?;
    push_entries(out, clients, turns)?;
    out.push_bytes(b"\n")
}

/// Adds the entries of the line `turns`.
fn push_entries(out: &mut Text, clients: &[JobClient], turns: &[JobTurn]) -> Result<(), OutOfMemory>
    ensures { OnOk result (out.new ≡ out.old ++ spaced (map (turn_word clients.now) turns.now)) }
{
    for turn in turns {
        push_turn(out, clients, *turn)?;
    }
    Ok(())
}

/// Adds an entry: the client's name, and a count that isn't 1.
fn push_turn(out: &mut Text, clients: &[JobClient], turn: JobTurn) -> Result<(), OutOfMemory>
    ensures { OnOk result (out.new ≡ out.old ++ 32 ∷ turn_word clients.now turn) }
{
    push_word(out, client_name(clients, turn.client))?;
    if turn.count == 1 {
        return Ok(());
    }
    out.push_bytes(b"*")?;
    push_number(out, u64::from(turn.count))
}

/// The name of a client.
fn client_name(clients: &[JobClient], client: ClientNo) -> &[u8]
    ensures { result.now ≡ client_name clients.now client }
{
    match clients.get(usize::from(client.0)) {
        Some(client) => client.name.bytes(),
        None => &[],
    }
}
