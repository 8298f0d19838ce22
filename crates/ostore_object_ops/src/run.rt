//! The lines of a transaction.

ghost use Rattle.std.specs.Prelude.{◌≡◌, ◌<◌, ⊤, length, IfOk, OnOk, OnErr, IfErr};
ghost use Rattle.std.specs.List.{AllByRecursion};
ghost use Rattle.ostore_segments.specs.Holdings.{Stands, Becomes, Sees};
ghost use Rattle.ostore_graph_model.specs.Valid.{IsValid};
ghost use Rattle.ostore_object_ops.specs.Progresses.{replies_of, leads_by};
ghost use Rattle.ostore_object_ops.specs.Means.{HasMeaning};
ghost use Rattle.ostore_object_ops.specs.Suits.{Suits, MayUpdate, IsBuilt};
ghost use Rattle.ostore_object_ops.specs.Stops.{IfNoSpace, IfOutOfMemory, Stopped};
ghost use Rattle.ostore_object_ops.specs.Claiming.{SeesLinePages, BreaksLine, BringsUsed, OwnsWritten, BringsWanted, HasFewInView};
ghost use Rattle.ostore_object_ops.specs.Lines.{RunsLine, LacksLine, Transacts, LacksGrowth};

use crate::commands::run_command;
use crate::progress::Progress;
use crate::stop::Stop;
use ostore_graph_model::{Replies, Txn};
use ostore_schema_layout::Schema;
use ostore_segments::CellPages;
use std::alloc::Global;

/// Executes the next line of a transaction, whose commands are of those that run, and adds its reply to the
/// progress. It stops as [`run_command`] does, and the replies then stay. A line that was executed brings into view
/// only the pages that its command uses, and owns only those that it writes: `get` none, `set` the object's page. One
/// that was broken off by a fault that leaves all as it was brings into view only those that the command wanted.
pub fn run_line<P: CellPages>(
    pages: &mut P,
    schema: &Schema,
    txn: &Txn,
    progress: &mut Progress,
) -> Result<(), Stop<P::Fault>>
where
    P::Fault: Drop,
    requires suits { Suits schema.now (P.told pages.old) }
    requires may { MayUpdate txn.now.update (P.told pages.old) }
    requires built { AllByRecursion IsBuilt txn.now.commands }
    requires left { length (replies_of progress.old) < length txn.now.commands }
    requires stands { Stands (P.held pages.old)
        (HasMeaning schema.now (leads_by (P.held pages.old) progress.old)) }
    ensures lists { OnOk result (Becomes (P.held pages.old) (P.held pages.new)
        (RunsLine schema.now txn.now (replies_of progress.old) (replies_of progress.new)
        (leads_by (P.held pages.old) progress.old) (leads_by (P.held pages.new) progress.new))) }
    ensures space { IfErr result (IfNoSpace (λ no. Becomes (P.held pages.old) (P.held pages.new)
        (Sees (LacksLine schema.now txn.now (replies_of progress.old) no)))) }
    ensures kept { OnErr result (replies_of progress.new ≡ replies_of progress.old) }
    ensures passes { OnOk result (P.passes pages.old pages.new) }
    ensures sees { OnOk result (SeesLinePages txn.now.update (P.held pages.old)
        → SeesLinePages txn.now.update (P.held pages.new)) }
    ensures stops { IfErr result (λ stop. Stopped stop
        (λ fault. P.fails pages.old fault pages.new) (P.passes pages.old pages.new)) }
    ensures stays { IfErr result (λ stop. Stopped stop (λ fault. P.stays fault
        → SeesLinePages txn.now.update (P.held pages.old)
        → BreaksLine txn.now.update (P.held pages.old) (P.held pages.new)) ⊤) }
    ensures memory { IfErr result (IfOutOfMemory (Becomes (P.held pages.old) (P.held pages.new)
        (λ old new. IsValid schema.now new))) }
    ensures told { P.told pages.new ≡ P.told pages.old }
    ensures brings { OnOk result (BringsUsed txn.now progress.old (P.held pages.old)
        (P.held pages.new)) }
    ensures owns { OnOk result (OwnsWritten txn.now progress.old (P.held pages.old)
        (P.held pages.new)) }
    ensures wants { IfErr result (λ stop. Stopped stop (λ fault. P.stays fault
        → BringsWanted txn.now progress.old (P.held pages.old) (P.held pages.new)) ⊤) }
{
    let commands = txn.commands.items();
    let place = progress.replies.len();
    let command = &commands[place];
    let reply = match run_command(pages, schema, txn.update, &mut progress.vars, command) {
        Ok(reply) => reply,
        Err(stop) => return Err(stop),
    };
    match progress.replies.push(reply) {
        Ok(()) => {}
        Err(_) => return Err(Stop::OutOfMemory),
    }
    Ok(())
}

/// Executes all lines of a transaction, and gives the replies to its commands. NoSpace comes only where fewer
/// pages were free than the transaction may take.
pub fn run_transaction<P: CellPages>(
    alloc: Global,
    pages: &mut P,
    schema: &Schema,
    txn: &Txn,
) -> Result<Replies, Stop<P::Fault>>
where
    P::Fault: Drop,
    requires suits { Suits schema.now (P.told pages.old) }
    requires may { MayUpdate txn.now.update (P.told pages.old) }
    requires built { AllByRecursion IsBuilt txn.now.commands }
    requires stands { Stands (P.held pages.old) (IsValid schema.now) }
    ensures lists { IfOk result (λ replies. Becomes (P.held pages.old) (P.held pages.new)
        (Transacts schema.now txn.now replies)) }
    ensures space { IfErr result (IfNoSpace (λ no. Becomes (P.held pages.old) (P.held pages.new)
        (λ old new. LacksGrowth txn.now old))) }
    ensures passes { OnOk result (P.passes pages.old pages.new) }
    ensures sees { OnOk result (SeesLinePages txn.now.update (P.held pages.old)
        → SeesLinePages txn.now.update (P.held pages.new)) }
    ensures stops { IfErr result (λ stop. Stopped stop
        (λ fault. P.fails pages.old fault pages.new) (P.passes pages.old pages.new)) }
    ensures stays { IfErr result (λ stop. Stopped stop (λ fault. P.stays fault
        → SeesLinePages txn.now.update (P.held pages.old)
        → Becomes (P.held pages.old) (P.held pages.new)
        (λ old new. HasFewInView (P.held pages.new) txn.now old)) ⊤) }
    ensures memory { IfErr result (IfOutOfMemory (Becomes (P.held pages.old) (P.held pages.new)
        (λ old new. IsValid schema.now new))) }
    ensures told { P.told pages.new ≡ P.told pages.old }
{
    let mut progress = Progress::new(alloc);
    for _line in 0..txn.commands.items().len() {
        match run_line(pages, schema, txn, &mut progress) {
            Ok(()) => {}
            Err(stop) => return Err(stop),
        }
    }
    Ok(progress.into_replies())
}
