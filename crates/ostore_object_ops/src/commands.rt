//! One command.

ghost use Rattle.std.specs.Prelude.{◌≡◌, ⊤, IfOk, OnOk, IfErr, OnErr};
ghost use Rattle.ostore_segments.specs.Holdings.{Stands, Becomes, Sees, BringsOnly, BringsOnEach, OwnsOnEach, BreaksOff};
ghost use Rattle.ostore_object_ops.specs.Bound.{leads_of, SameBound};
ghost use Rattle.ostore_object_ops.specs.Means.{HasMeaning};
ghost use Rattle.ostore_object_ops.specs.Suits.{Suits, MayUpdate, IsBuilt};
ghost use Rattle.ostore_graph_model.specs.Valid.{IsValid};
ghost use Rattle.ostore_object_ops.specs.Claiming.{IsObjectPage, IsUsedBy, IsOwnedBy, IsWantedBy};
ghost use Rattle.ostore_object_ops.specs.Executes.{Executes, LacksSpace};
ghost use Rattle.ostore_object_ops.specs.Stops.{IfNoSpace, IfOutOfMemory, Stopped};

use crate::making::run_new;
use crate::members::{run_get, run_set_int};
use crate::stop::Stop;
use crate::vars::Vars;
use ostore_base::Text;
use ostore_graph_model::{Command, Operand, Refusal, Reply};
use ostore_schema_layout::Schema;
use ostore_segments::CellPages;

/// `set`.
fn run_set<P: CellPages>(
    pages: &mut P,
    schema: &Schema,
    update: bool,
    vars: &Vars,
    object: &Text,
    member: &Text,
    value: &Operand,
) -> Result<Reply, P::Fault>
    requires suits { Suits schema.now (P.told pages.old) }
    requires may { MayUpdate update (P.told pages.old) }
    requires built { IsBuilt (Command.Set object.now member.now value.now) }
    requires stands { Stands (P.held pages.old)
        (HasMeaning schema.now (leads_of (P.held pages.old) vars.now)) }
    ensures lists { let command = Command.Set object.now member.now value.now in
        IfOk result (λ reply. Becomes (P.held pages.old) (P.held pages.new)
        (Executes schema.now update command reply
        (leads_of (P.held pages.old) vars.now) (leads_of (P.held pages.new) vars.now))) }
    ensures passes { OnOk result (P.passes pages.old pages.new) }
    ensures brings { OnOk result (BringsOnly (P.held pages.old) (P.held pages.new)
        (IsObjectPage (leads_of (P.held pages.old) vars.now) object.now)) }
    ensures owns { let command = Command.Set object.now member.now value.now in
        OnOk result (OwnsOnEach (P.held pages.old) (P.held pages.new)
        (IsOwnedBy update command (leads_of (P.held pages.old) vars.now))) }
    ensures fails { IfErr result (λ fault. P.fails pages.old fault pages.new) }
    ensures stays { let named = IsObjectPage (leads_of (P.held pages.old) vars.now) object.now in
        IfErr result (λ fault. P.stays fault
        → BreaksOff (P.held pages.old) (P.held pages.new) (λ list. named)) }
    ensures told { P.told pages.new ≡ P.told pages.old }
{
    match value {
        Operand::Int(number) => {
            if update {
                run_set_int(pages, schema, vars, object, member, *number)
            } else {
                Ok(Reply::Refused(Refusal::ReadOnly))
            }
        }
        _ => unreachable!(),
    }
}

/// Runs one command of a transaction, which is one of those that run. A refusal is a reply, and changes
/// nothing. Each answer holds of every list for which the holder may stand: the reply is the command's on the
/// graph that the list stands for, and the list that is made of it is valid and stands for the graph that the
/// command leaves. NoSpace comes exactly where `new` finds no place for its object; then the pages stay. A
/// fault is one that the holder answered, and what holds then the holder says. After want of memory the pages are
/// valid. A command that isn't executed binds no variable.
pub fn run_command<P: CellPages>(
    pages: &mut P,
    schema: &Schema,
    update: bool,
    vars: &mut Vars,
    command: &Command,
) -> Result<Reply, Stop<P::Fault>>
where
    P::Fault: Drop,
    requires suits { Suits schema.now (P.told pages.old) }
    requires may { MayUpdate update (P.told pages.old) }
    requires built { IsBuilt command.now }
    requires stands { Stands (P.held pages.old)
        (HasMeaning schema.now (leads_of (P.held pages.old) vars.old)) }
    ensures lists { IfOk result (λ reply. Becomes (P.held pages.old) (P.held pages.new)
        (Executes schema.now update command.now reply
        (leads_of (P.held pages.old) vars.old) (leads_of (P.held pages.new) vars.new))) }
    ensures space { IfErr result (IfNoSpace (λ no. Becomes (P.held pages.old) (P.held pages.new)
        (Sees (LacksSpace schema.now update command.now no)))) }
    ensures vars { OnErr result (SameBound vars.old vars.new) }
    ensures passes { OnOk result (P.passes pages.old pages.new) }
    ensures brings { OnOk result (BringsOnEach (P.held pages.old) (P.held pages.new)
        (IsUsedBy update command.now (leads_of (P.held pages.old) vars.old))) }
    ensures owns { OnOk result (OwnsOnEach (P.held pages.old) (P.held pages.new)
        (IsOwnedBy update command.now (leads_of (P.held pages.old) vars.old))) }
    ensures stops { IfErr result (λ stop. Stopped stop
        (λ fault. P.fails pages.old fault pages.new) (P.passes pages.old pages.new)) }
    ensures stays { IfErr result (λ stop. Stopped stop (λ fault. P.stays fault
        → BreaksOff (P.held pages.old) (P.held pages.new)
        (IsWantedBy update command.now (leads_of (P.held pages.old) vars.old))) ⊤) }
    ensures memory { IfErr result (IfOutOfMemory (Becomes (P.held pages.old) (P.held pages.new)
        (λ old new. IsValid schema.now new))) }
    ensures told { P.told pages.new ≡ P.told pages.old }
{
    match command {
        Command::New { to, ty, segment } => {
            if update {
                run_new(pages, schema, vars, to, ty, *segment)
            } else {
                Ok(Reply::Refused(Refusal::ReadOnly))
            }
        }
        Command::Get { object, member } => {
            match run_get(pages, schema, vars, object, member) {
                Ok(reply) => Ok(reply),
                Err(fault) => Err(Stop::Fault(fault)),
            }
        }
        Command::Set {
            object,
            member,
            value,
        } => match run_set(pages, schema, update, vars, object, member, value) {
            Ok(reply) => Ok(reply),
            Err(fault) => Err(Stop::Fault(fault)),
        },
        _ => unreachable!(),
    }
}
