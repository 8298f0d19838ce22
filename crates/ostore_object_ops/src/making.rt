//! `new`.

ghost use Rattle.std.specs.Prelude.{◌≡◌, ◌<◌, ◌+◌, true, IfOk, OnOk, IfErr, OnErr, MatchResult, ⊤};
ghost use Rattle.ostore_base.specs.declared.page.TheConstants.{PAGE_SIZE};
ghost use Rattle.ostore_graph_model.specs.declared.commands.Command.TheVariants as commands;
ghost use Rattle.ostore_page_tags.specs.declared.layout.TheConstants.{ROW_BYTES};
ghost use Rattle.ostore_page_tags.specs.Limits.{most_pages};
ghost use Rattle.ostore_page_tags.specs.PageChains.{IsSegment};
ghost use Rattle.ostore_page_tags.specs.Allocated.{IsAllocated};
ghost use Rattle.ostore_schema_layout.specs.Cells.{IsType, code_size};
ghost use Rattle.ostore_segments.specs.Holdings.{Stands, Becomes, Sees, BringsOnEach, OwnsOnEach, BreaksOff};
ghost use Rattle.ostore_segments.specs.Serials.{AreSpent};
ghost use Rattle.ostore_segments.specs.Placing.{FindsNone};
ghost use Rattle.ostore_segments.specs.Naming.{IsNamedIn, IsWantedIn};
ghost use Rattle.ostore_segments.specs.Making.{Makes};
ghost use Rattle.ostore_object_ops.specs.Bound.{leads_of, SameBound};
ghost use Rattle.ostore_object_ops.specs.Means.{HasMeaning};
ghost use Rattle.ostore_object_ops.specs.Suits.{Suits};
ghost use Rattle.ostore_graph_model.specs.Valid.{IsValid};
ghost use Rattle.ostore_object_ops.specs.Claiming.{IsUsedBy, IsOwnedBy, IsWantedBy};
ghost use Rattle.ostore_object_ops.specs.Executes.{Executes, LacksSpace};
ghost use Rattle.ostore_object_ops.specs.Stops.{IfNoSpace, IfOutOfMemory, Stopped};

use crate::stop::Stop;
use crate::vars::Vars;
use ostore_base::Text;
use ostore_graph_model::{Name, Refusal, Reply};
use ostore_schema_layout::{Schema, TypeNo, code_size};
use ostore_segments::{CellPages, NewCell, NoSpace, make, serials_spent};

/// Makes the cell of a new object of a type, whose page is then in view.
fn make_cell<P: CellPages>(
    pages: &mut P,
    schema: &Schema,
    number: TypeNo,
    segment: u8,
) -> Result<Result<NewCell, NoSpace>, P::Fault>
    requires suits { Suits schema.now (P.told pages.old) }
    requires may { (P.told pages.old).may_edit ≡ true }
    requires ty { IsType schema.now number.0 }
    requires segment { IsSegment segment }
    requires allocated { Stands (P.held pages.old) IsAllocated }
    requires left { Stands (P.held pages.old) (λ list. AreSpent list segment → ⊥) }
    ensures lists { let size = code_size schema.now number.0 in
        IfOk result (λ made. Becomes (P.held pages.old) (P.held pages.new)
        (λ old new. MatchResult made
        (λ cell. Makes old new segment cell.page.0 size number.0 cell.serial cell.offset)
        (λ lack. FindsNone old new segment (size + ROW_BYTES)))) }
    ensures why { let size = code_size schema.now number.0 in
        IfOk result (λ made. MatchResult made (λ _. ⊤)
        (λ lack. (lack.segment ≡ segment) × (lack.need ≡ size + ROW_BYTES))) }
    ensures place { IfOk result (λ made. IfOk made
        (λ cell. (cell.page.0 < most_pages) × (cell.offset < PAGE_SIZE))) }
    ensures view { IfOk result (λ made. IfOk made
        (λ cell. (P.held pages.new).in_view cell.page.0)) }
    ensures passes { OnOk result (P.passes pages.old pages.new) }
    ensures brings { OnOk result (BringsOnEach (P.held pages.old) (P.held pages.new)
        (λ list. IsNamedIn list segment)) }
    ensures owns { OnOk result (OwnsOnEach (P.held pages.old) (P.held pages.new)
        (λ list. IsNamedIn list segment)) }
    ensures fails { IfErr result (λ fault. P.fails pages.old fault pages.new) }
    ensures stays { IfErr result (λ fault. P.stays fault
        → BreaksOff (P.held pages.old) (P.held pages.new) (λ list. IsWantedIn list segment)) }
    ensures told { P.told pages.new ≡ P.told pages.old }
{
    let cell = match make(pages, segment, code_size(schema, number.0), number.0)? {
        Ok(cell) => cell,
        Err(lack) => return Ok(Err(lack)),
    };
    pages.enter(cell.page)?;
    Ok(Ok(cell))
}

/// `new`, in an update.
pub(crate) fn run_new<P: CellPages>(
    pages: &mut P,
    schema: &Schema,
    vars: &mut Vars,
    to: &Text,
    ty: &Text,
    segment: u8,
) -> Result<Reply, Stop<P::Fault>>
where
    P::Fault: Drop,
    requires suits { Suits schema.now (P.told pages.old) }
    requires may { (P.told pages.old).may_edit ≡ true }
    requires segment { IsSegment segment }
    requires stands { Stands (P.held pages.old)
        (HasMeaning schema.now (leads_of (P.held pages.old) vars.old)) }
    ensures lists { let command = commands.New to.now ty.now segment in
        IfOk result (λ reply. Becomes (P.held pages.old) (P.held pages.new)
        (Executes schema.now true command reply
        (leads_of (P.held pages.old) vars.old) (leads_of (P.held pages.new) vars.new))) }
    ensures space { let command = commands.New to.now ty.now segment in
        IfErr result (IfNoSpace (λ no. Becomes (P.held pages.old) (P.held pages.new)
        (Sees (LacksSpace schema.now true command no)))) }
    ensures vars { OnErr result (SameBound vars.old vars.new) }
    ensures passes { OnOk result (P.passes pages.old pages.new) }
    ensures brings { let command = commands.New to.now ty.now segment in
        OnOk result (BringsOnEach (P.held pages.old) (P.held pages.new)
        (IsUsedBy true command (leads_of (P.held pages.old) vars.old))) }
    ensures owns { let command = commands.New to.now ty.now segment in
        OnOk result (OwnsOnEach (P.held pages.old) (P.held pages.new)
        (IsOwnedBy true command (leads_of (P.held pages.old) vars.old))) }
    ensures stops { IfErr result (λ stop. Stopped stop
        (λ fault. P.fails pages.old fault pages.new) (P.passes pages.old pages.new)) }
    ensures stays { let command = commands.New to.now ty.now segment in
        IfErr result (λ stop. Stopped stop (λ fault. P.stays fault
        → BreaksOff (P.held pages.old) (P.held pages.new)
        (IsWantedBy true command (leads_of (P.held pages.old) vars.old))) ⊤) }
    ensures memory { IfErr result (IfOutOfMemory (Becomes (P.held pages.old) (P.held pages.new)
        (λ old new. IsValid schema.now new))) }
    ensures told { P.told pages.new ≡ P.told pages.old }
{
    let Some(number) = schema.type_named(ty.bytes()) else {
        return Ok(Reply::Refused(Refusal::WrongType));
    };
    let spent = match serials_spent(pages, segment) {
        Ok(spent) => spent,
        Err(fault) => return Err(Stop::Fault(fault)),
    };
    if spent {
        return Ok(Reply::Refused(Refusal::SerialsSpent));
    }
    let made = match make_cell(pages, schema, number, segment) {
        Ok(made) => made,
        Err(fault) => return Err(Stop::Fault(fault)),
    };
    let cell = match made {
        Ok(cell) => cell,
        Err(lack) => return Err(Stop::NoSpace(lack)),
    };
    match vars.bind(to, pages.pointer_to(cell.page, cell.offset)) {
        Ok(()) => {}
        Err(_) => return Err(Stop::OutOfMemory),
    }
    Ok(Reply::Named(Name {
        segment,
        serial: cell.serial,
    }))
}
