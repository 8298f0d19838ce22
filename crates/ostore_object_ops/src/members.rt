//! `get`, and `set` to an int.

ghost use Rattle.std.specs.Prelude.{◌≡◌, List, Bool, true, IfOk, OnOk, IfErr};
ghost use Rattle.ostore_base.specs.declared.page.PageImage.{PageImage};
ghost use Rattle.ostore_graph_model.specs.declared.commands.Command.TheVariants as commands;
ghost use Rattle.ostore_graph_model.specs.declared.commands.Operand.TheVariants as operands;
ghost use Rattle.ostore_schema_layout.specs.declared.schema.MemberKind.TheVariants as kinds;
ghost use Rattle.ostore_segments.specs.Holdings.{Stands, Becomes, BringsOnly, OwnsOnly, Rests, BreaksOff};
ghost use Rattle.ostore_object_ops.specs.Bound.{leads_of};
ghost use Rattle.ostore_object_ops.specs.Means.{HasMeaning};
ghost use Rattle.ostore_object_ops.specs.Suits.{Suits};
ghost use Rattle.ostore_object_ops.specs.Claiming.{IsObjectPage};
ghost use Rattle.ostore_object_ops.specs.Executes.{Executes};
ghost use Rattle.ostore_object_ops.specs.inside.Members.{HasInt, HoldsInt, StoresInt};

use crate::lookup::{Found, find_place};
use crate::vars::Vars;
use ostore_base::Text;
use ostore_graph_model::{Refusal, Reply, Value};
use ostore_page_tags::get_i64;
use ostore_schema_layout::{MemberKind, Schema};
use ostore_segments::CellPages;

/// The int of a member that was found, on a page in view.
fn read_int<P: CellPages>(pages: &P, schema: &Schema, found: Found) -> i64
    requires suits { Suits schema.now (P.told pages.now) }
    requires view { (P.held pages.now).in_view found.page.0 }
    requires stands { Stands (P.held pages.now) (HasInt schema.now found) }
    ensures { (begun list : List PageImage) → (P.held pages.now).may_be begun list
        → HoldsInt found result list }
{
    get_i64(pages.image(found.page), found.offset + found.place.offset)
}

/// Writes the int of a member that was found.
fn store_int<P: CellPages>(
    pages: &mut P,
    schema: &Schema,
    found: Found,
    value: i64,
) -> Result<(), P::Fault>
    requires suits { Suits schema.now (P.told pages.old) }
    requires may { (P.told pages.old).may_edit ≡ true }
    requires stands { Stands (P.held pages.old) (HasInt schema.now found) }
    ensures lists { OnOk result (Becomes (P.held pages.old) (P.held pages.new)
        (λ old new. StoresInt schema.now found value old new)) }
    ensures passes { OnOk result (P.passes pages.old pages.new) }
    ensures brings { OnOk result (BringsOnly (P.held pages.old) (P.held pages.new)
        (λ named. named ≡ found.page.0)) }
    ensures owns { OnOk result (OwnsOnly (P.held pages.old) (P.held pages.new)
        (λ named. named ≡ found.page.0)) }
    ensures fails { IfErr result (λ fault. P.fails pages.old fault pages.new) }
    ensures stays { IfErr result (λ fault. P.stays fault
        → Rests (P.held pages.old) (P.held pages.new)) }
    ensures told { P.told pages.new ≡ P.told pages.old }
{
    pages.edit_cell(
        found.page,
        found.offset,
        found.place.offset,
        &value.to_le_bytes(),
    )?;
    Ok(())
}

/// `get`, of an object whose members are ints.
pub(crate) fn run_get<P: CellPages>(
    pages: &mut P,
    schema: &Schema,
    vars: &Vars,
    object: &Text,
    member: &Text,
) -> Result<Reply, P::Fault>
    requires suits { Suits schema.now (P.told pages.old) }
    requires stands { Stands (P.held pages.old)
        (HasMeaning schema.now (leads_of (P.held pages.old) vars.now)) }
    ensures lists { IfOk result (λ reply. (update : Bool) →
        Becomes (P.held pages.old) (P.held pages.new)
        (Executes schema.now update (commands.Get object.now member.now) reply
        (leads_of (P.held pages.old) vars.now) (leads_of (P.held pages.new) vars.now))) }
    ensures passes { OnOk result (P.passes pages.old pages.new) }
    ensures brings { OnOk result (BringsOnly (P.held pages.old) (P.held pages.new)
        (IsObjectPage (leads_of (P.held pages.old) vars.now) object.now)) }
    ensures owns { OnOk result (OwnsOnly (P.held pages.old) (P.held pages.new) (λ named. ⊥)) }
    ensures fails { IfErr result (λ fault. P.fails pages.old fault pages.new) }
    ensures stays { IfErr result (λ fault. P.stays fault
        → Rests (P.held pages.old) (P.held pages.new)) }
    ensures told { P.told pages.new ≡ P.told pages.old }
{
    let found = match find_place(pages, schema, vars, object, member)? {
        Ok(found) => found,
        Err(refusal) => return Ok(Reply::Refused(refusal)),
    };
    Ok(Reply::Value(Value::Int(read_int(pages, schema, found))))
}

/// `set` to an int, in an update, of an object whose members are ints.
pub(crate) fn run_set_int<P: CellPages>(
    pages: &mut P,
    schema: &Schema,
    vars: &Vars,
    object: &Text,
    member: &Text,
    value: i64,
) -> Result<Reply, P::Fault>
    requires suits { Suits schema.now (P.told pages.old) }
    requires may { (P.told pages.old).may_edit ≡ true }
    requires stands { Stands (P.held pages.old)
        (HasMeaning schema.now (leads_of (P.held pages.old) vars.now)) }
    ensures lists { let command = commands.Set object.now member.now (operands.Int value) in
        IfOk result (λ reply. Becomes (P.held pages.old) (P.held pages.new)
        (Executes schema.now true command reply
        (leads_of (P.held pages.old) vars.now) (leads_of (P.held pages.new) vars.now))) }
    ensures passes { OnOk result (P.passes pages.old pages.new) }
    ensures brings { OnOk result (BringsOnly (P.held pages.old) (P.held pages.new)
        (IsObjectPage (leads_of (P.held pages.old) vars.now) object.now)) }
    ensures owns { OnOk result (OwnsOnly (P.held pages.old) (P.held pages.new)
        (IsObjectPage (leads_of (P.held pages.old) vars.now) object.now)) }
    ensures fails { IfErr result (λ fault. P.fails pages.old fault pages.new) }
    ensures stays { let named = IsObjectPage (leads_of (P.held pages.old) vars.now) object.now in
        IfErr result (λ fault. P.stays fault
        → BreaksOff (P.held pages.old) (P.held pages.new) (λ list. named)) }
    ensures told { P.told pages.new ≡ P.told pages.old }
{
    let found = match find_place(pages, schema, vars, object, member)? {
        Ok(found) => found,
        Err(refusal) => return Ok(Reply::Refused(refusal)),
    };
    store_int(pages, schema, found, value)?;
    Ok(Reply::Done)
}
