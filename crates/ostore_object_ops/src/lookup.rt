//! The member of an object that the names of a command mean.

ghost use Rattle.std.specs.Prelude.{◌≡◌, ◌%◌, IfOk, OnOk, IfErr, MatchResult};
ghost use Rattle.ostore_base.specs.declared.page.TheConstants.{PAGE_SIZE};
ghost use Rattle.ostore_segments.specs.Holdings.{Stands, Becomes, Sees, BringsOnly, OwnsOnly, Rests};
ghost use Rattle.ostore_object_ops.specs.Bound.{leads_of};
ghost use Rattle.ostore_object_ops.specs.Means.{HasMeaning};
ghost use Rattle.ostore_object_ops.specs.Suits.{Suits};
ghost use Rattle.ostore_object_ops.specs.Claiming.{IsObjectPage};
ghost use Rattle.ostore_object_ops.specs.inside.Members.{IsMember, RefusesMember};

use crate::vars::Vars;
use ostore_base::{PAGE_SIZE, PageNo, Text};
use ostore_graph_model::Refusal;
use ostore_page_tags::row_at;
use ostore_schema_layout::{MemberNo, Place, Schema, TypeNo, place_of};
use ostore_segments::CellPages;

/// A member of a live object: the page of its cell and where that begins there, in bytes, the member's number,
/// and where it lies in the cell.
#[derive(Clone, Copy, Debug)]
pub(crate) struct Found {
    pub(crate) page: PageNo,
    pub(crate) offset: u16,
    pub(crate) number: MemberNo,
    pub(crate) place: Place,
}

/// The place in its page to which a pointer leads.
fn offset_of(pointer: u32) -> u16
    ensures { result ≡ pointer % PAGE_SIZE }
{
    (pointer % PAGE_SIZE as u32) as u16
}

/// The member of a variable's object that a command names, or why there is none. The object's page is then in
/// view.
pub(crate) fn find_place<P: CellPages>(
    pages: &mut P,
    schema: &Schema,
    vars: &Vars,
    variable: &Text,
    member: &Text,
) -> Result<Result<Found, Refusal>, P::Fault>
    requires suits { Suits schema.now (P.told pages.old) }
    requires stands { Stands (P.held pages.old)
        (HasMeaning schema.now (leads_of (P.held pages.old) vars.now)) }
    ensures lists { let leads = leads_of (P.held pages.old) vars.now in
        IfOk result (λ found. Becomes (P.held pages.old) (P.held pages.new)
        (Sees (λ list. MatchResult found
        (λ found. IsMember schema.now leads variable.now member.now found list)
        (λ refusal. RefusesMember schema.now leads variable.now member.now refusal list)))) }
    ensures view { IfOk result (λ found.
        IfOk found (λ found. (P.held pages.new).in_view found.page.0)) }
    ensures object { let leads = leads_of (P.held pages.old) vars.now in
        IfOk result (λ found. IfOk found (λ found. IsObjectPage leads variable.now found.page.0)) }
    ensures passes { OnOk result (P.passes pages.old pages.new) }
    ensures brings { OnOk result (BringsOnly (P.held pages.old) (P.held pages.new)
        (IsObjectPage (leads_of (P.held pages.old) vars.now) variable.now)) }
    ensures owns { OnOk result (OwnsOnly (P.held pages.old) (P.held pages.new) (λ named. ⊥)) }
    ensures fails { IfErr result (λ fault. P.fails pages.old fault pages.new) }
    ensures stays { IfErr result (λ fault. P.stays fault
        → Rests (P.held pages.old) (P.held pages.new)) }
    ensures told { P.told pages.new ≡ P.told pages.old }
{
    let Some(pointer) = vars.get(variable) else {
        return Ok(Err(Refusal::NoVariable));
    };
    let page = pages.page_at(pointer);
    let offset = offset_of(pointer);
    pages.enter(page)?;
    let Some(row) = row_at(pages.image(page), offset) else {
        unreachable!()
    };
    if !row.live {
        return Ok(Err(Refusal::Dangling));
    }
    let ty = TypeNo(row.code);
    let Some(number) = schema.member_named(ty, member.bytes()) else {
        return Ok(Err(Refusal::NoMember));
    };
    let Some(place) = place_of(schema, ty, number) else {
        unreachable!()
    };
    Ok(Ok(Found {
        page,
        offset,
        number,
        place,
    }))
}
