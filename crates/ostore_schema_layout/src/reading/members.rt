//! The lines of members: a name, a kind, and what the kind takes.

ghost use Rattle.std.specs.Prelude.{Some};
ghost use Rattle.ostore_text_words.specs.Gives.{Gives, GivesSame};
ghost use Rattle.ostore_text_words.specs.LineWords.{if_ended};
ghost use Rattle.ostore_text_words.specs.Seen.{seen_line};
ghost use Rattle.ostore_schema_layout.specs.DeclaredBy.{named_inverse_at, inverse_at, text_at, ref_at, set_at, list_at, dict_int_at, dict_text_at, dict_at, kind_at, member_at};
ghost use Rattle.ostore_schema_layout.specs.declared.declarations.KindDeclaration.TheVariants.{Int};

use crate::declarations::{InverseDeclaration, KindDeclaration, MemberDeclaration};
use crate::reading::words::{max, name};
use ostore_base::Text;
use ostore_text_words::{Line, TextFault, read_dotted};
use std::alloc::Global;

/// `inverse TYPE.MEMBER` to the end of the line, from word 3 on.
#[tactic(auto, unfolding(crate::specs::DeclaredBy::named_inverse_at))]
fn named_inverse(alloc: Global, line: &Line) -> Result<InverseDeclaration, TextFault>
    ensures { Gives (λ inverse. Some inverse) result (named_inverse_at (seen_line line.now)) }
{
    line.keyword(b"inverse", 3)?;
    let found = line.word(4)?;
    let Some((ty, member)) = read_dotted(found.bytes) else {
        return Err(TextFault::Syntax { at: found.at });
    };
    line.ended(5)?;
    Ok(InverseDeclaration {
        at: found.at,
        ty: Text::from_bytes(alloc, ty)?,
        member: Text::from_bytes(alloc, member)?,
    })
}

/// The inverse, where one is named.
fn inverse(alloc: Global, line: &Line) -> Result<Option<InverseDeclaration>, TextFault>
    ensures { GivesSame result (inverse_at (seen_line line.now)) }
{
    if line.words.items().len() <= 3 {
        return Ok(None);
    }
    Ok(Some(named_inverse(alloc, line)?))
}

/// `text N`.
#[tactic(auto, unfolding(crate::specs::DeclaredBy::text_at))]
fn text_kind(line: &Line) -> Result<KindDeclaration, TextFault>
    ensures { GivesSame result (text_at (seen_line line.now)) }
{
    let max = max(line, 2)?;
    line.ended(3)?;
    Ok(KindDeclaration::Text { max })
}

/// `ref TYPE`, with an inverse or none.
#[tactic(auto, unfolding(crate::specs::DeclaredBy::ref_at))]
fn ref_kind(alloc: Global, line: &Line) -> Result<KindDeclaration, TextFault>
    ensures { GivesSame result (ref_at (seen_line line.now)) }
{
    Ok(KindDeclaration::Ref {
        target: name(alloc, line, 2)?,
        inverse: inverse(alloc, line)?,
    })
}

/// `set TYPE`, with an inverse or none.
#[tactic(auto, unfolding(crate::specs::DeclaredBy::set_at))]
fn set_kind(alloc: Global, line: &Line) -> Result<KindDeclaration, TextFault>
    ensures { GivesSame result (set_at (seen_line line.now)) }
{
    Ok(KindDeclaration::Set {
        target: name(alloc, line, 2)?,
        inverse: inverse(alloc, line)?,
    })
}

/// `list TYPE`.
#[tactic(auto, unfolding(crate::specs::DeclaredBy::list_at))]
fn list_kind(alloc: Global, line: &Line) -> Result<KindDeclaration, TextFault>
    ensures { GivesSame result (list_at (seen_line line.now)) }
{
    let target = name(alloc, line, 2)?;
    line.ended(3)?;
    Ok(KindDeclaration::List { target })
}

/// `dict int TYPE`, from its type on.
#[tactic(auto, unfolding(crate::specs::DeclaredBy::dict_int_at))]
fn dict_int_kind(alloc: Global, line: &Line) -> Result<KindDeclaration, TextFault>
    ensures { GivesSame result (dict_int_at (seen_line line.now)) }
{
    let target = name(alloc, line, 3)?;
    line.ended(4)?;
    Ok(KindDeclaration::DictInt { target })
}

/// `dict text TYPE`, from its type on.
#[tactic(auto, unfolding(crate::specs::DeclaredBy::dict_text_at))]
fn dict_text_kind(alloc: Global, line: &Line) -> Result<KindDeclaration, TextFault>
    ensures { GivesSame result (dict_text_at (seen_line line.now)) }
{
    let target = name(alloc, line, 3)?;
    line.ended(4)?;
    Ok(KindDeclaration::DictText { target })
}

/// `dict`, its key and its type.
#[tactic(auto, unfolding(crate::specs::DeclaredBy::dict_at))]
fn dict_kind(alloc: Global, line: &Line) -> Result<KindDeclaration, TextFault>
    ensures { GivesSame result (dict_at (seen_line line.now)) }
{
    let key = line.word(2)?;
    if key.bytes == b"int".as_slice() {
        return dict_int_kind(alloc, line);
    }
    if key.bytes == b"text".as_slice() {
        return dict_text_kind(alloc, line);
    }
    Err(TextFault::Syntax { at: key.at })
}

/// `int`.
fn int_kind(line: &Line) -> Result<KindDeclaration, TextFault>
    ensures { GivesSame result (if_ended (seen_line line.now) 2 Int) }
{
    line.ended(2)?;
    Ok(KindDeclaration::Int)
}

/// What the line says behind the member's name.
#[tactic(auto, unfolding(crate::specs::DeclaredBy::kind_at))]
fn kind(alloc: Global, line: &Line) -> Result<KindDeclaration, TextFault>
    ensures { GivesSame result (kind_at (seen_line line.now)) }
{
    let kind = line.word(1)?;
    if kind.bytes == b"int".as_slice() {
        return int_kind(line);
    }
    if kind.bytes == b"text".as_slice() {
        return text_kind(line);
    }
    if kind.bytes == b"ref".as_slice() {
        return ref_kind(alloc, line);
    }
    if kind.bytes == b"set".as_slice() {
        return set_kind(alloc, line);
    }
    if kind.bytes == b"list".as_slice() {
        return list_kind(alloc, line);
    }
    if kind.bytes == b"dict".as_slice() {
        return dict_kind(alloc, line);
    }
    Err(TextFault::Syntax { at: kind.at })
}

/// The member that the line declares.
#[tactic(auto, unfolding(crate::specs::DeclaredBy::member_at))]
pub(super) fn member(alloc: Global, line: &Line) -> Result<MemberDeclaration, TextFault>
    ensures { GivesSame result (member_at (seen_line line.now)) }
{
    Ok(MemberDeclaration {
        name: name(alloc, line, 0)?,
        kind: kind(alloc, line)?,
    })
}
