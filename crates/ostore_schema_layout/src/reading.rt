//! Reading a schema's text.

mod faults;
mod members;
mod names;
mod resolving;
mod types;
mod words;

ghost use Rattle.std.specs.Prelude.{◌≡◌, ◌⊎◌, IfOk, IfErr, Ok, Err};
ghost use Rattle.ostore_text_words.specs.Gives.{GivesSame};
ghost use Rattle.ostore_text_words.specs.Lines.{lines_of};
ghost use Rattle.ostore_schema_layout.specs.DeclaredBy.{declared_by};
ghost use Rattle.ostore_schema_layout.specs.declared.schema.Schema.{Schema};
ghost use Rattle.ostore_schema_layout.specs.Order.{IsLeastOrMemory};
ghost use Rattle.ostore_schema_layout.specs.Parsed.{IsOkOrMemory, IsOrMemory, parsed};
ghost use Rattle.ostore_schema_layout.specs.Spells.{Spells};

use crate::declarations::TypeDeclarations;
use crate::fault::SchemaFault;
use crate::reading::faults::first_fault;
use crate::reading::resolving::resolved;
use crate::reading::types::read_types;
use crate::schema::Schema;
use ostore_text_words::{LineReader, TextFault, utf8_fault};
use std::alloc::Global;

/// The longest text of a schema, in bytes.
pub const LONGEST_SCHEMA: usize = 32_764;

/// The types that the text declares, read line by line.
#[tactic(auto, using(ostore_text_words::proofs::LineReaders::lines_on_all))]
fn read_declarations(alloc: Global, bytes: &[u8]) -> Result<TypeDeclarations, TextFault>
    ensures { GivesSame result (declared_by (lines_of bytes.now)) }
{
    let mut lines = LineReader::new(alloc, bytes, 0)?;
    read_types(alloc, &mut lines)
}

/// The schema that the text spells, or the first of its faults.
#[tactic(auto, using(crate::proofs::parsed::Numbering::faultless_few, crate::proofs::parsed::ReaderLaws::words_fault), unfolding(crate::specs::Parsed::parsed))]
fn read_schema(alloc: Global, bytes: &[u8]) -> Result<Schema, SchemaFault>
    ensures { IsOrMemory result (parsed bytes.now) }
{
    if bytes.len() > LONGEST_SCHEMA {
        return Err(SchemaFault::TooLong { at: LONGEST_SCHEMA });
    }
    if let Some(at) = utf8_fault(bytes) {
        return Err(SchemaFault::NotUtf8 { at });
    }
    let types = read_declarations(alloc, bytes)?;
    if let Some(fault) = first_fault(types.items()) {
        return Err(fault);
    }
    Ok(resolved(alloc, types.items())?)
}

/// Reads a schema. Ok comes exactly for the texts that spell a lawful schema, and gives that one; each fault
/// comes exactly where the text has it.
pub fn parse_schema(alloc: Global, bytes: &[u8]) -> Result<Schema, SchemaFault>
    // What is answered is what the text says, a fault with its place.
    ensures exact { IsOrMemory result (parsed bytes.now) }
    // What is read is spelled in the text.
    ensures read { IfOk result (λ schema. Spells bytes.now schema) }
    // What is spelled in the text is read, and nothing else.
    ensures spelled { (schema : Schema) → Spells bytes.now schema → IsOkOrMemory result schema }
    // Of the faults of what is declared the least is answered, by place and then by number.
    ensures least { IfErr result (λ fault. IsLeastOrMemory bytes.now fault) }
{
    read_schema(alloc, bytes)
}
