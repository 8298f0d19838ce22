//! Names in a line, by the index of their word, which counts from 0.

ghost use Rattle.ostore_text_words.specs.Gives.{GivesSame};
ghost use Rattle.ostore_text_words.specs.Seen.{seen_line};
ghost use Rattle.ostore_schema_layout.specs.DeclaredBy.{name_at, max_at};

use crate::declarations::NameAt;
use ostore_base::Text;
use ostore_text_words::{Line, TextFault};
use std::alloc::Global;

/// The longest length that a text may have, in bytes.
const LONGEST_TEXT: u64 = 40;

/// The word as a name, which has to be an identifier.
#[tactic(auto, unfolding(crate::specs::DeclaredBy::name_at))]
pub(super) fn name(alloc: Global, line: &Line, i: usize) -> Result<NameAt, TextFault>
    ensures { GivesSame result (name_at (seen_line line.now) i) }
{
    let found = line.identifier(i)?;
    Ok(NameAt {
        at: found.at,
        name: Text::from_bytes(alloc, found.bytes)?,
    })
}

/// The word as the greatest length of a text, 1 to 40.
pub(super) fn max(line: &Line, i: usize) -> Result<u8, TextFault>
    ensures { GivesSame result (max_at (seen_line line.now) i) }
{
    let max = line.count(i, 1, LONGEST_TEXT)?;
    Ok(max as u8)
}
