//! Words of 64 bits in a report.

ghost use Rattle.std.specs.Prelude.{◌≡◌, ◌<◌, ◌∷◌, [], ◌++◌, false, OnOk};
ghost use Rattle.std.specs.Fmt.{digit_glyph};
ghost use Rattle.ostore_run_report.specs.Report.{word_text};

use ostore_base::{OutOfMemory, Text};

/// Adds a word as 16 hexadecimal digits, the highest first.
pub fn push_word(out: &mut Text, word: u64) -> Result<(), OutOfMemory>
    ensures { OnOk result (out.new ≡ out.old ++ word_text word) }
{
    let mut left: u32 = 16;
    while left > 0 {
        left -= 1;
        push_digit(out, (word >> (4 * left)) % 16)?;
    }
    Ok(())
}

/// Adds a hexadecimal digit.
fn push_digit(out: &mut Text, digit: u64) -> Result<(), OutOfMemory>
    requires { digit < 16 }
    ensures { OnOk result (out.new ≡ out.old ++ digit_glyph false digit ∷ []) }
{
    let glyph = if digit < 10 {
        b'0' + digit as u8
    } else {
        b'a' + (digit as u8 - 10)
    };
    out.push_bytes(&[glyph])
}
