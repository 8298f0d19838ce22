//! Whether a text is UTF-8.

ghost use Rattle.std.specs.Prelude.{◌≡◌};
ghost use Rattle.ostore_text_words.specs.Lines.{IsUtf8Fault, utf8_fault as utf8_fault_of};

use std::str;

/// Where the text stops being UTF-8: the first byte of the first sequence that is ill-formed. None
/// exactly where the whole text is UTF-8.
pub fn utf8_fault(text: &[u8]) -> Option<usize>
    ensures at { result ≡ utf8_fault_of text.now }
    ensures meaning { IsUtf8Fault text.now result }
{
    match str::from_utf8(text) {
        Ok(_) => None,
        Err(fault) => Some(fault.valid_up_to()),
    }
}
