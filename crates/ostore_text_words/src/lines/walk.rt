//! All lines of a text, one after the other.

ghost use Rattle.std.specs.Prelude.{◌≡◌, ◌≤◌, ◌==◌, length};
ghost use Rattle.std.specs.List.{position, position_or_len};
ghost use Rattle.std.specs.Iterator.{YieldsFirstBy, item_count};
ghost use Rattle.ostore_text_words.specs.Lines.{bytes_on, line_bytes};
ghost use Rattle.ostore_text_words.specs.inside.LineWalk.{lines_left, seen_bytes};

/// A line as it stands, words or none: where it begins, and its bytes without byte 10.
#[derive(Clone, Copy)]
pub(super) struct LineBytes<'a> {
    pub at: usize,
    pub bytes: &'a [u8],
}

/// A walk over the lines of a text.
#[derive(Clone, Copy)]
pub(super) struct LineWalk<'a> {
    text: &'a [u8],
    /// Where the next line begins. A place behind the text's end begins none.
    next_at: usize,
}

impl<'a> LineWalk<'a> {
    pub(super) fn new(text: &'a [u8]) -> LineWalk<'a>
        ensures { lines_left result ≡ line_bytes text.now }
    {
        LineWalk { text, next_at: 0 }
    }

    /// A walk from a place on, at which a line begins.
    pub(super) fn from(text: &'a [u8], at: usize) -> LineWalk<'a>
        ensures { lines_left result ≡ bytes_on at text.now }
    {
        LineWalk { text, next_at: at }
    }

    /// The text that it walks over.
    pub(super) fn text(&self) -> &'a [u8]
        ensures { result.now ≡ self.now.text.now }
    {
        self.text
    }
}

impl<'a> Iterator for LineWalk<'a> {
    type Item = LineBytes<'a>;

    ghost next_gives = { YieldsFirstBy seen_bytes lines_left };

    ghost remaining = { item_count lines_left };

    fn next(&mut self) -> Option<LineBytes<'a>> {
        let at = self.next_at;
        if at > self.text.len() {
            return None;
        }
        let rest = &self.text[at..];
        let length = line_length(rest);
        self.next_at = at + length + 1;
        Some(LineBytes {
            at,
            bytes: &rest[..length],
        })
    }
}

/// Where the next byte 10 stands.
fn newline_of(bytes: &[u8]) -> Option<usize>
    ensures { result ≡ position (λ byte. byte == 10) bytes.now }
{
    bytes.iter().position(|byte| *byte == b'\n')
}

/// How many bytes stand before the next byte 10.
fn line_length(bytes: &[u8]) -> usize
    ensures length { result ≡ position_or_len (λ byte. byte == 10) bytes.now }
    ensures within { result ≤ length bytes.now }
{
    newline_of(bytes).unwrap_or(bytes.len())
}
