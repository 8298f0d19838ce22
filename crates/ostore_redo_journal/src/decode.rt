//! Whether the bytes behind a gate are those of a lawful record.

ghost use Rattle.std.specs.Prelude.{◌≡◌, ◌+◌, ◌*◌, ◌≤◌, ◌↔◌, IsTrue, true, false, length};
ghost use Rattle.ostore_redo_journal.specs.declared.layout.TheConstants.{COUNT_IN_HEAD, HEAD_BYTES, LOGGED_BYTES};
ghost use Rattle.ostore_redo_journal.specs.Records.{u16_at, pages_of, behind_size, AreAscending};
ghost use Rattle.ostore_redo_journal.specs.inside.Bytes.{IsRecord, IsCounted};

use crate::header::Header;
use crate::layout::{
    COUNT_IN_HEAD, GENERATION_IN_HEAD, HEAD_BYTES, LOGGED_BYTES, NUMBER_IN_HEAD, ORDINAL_IN_HEAD,
};
use crate::numbers::{get_u16, get_u32, get_u64};

// Whether the pages are ascending and below the page count.
fn are_ascending(bytes: &[u8], count: u16, limit: u32) -> bool
    requires { length bytes.now ≡ LOGGED_BYTES * count }
    ensures { IsTrue result ↔ AreAscending 0 limit (pages_of count bytes.now) }
{
    let mut low = 0;
    let mut left = count;
    let mut rest = bytes;
    while left > 0 {
        let page = get_u32(rest, 0);
        if page < low || page >= limit {
            return false;
        }
        low = page + 1;
        left -= 1;
        rest = &rest[LOGGED_BYTES..];
    }
    true
}

// Whether the bytes behind a gate are those of a lawful record with this commit number.
fn is_record(bytes: &[u8], header: Header, number: u64) -> bool
    requires head { HEAD_BYTES ≤ length bytes.now }
    requires whole { length bytes.now ≡ behind_size (u16_at bytes.now COUNT_IN_HEAD) }
    ensures { IsTrue result ↔ IsRecord header.pages header.generation number bytes.now }
{
    if get_u32(bytes, GENERATION_IN_HEAD) != header.generation
        || get_u64(bytes, NUMBER_IN_HEAD) != number
    {
        return false;
    }
    if get_u32(bytes, ORDINAL_IN_HEAD) == 0 {
        return false;
    }
    are_ascending(
        &bytes[HEAD_BYTES..],
        get_u16(bytes, COUNT_IN_HEAD),
        header.pages,
    )
}

/// Whether they are, where the count was read before.
pub(crate) fn is_counted(bytes: &[u8], count: u16, header: Header, number: u64) -> bool
    requires { length bytes.now ≡ behind_size count }
    ensures size { length bytes.now ≡ behind_size count }
    ensures good { result ≡ true → IsCounted header.pages header.generation number count bytes.now }
    ensures bad { result ≡ false → u16_at bytes.now COUNT_IN_HEAD ≡ count
        → IsRecord header.pages header.generation number bytes.now → ⊥ }
{
    get_u16(bytes, COUNT_IN_HEAD) == count && is_record(bytes, header, number)
}
