//! Writing the bytes of a record.

ghost use Rattle.std.specs.Prelude.{◌≡◌, ◌+◌, ◌*◌, ◌≤◌, ◌<◌, ◌^◌, ◌++◌, ◌∷◌, [], ℕ, length, take, drop, get_or, is_some, IfSome, OnOk};
ghost use Rattle.std.specs.Option.{option_map};
ghost use Rattle.ostore_base.specs.Faults.{HasCause};
ghost use Rattle.ostore_base.specs.declared.page.TheConstants.{PAGE_SIZE};
ghost use Rattle.ostore_base.specs.Limits.{longest_disk};
ghost use Rattle.ostore_base.specs.Disk.{replaced};
ghost use Rattle.ostore_base.specs.Images.{IsSure, LeavesOnly, OfTold, IsTornAtGate, opened_at};
ghost use Rattle.ostore_redo_journal.specs.declared.layout.TheConstants.{GATE_BYTES, HEAD_BYTES, LOGGED_BYTES, PAGES_IN_RECORD};
ghost use Rattle.ostore_redo_journal.specs.Records.{AreWhole, page_bytes, head_bytes, behind_gate, pages_of, record_size};
ghost use Rattle.ostore_redo_journal.specs.inside.Bytes.{logged_in};

use crate::layout::{
    CLIENT_IN_HEAD, COUNT_IN_HEAD, GATE_BYTES, GENERATION_IN_HEAD, HEAD_BYTES, IMAGE_IN_LOGGED,
    LOGGED_BYTES, NUMBER_IN_HEAD, ORDINAL_IN_HEAD, PAGES_IN_RECORD,
};
use ostore_base::{ClientNo, Disk, Failed, PageImage, PageNo, write_gated};

// Writes bytes at a place.
fn put_bytes(bytes: &mut [u8], at: usize, piece: &[u8])
    requires { at + length piece.now ≤ length bytes.old }
    ensures { bytes.new ≡ replaced at piece.now bytes.old }
{
    bytes[at..at + piece.len()].copy_from_slice(piece);
}

// Writes a page with its image at a place.
fn put_page(bytes: &mut [u8], at: usize, page: PageNo, image: &PageImage)
    requires { at + LOGGED_BYTES ≤ length bytes.old }
    ensures put { bytes.new ≡ replaced at (page_bytes (page, image.now)) bytes.old }
    ensures whole { length image.now.bytes ≡ PAGE_SIZE }
    ensures small { page.0 < 2 ^ 32 }
{
    let whole: &[u8] = &image.bytes;
    put_bytes(bytes, at, &page.0.to_le_bytes());
    put_bytes(bytes, at + IMAGE_IN_LOGGED, whole);
}

/// Writes a page with its image at a place of a record's bytes.
pub(crate) fn add_page(bytes: &mut Vec<u8>, at: usize, page: PageNo, image: &PageImage)
    requires { at + LOGGED_BYTES ≤ length bytes.old.items }
    ensures put { bytes.new.items ≡ replaced at (page_bytes (page, image.now)) bytes.old.items }
    ensures size { length bytes.new.items ≡ length bytes.old.items }
    ensures whole { length image.now.bytes ≡ PAGE_SIZE }
    ensures small { page.0 < 2 ^ 32 }
{
    put_page(&mut bytes[..], at, page, image);
}

// Writes what stands behind the gate, before the pages.
fn put_head(
    bytes: &mut [u8],
    generation: u32,
    number: u64,
    client: ClientNo,
    ordinal: u32,
    count: u16,
)
    requires { PAGES_IN_RECORD ≤ length bytes.old }
    ensures { bytes.new
        ≡ replaced GATE_BYTES (head_bytes generation number client.0 ordinal count) bytes.old }
{
    let head = &mut bytes[GATE_BYTES..PAGES_IN_RECORD];
    head[GENERATION_IN_HEAD..NUMBER_IN_HEAD].copy_from_slice(&generation.to_le_bytes());
    head[NUMBER_IN_HEAD..CLIENT_IN_HEAD].copy_from_slice(&number.to_le_bytes());
    head[CLIENT_IN_HEAD..ORDINAL_IN_HEAD].copy_from_slice(&client.0.to_le_bytes());
    head[ORDINAL_IN_HEAD..COUNT_IN_HEAD].copy_from_slice(&ordinal.to_le_bytes());
    head[COUNT_IN_HEAD..HEAD_BYTES].copy_from_slice(&count.to_le_bytes());
}

/// Writes a record behind its gate, with the gate of the next one closed, and then opens its gate. It
/// fills in the head and that gate, and leaves the pages. The bytes hold so many pages.
pub(crate) fn write_bytes<D: Disk>(
    disk: &mut D,
    gate: u64,
    bytes: &mut Vec<u8>,
    count: u16,
    generation: u32,
    number: u64,
    client: ClientNo,
    ordinal: u32,
) -> Result<(), Failed>
    requires inside { record_size count + GATE_BYTES ≤ length bytes.old.items }
    requires place { IfSome (D.content disk.old) (λ held. gate < length held) }
    requires small { gate ≤ longest_disk }
    requires short { record_size count + GATE_BYTES ≤ 2 ^ 27 }
    requires sure { IsSure (D.content disk.old) (D.may_leave disk.old) }
    ensures pages { pages_of count (drop PAGES_IN_RECORD bytes.new.items)
        ≡ pages_of count (drop PAGES_IN_RECORD bytes.old.items) }
    ensures size { length bytes.new.items ≡ length bytes.old.items }
    ensures whole { AreWhole (pages_of count (drop PAGES_IN_RECORD bytes.old.items)) }
    ensures fits { (client.0 < 2 ^ 16) × (ordinal < 2 ^ 32) }
    ensures written { OnOk result (D.content disk.new ≡ option_map
        (opened_at gate (behind_gate generation number
        (logged_in client.0 ordinal count bytes.old.items) ++ 0 ∷ [])) (D.content disk.old)) }
    ensures within { OnOk result (gate + record_size count + GATE_BYTES ≤ longest_disk) }
    ensures tells { is_some (D.content disk.new) ≡ is_some (D.content disk.old) }
    ensures sure { OnOk result (IsSure (D.content disk.new) (D.may_leave disk.new)) }
    ensures any_moment { LeavesOnly D.moment D.left_since disk.old disk.new
        (OfTold (D.content disk.old) (IsTornAtGate gate (behind_gate generation number
        (logged_in client.0 ordinal count bytes.old.items) ++ 0 ∷ []))) }
    ensures cause { HasCause (D.faults disk.old) (D.faults disk.new) result }
{
    let end = PAGES_IN_RECORD + LOGGED_BYTES * count as usize;
    seal(bytes, end, count, generation, number, client, ordinal);
    write_gated(disk, gate, &bytes[GATE_BYTES..end + GATE_BYTES])
}

// Fills in the head, and closes the gate behind the pages.
fn seal(
    bytes: &mut Vec<u8>,
    end: usize,
    count: u16,
    generation: u32,
    number: u64,
    client: ClientNo,
    ordinal: u32,
)
    requires end { end ≡ record_size count }
    requires inside { end < length bytes.old.items }
    ensures pages { pages_of count (drop PAGES_IN_RECORD bytes.new.items)
        ≡ pages_of count (drop PAGES_IN_RECORD bytes.old.items) }
    ensures size { length bytes.new.items ≡ length bytes.old.items }
    ensures whole { AreWhole (pages_of count (drop PAGES_IN_RECORD bytes.old.items)) }
    ensures spelled { take end (drop GATE_BYTES bytes.new.items) ≡ behind_gate generation number
        (logged_in client.0 ordinal count bytes.old.items) ++ 0 ∷ [] }
{
    seal_slice(
        &mut bytes[..],
        end,
        count,
        generation,
        number,
        client,
        ordinal,
    );
}

// The same, of a slice.
fn seal_slice(
    bytes: &mut [u8],
    end: usize,
    count: u16,
    generation: u32,
    number: u64,
    client: ClientNo,
    ordinal: u32,
)
    requires end { end ≡ record_size count }
    requires inside { end < length bytes.old }
    ensures pages { pages_of count (drop PAGES_IN_RECORD bytes.new)
        ≡ pages_of count (drop PAGES_IN_RECORD bytes.old) }
    ensures size { length bytes.new ≡ length bytes.old }
    ensures whole { AreWhole (pages_of count (drop PAGES_IN_RECORD bytes.old)) }
    ensures spelled { take end (drop GATE_BYTES bytes.new) ≡ behind_gate generation number
        (logged_in client.0 ordinal count bytes.old) ++ 0 ∷ [] }
{
    are_bytes(bytes);
    put_head(bytes, generation, number, client, ordinal, count);
    put_bytes(bytes, end, &[0]);
}

// Bytes are below 256.
fn are_bytes(bytes: &[u8])
    ensures { (i : ℕ) → get_or bytes.now i 0 < 256 }
{
    let _count = bytes.len();
}
