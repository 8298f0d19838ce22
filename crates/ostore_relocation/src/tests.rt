//! Images made by hand, in and out of address spaces.

ghost use Rattle.std.specs.Prelude.{◌<◌};
ghost use Rattle.ostore_base.specs.Limits.{most_pages};
ghost use Rattle.ostore_schema_layout.specs.Lawful.{IsLawful};
ghost use Rattle.ostore_relocation.specs.Fitness.{IsFit, LeadsToPages};
ghost use Rattle.ostore_relocation.specs.Forms.{IsResidentPage, stored_form};
ghost use Rattle.ostore_relocation.specs.Stores.{StoresAs};

use super::*;
use ostore_address_space::{Frame, High, Low, Mapper, Mixed, Space, SpaceFull};
use ostore_base::{ClientNo, PageImage, PageNo};
use ostore_page_tags::{get_u32, put_u32};
use ostore_schema_layout::{Schema, parse_schema};
use std::test::Fail;

const PARTS: &[u8] = b"type Part\nid int\nnext ref Part\n";

/// Brings an image in, and gives the resident one, if it can be relocated and what goes out is what came in.
fn in_and_out<M: Mapper>(
    image: &PageImage,
    page: PageNo,
    schema: &Schema,
    space: &mut Space,
    mapper: &M,
) -> Option<PageImage>
    requires page { page.0 < most_pages }
    requires lawful { IsLawful schema.now }
{
    if !is_fit(image, page, schema) {
        return None;
    }
    if !leads_to_pages(image, page, schema) {
        return None;
    }
    let mut resident = *image;
    match relocate_in(&mut resident, page, schema, space, mapper) {
        Ok(()) => {}
        Err(_) => return None,
    }
    let mut stored = resident;
    relocate_out(&mut stored, page, schema, space);
    if stored == *image {
        Some(resident)
    } else {
        None
    }
}

/// A page of one Part at offset 32, whose id is 40960 and whose next is itself on page 10.
fn a_part() -> PageImage {
    let mut image = PageImage::zeroed();
    image.bytes[..6].copy_from_slice(&[2, 1, 1, 0, 44, 0]);
    image.bytes[32..44].copy_from_slice(&[0, 0xa0, 0, 0, 0, 0, 0, 0, 0x20, 0xa0, 0, 0]);
    image.bytes[4088..].copy_from_slice(&[32, 0, 1, 1, 1, 0, 0, 0]);
    image
}

#[test]
fn a_part_that_leads_to_itself(rt: HostRuntime) -> Result<(), Fail> {
    let alloc = rt.alloc();
    let schema = parse_schema(alloc, PARTS)?;
    let mut space = Space::new(alloc, ClientNo(0), 65536)?;
    let image = a_part();
    let mut wanted = image;
    wanted.bytes[40..44].copy_from_slice(&[0x20, 0x10, 0, 0]);
    assert!(rt; in_and_out(&image, PageNo(10), &schema, &mut space, &Low) == Some(wanted));
    assert_eq!(rt; space.frame_of(PageNo(10)), Some(Frame(1)));
    assert_eq!(rt; space.page_at(Frame(2)), None);
    Ok(())
}

/// A page with a cell of each code: a Part at 32, a dead Part, a dead chunk of a set, and from 184 on the chunks
/// and the descriptor, 240 to 246. Each word of a cell is an address in page 300, and tells its place.
fn all_codes() -> PageImage {
    let mut image = PageImage::zeroed();
    image.bytes[..6].copy_from_slice(&[2, 1, 10, 0, 0xe8, 8]);
    for word in 8..570u16 {
        put_u32(&mut image, 4 * word, 300 * 4096 + 4 * u32::from(word));
    }
    image.bytes[4016..].copy_from_slice(&[
        0x60, 5, 246, 1, 0, 0, 0, 0, // 904 bytes at 1376
        0x18, 4, 245, 1, 0, 0, 0, 0, // 328 bytes at 1048
        0x08, 4, 244, 1, 0, 0, 0, 0, // 16 bytes at 1032
        0x80, 2, 243, 1, 0, 0, 0, 0, // 392 bytes at 640
        0xb8, 1, 242, 1, 0, 0, 0, 0, // 200 bytes at 440
        0x38, 1, 241, 1, 0, 0, 0, 0, // 128 bytes at 312
        0xb8, 0, 240, 1, 0, 0, 0, 0, // 128 bytes at 184
        56, 0, 240, 0, 0, 0, 0, 0, // a dead one at 56
        44, 0, 1, 0, 8, 0, 0, 0, // a dead Part at 44
        32, 0, 1, 1, 7, 0, 0, 0, // a Part at 32
    ]);
    image
}

/// A chunk: where it begins and ends, the size of an entry, and where an entry has its pointer.
const CHUNKS: [(u16, u16, u16, u16); 6] = [
    (184, 312, 4, 0),
    (312, 440, 4, 0),
    (440, 640, 12, 8),
    (640, 1032, 48, 44),
    (1048, 1376, 20, 8),
    (1376, 2280, 56, 44),
];

/// Whether that page has a pointer at a place: the Part's reference, the descriptor's two, and those of the chunks
/// to the next chunk and in each entry.
fn has_pointer(at: u16) -> bool {
    let mut is = at == 40 || at == 1032 || at == 1036;
    for (start, end, size, pointer) in CHUNKS {
        if start <= at && at < end {
            let place = at - start;
            is = place == 0 || place >= 8 && size > 0 && (place - 8) % size == pointer;
        }
    }
    is
}

/// Brings the page of all codes in as page 20, where it and page 300 get these frames, and tells the first word
/// that is not as it should be. Words past the page stand for an image that does not come back.
fn first_wrong_word<M: Mapper>(
    schema: &Schema,
    space: &mut Space,
    mapper: &M,
    own: u32,
    target: u32,
) -> Option<u16>
    requires { IsLawful schema.now }
{
    let image = all_codes();
    let Some(resident) = in_and_out(&image, PageNo(20), schema, space, mapper) else {
        return Some(1024);
    };
    if space.page_at(Frame(own)) != Some(PageNo(20))
        || space.page_at(Frame(target)) != Some(PageNo(300))
    {
        return Some(1025);
    }
    for word in 0..1024u16 {
        let was = get_u32(&image, 4 * word);
        let wanted = if has_pointer(4 * word) {
            u64::from(target) * 4096 + 4 * u64::from(word)
        } else {
            u64::from(was)
        };
        if u64::from(get_u32(&resident, 4 * word)) != wanted {
            return Some(word);
        }
    }
    None
}

#[test]
fn pointers_of_every_code_and_nothing_else(rt: HostRuntime) -> Result<(), Fail> {
    let alloc = rt.alloc();
    let schema = parse_schema(alloc, PARTS)?;
    let mut space = Space::new(alloc, ClientNo(3), 1000)?;
    assert_eq!(rt; first_wrong_word(&schema, &mut space, &Low, 1, 2), None);
    space.release_all();
    assert_eq!(rt;
        first_wrong_word(&schema, &mut space, &High, 1000, 999),
        None
    );
    space.release_all();
    // (3 * 7 + 20 * 13) mod 1000 is 281, which means frame 282; (3 * 7 + 300 * 13) mod 999 is 924, which means
    // frame 926, since 282 isn't free.
    assert_eq!(rt;
        first_wrong_word(&schema, &mut space, &Mixed, 282, 926),
        None
    );
    Ok(())
}

/// The page of roots with three roots, in rows 0, 1 and 100. Row 2 is free, and has bytes where others have a
/// pointer.
fn three_roots() -> PageImage {
    let mut image = PageImage::zeroed();
    image.bytes[0] = 4;
    image.bytes[32..68].copy_from_slice(
        b"\x03hub\0\0\0\0\0\0\0\0\0\0\0\0\0\0\0\0\0\0\0\0\0\0\0\0\0\0\0\0\x20\xa0\0\0",
    );
    image.bytes[72] = 1;
    image.bytes[104..108].copy_from_slice(&[0x20, 0xb0, 0, 0]);
    image.bytes[144..148].copy_from_slice(&[0x20, 0xc0, 0, 0]);
    image.bytes[4032] = 1;
    image.bytes[4064..4068].copy_from_slice(&[0x2c, 0xa0, 0, 0]);
    image
}

#[test]
fn roots_lead_to_frames(rt: HostRuntime) -> Result<(), Fail> {
    let alloc = rt.alloc();
    let schema = parse_schema(alloc, b"")?;
    let mut space = Space::new(alloc, ClientNo(0), 7)?;
    let image = three_roots();
    let mut wanted = image;
    // Page 9 gets frame 7, page 10 frame 6, and page 11 frame 5.
    wanted.bytes[64..68].copy_from_slice(&[0x20, 0x60, 0, 0]);
    wanted.bytes[104..108].copy_from_slice(&[0x20, 0x50, 0, 0]);
    wanted.bytes[4064..4068].copy_from_slice(&[0x2c, 0x60, 0, 0]);
    assert!(rt; in_and_out(&image, PageNo(9), &schema, &mut space, &High) == Some(wanted));
    assert_eq!(rt; space.frame_of(PageNo(9)), Some(Frame(7)));
    assert_eq!(rt; space.frame_of(PageNo(12)), None);
    Ok(())
}

/// A mapper whose answer is always the same.
struct Always(u32);

impl Mapper for Always {
    ghost choice = { λ mapper client page count. mapper.0 };

    fn choose(&self, _client: ClientNo, _page: PageNo, _free_count: u32) -> u32 {
        self.0
    }
}

#[test]
fn an_answer_past_the_frames_means_the_first_free_one(rt: HostRuntime) -> Result<(), Fail> {
    let alloc = rt.alloc();
    let schema = parse_schema(alloc, b"")?;
    let mut space = Space::new(alloc, ClientNo(0), 3)?;
    let image = three_roots();
    let mut wanted = image;
    // Pages 9, 10 and 11 get frames 1, 2 and 3.
    wanted.bytes[64..68].copy_from_slice(&[0x20, 0x20, 0, 0]);
    wanted.bytes[104..108].copy_from_slice(&[0x20, 0x30, 0, 0]);
    wanted.bytes[4064..4068].copy_from_slice(&[0x2c, 0x20, 0, 0]);
    assert!(rt; in_and_out(&image, PageNo(9), &schema, &mut space, &Always(99)) == Some(wanted));
    assert_eq!(rt; space.frame_of(PageNo(9)), Some(Frame(1)));
    assert_eq!(rt; space.page_at(Frame(3)), Some(PageNo(11)));
    Ok(())
}

/// Brings a page in beside one that is resident, as a client does that has one space. That one keeps its
/// stored form, whatever the answer is.
fn comes_beside<M: Mapper>(
    held: &PageImage,
    own: PageNo,
    image: &mut PageImage,
    page: PageNo,
    schema: &Schema,
    space: &mut Space,
    mapper: &M,
) -> Result<(), SpaceFull>
    requires page { page.0 < most_pages }
    requires lawful { IsLawful schema.now }
    requires fit { IsFit schema.now page.0 image.old.bytes }
    requires targets { LeadsToPages schema.now page.0 image.old.bytes }
    requires resident { IsResidentPage space.old.pages schema.now own.0 held.now.bytes }
    ensures { let stored = stored_form space.old.pages schema.now own.0 held.now.bytes in
        StoresAs space.new.pages schema.now own.0 held.now.bytes stored }
{
    let answer = relocate_in(image, page, schema, space, mapper);
    more_frames_store_the_same(schema, space);
    answer
}

/// Brings two pages in, and tells whether the first goes out as it came in.
fn first_stays<M: Mapper>(
    first: &PageImage,
    own: PageNo,
    second: &PageImage,
    schema: &Schema,
    space: &mut Space,
    mapper: &M,
) -> bool
    requires page { own.0 < most_pages }
    requires lawful { IsLawful schema.now }
{
    if !is_fit(first, own, schema) || !is_fit(second, PageNo(9), schema) {
        return false;
    }
    if !leads_to_pages(first, own, schema) || !leads_to_pages(second, PageNo(9), schema) {
        return false;
    }
    let mut held = *first;
    let Ok(()) = relocate_in(&mut held, own, schema, space, mapper) else {
        return false;
    };
    let mut roots = *second;
    let answer = comes_beside(&held, own, &mut roots, PageNo(9), schema, space, mapper);
    relocate_out(&mut held, own, schema, space);
    answer.is_ok() && held == *first
}

#[test]
fn a_resident_page_keeps_its_stored_form(rt: HostRuntime) -> Result<(), Fail> {
    let alloc = rt.alloc();
    let schema = parse_schema(alloc, PARTS)?;
    let mut space = Space::new(alloc, ClientNo(0), 5)?;
    let (part, roots) = (a_part(), three_roots());
    assert!(rt; first_stays(&part, PageNo(10), &roots, &schema, &mut space, &High));
    // Page 10 has frame 5, page 9 frame 4, and page 11 frame 3.
    assert_eq!(rt; space.page_at(Frame(5)), Some(PageNo(10)));
    assert_eq!(rt; space.page_at(Frame(3)), Some(PageNo(11)));
    Ok(())
}

#[test]
fn a_full_space_leaves_the_image(rt: HostRuntime) -> Result<(), Fail> {
    let alloc = rt.alloc();
    let schema = parse_schema(alloc, b"")?;
    let mut space = Space::new(alloc, ClientNo(0), 2)?;
    let mut image = three_roots();
    let before = image;
    if is_fit(&image, PageNo(9), &schema) && leads_to_pages(&image, PageNo(9), &schema) {
        let got = relocate_in(&mut image, PageNo(9), &schema, &mut space, &Low);
        assert_eq!(rt; got, Err(SpaceFull { frames: 2 }));
    }
    assert!(rt; image == before);
    assert_eq!(rt; space.page_at(Frame(1)), Some(PageNo(9)));
    assert_eq!(rt; space.page_at(Frame(2)), Some(PageNo(10)));
    Ok(())
}

#[test]
fn images_that_cannot_be_relocated(rt: HostRuntime) -> Result<(), Fail> {
    let schema = parse_schema(rt.alloc(), PARTS)?;
    let good = a_part();
    assert!(rt; has_cells(&good, &schema));
    assert!(rt; is_fit(&good, PageNo(10), &schema));
    // What is wrong with the bytes that differ, and where they stand.
    for (at, byte) in [
        (4, 48), // the cell has 16 bytes
        (4090, 2), // the schema has no type 2
        (4091, 2), // a row is neither live nor dead
        (4090, 240), // a chunk has no serial
    ] {
        let mut image = good;
        if let Some(place) = image.bytes.get_mut(at) {
            *place = byte;
        }
        assert!(rt; !has_cells(&image, &schema), "at {at}");
        assert!(rt; !is_fit(&image, PageNo(10), &schema), "at {at}");
        // A page that holds no objects is asked for nothing.
        assert!(rt; is_fit(&image, PageNo(8), &schema), "at {at}");
    }
    let mut image = good;
    image.bytes[43] = 4;
    if is_fit(&image, PageNo(10), &schema) {
        assert!(rt; !leads_to_pages(&image, PageNo(10), &schema));
    }
    Ok(())
}
