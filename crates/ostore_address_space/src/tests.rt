ghost use Rattle.std.specs.Prelude.{◌≤◌};
ghost use Rattle.ostore_address_space.specs.Frames.{most_frames};

use super::*;
use ostore_base::{ClientNo, OutOfMemory, PageNo};
use std::alloc::Global;

/// A mapper whose answer is always the same.
struct Always(u32);

impl Mapper for Always {
    ghost choice = { λ mapper client page count. mapper.0 };

    fn choose(&self, _client: ClientNo, _page: PageNo, _free_count: u32) -> u32 {
        self.0
    }
}

/// The frames that some pages get one after the other, in a new space.
fn reserve_in_turn<M: Mapper>(
    alloc: Global,
    frames: u32,
    mapper: &M,
    pages: &[u8],
) -> Result<Vec<Result<Frame, SpaceFull>>, OutOfMemory>
    requires { frames ≤ most_frames }
{
    let mut space = Space::new(alloc, ClientNo(2), frames)?;
    let mut all = Vec::new(alloc);
    for page in pages {
        all.push(space.reserve(PageNo(u32::from(*page)), mapper))?;
    }
    Ok(all)
}

#[test]
fn the_only_frame_is_reserved_once(rt: HostRuntime) -> Result<(), OutOfMemory> {
    let got = reserve_in_turn(rt.alloc(), 1, &Low, &[3, 3, 4, 3])?;
    let full = SpaceFull { frames: 1 };
    assert_eq!(rt;
        got.as_slice(),
        [Ok(Frame(1)), Ok(Frame(1)), Err(full), Ok(Frame(1))].as_slice()
    );
    assert_eq!(rt;
        format!(in rt.alloc(); "{full}")?.as_str(),
        "all 1 frames are reserved"
    );
    Ok(())
}

#[test]
fn an_answer_past_the_free_frames_means_the_first(rt: HostRuntime) -> Result<(), OutOfMemory> {
    let got = reserve_in_turn(rt.alloc(), 3, &Always(99), &[5, 6])?;
    assert_eq!(rt; got.as_slice(), [Ok(Frame(1)), Ok(Frame(2))].as_slice());
    let got = reserve_in_turn(rt.alloc(), 3, &Always(1), &[5, 6, 7])?;
    assert_eq!(rt;
        got.as_slice(),
        [Ok(Frame(2)), Ok(Frame(3)), Ok(Frame(1))].as_slice()
    );
    Ok(())
}

#[test]
fn each_mapper_chooses_among_the_free_frames(rt: HostRuntime) -> Result<(), OutOfMemory> {
    let got = reserve_in_turn(rt.alloc(), 10, &Low, &[3, 9])?;
    assert_eq!(rt; got.as_slice(), [Ok(Frame(1)), Ok(Frame(2))].as_slice());
    let got = reserve_in_turn(rt.alloc(), 10, &High, &[3, 9])?;
    assert_eq!(rt; got.as_slice(), [Ok(Frame(10)), Ok(Frame(9))].as_slice());
    // (2 * 7 + 3 * 13) mod 10 is 3, the fourth of ten; (2 * 7 + 9 * 13) mod 9 is 5, the sixth of nine.
    let got = reserve_in_turn(rt.alloc(), 10, &Mixed, &[3, 9])?;
    assert_eq!(rt; got.as_slice(), [Ok(Frame(4)), Ok(Frame(7))].as_slice());
    Ok(())
}

#[test]
fn released_frames_are_free_again(rt: HostRuntime) -> Result<(), OutOfMemory> {
    let mut space = Space::new(rt.alloc(), ClientNo(0), 2)?;
    assert_eq!(rt; space.reserve(PageNo(16383), &High), Ok(Frame(2)));
    assert_eq!(rt; space.page_at(Frame(2)), Some(PageNo(16383)));
    assert_eq!(rt; space.frame_of(PageNo(16383)), Some(Frame(2)));
    for frame in [0, 1, 3, 4294967295] {
        assert_eq!(rt; space.page_at(Frame(frame)), None);
    }
    for page in [0, 16384, 4294967295] {
        assert_eq!(rt; space.frame_of(PageNo(page)), None);
    }
    space.release_all();
    assert_eq!(rt; space.page_at(Frame(2)), None);
    assert_eq!(rt; space.frame_of(PageNo(16383)), None);
    assert_eq!(rt; space.reserve(PageNo(7), &High), Ok(Frame(2)));
    Ok(())
}

#[test]
fn the_largest_space_has_room_for_every_page(rt: HostRuntime) -> Result<(), OutOfMemory> {
    let mut space = Space::new(rt.alloc(), ClientNo(15), 65536)?;
    for page in 0..16384 {
        assert_eq!(rt; space.reserve(PageNo(page), &High), Ok(Frame(65536 - page)));
    }
    assert_eq!(rt; space.reserve(PageNo(16383), &Low), Ok(Frame(49153)));
    assert_eq!(rt; space.page_at(Frame(65536)), Some(PageNo(0)));
    frames_are_paired(&space);
    Ok(())
}
