//! Choosing frames of a client's address space.

ghost use Rattle.std.specs.Prelude.{◌≡◌, ◌<◌, ◌+◌, ◌-◌, ◌*◌, ◌%◌, ℕ};

use ostore_base::{ClientNo, PageNo};

/// Chooses where a page goes in a client's address space. The same question always gets the same answer,
/// and whatever the answers are, the space works.
pub trait Mapper {
    /// The answer by client, page and count of free frames.
    ghost choice: { Self → ℕ → ℕ → ℕ → ℕ };

    /// Answers an index into the free frames in ascending order, of which there is at least one. An answer
    /// that isn't below `free_count` means index 0.
    fn choose(&self, client: ClientNo, page: PageNo, free_count: u32) -> u32
        requires { 0 < free_count }
        ensures { result ≡ choice self.now client.0 page.0 free_count };
}

/// Takes the lowest free frame.
#[derive(Clone, Copy, Debug)]
pub struct Low;

impl Mapper for Low {
    ghost choice = { λ mapper client page count. 0 };

    fn choose(&self, _client: ClientNo, _page: PageNo, _free_count: u32) -> u32 {
        0
    }
}

/// Takes the highest free frame.
#[derive(Clone, Copy, Debug)]
pub struct High;

impl Mapper for High {
    ghost choice = { λ mapper client page count. count - 1 };

    fn choose(&self, _client: ClientNo, _page: PageNo, free_count: u32) -> u32 {
        free_count - 1
    }
}

/// Spreads the pages of each client over the free frames.
#[derive(Clone, Copy, Debug)]
pub struct Mixed;

impl Mapper for Mixed {
    ghost choice = { λ mapper client page count. (client * 7 + page * 13) % count };

    fn choose(&self, client: ClientNo, page: PageNo, free_count: u32) -> u32 {
        let spread = u64::from(client.0) * 7 + u64::from(page.0) * 13;
        (spread % u64::from(free_count)) as u32
    }
}
