//! The image of a page.

ghost use Rattle.std.specs.Prelude.{◌≡◌, replicate};

/// The bytes of a page.
pub const PAGE_SIZE: usize = 4096;

/// What a page holds, byte for byte.
#[derive(Clone, Copy, Debug, PartialEq, Eq)]
pub struct PageImage {
    pub bytes: [u8; PAGE_SIZE],
}

impl PageImage {
    /// The image whose bytes are all 0.
    pub fn zeroed() -> PageImage
        ensures { result.bytes ≡ replicate PAGE_SIZE 0 }
    {
        PageImage {
            bytes: [0; PAGE_SIZE],
        }
    }
}
