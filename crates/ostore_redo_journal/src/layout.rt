//! Where the parts of a database's bytes stand. Each place is named here alone, and docs/FORMATS.md
//! draws them. A place counts bytes from 0: from the start of the disk where its name ends in `_AT`,
//! else from the start of the slot, of the record's head or of the logged page that the name speaks
//! of. The header has as many bytes as a page's image.

use ostore_base::PAGE_SIZE;

/// How many bytes the name has with which a database begins.
pub const NAME_BYTES: usize = 8;

/// Where the format stands, 4 bytes.
pub const FORMAT_AT: usize = 8;

/// Where the page count stands, 4 bytes.
pub const PAGES_AT: usize = 12;

/// Where slot A stands. A slot begins with its gate, 1 byte.
pub const SLOT_A_AT: usize = 64;

/// Where slot B stands.
pub const SLOT_B_AT: usize = 128;

/// Where the generation stands in a slot, 4 bytes.
pub const GENERATION_IN_SLOT: usize = 1;

/// Where the base stands in a slot, 8 bytes.
pub const BASE_IN_SLOT: usize = 5;

/// How many bytes a gate has. The head of a record stands behind its gate.
pub const GATE_BYTES: usize = 1;

/// Where the generation stands in a head, 4 bytes.
pub const GENERATION_IN_HEAD: usize = 0;

/// Where the commit number stands in a head, 8 bytes.
pub const NUMBER_IN_HEAD: usize = 4;

/// Where the client stands in a head, 2 bytes.
pub const CLIENT_IN_HEAD: usize = 12;

/// Where the ordinal stands in a head, 4 bytes.
pub const ORDINAL_IN_HEAD: usize = 14;

/// Where the count of pages stands in a head, 2 bytes.
pub const COUNT_IN_HEAD: usize = 18;

/// How many bytes a head has. The pages stand behind it.
pub const HEAD_BYTES: usize = 20;

/// Where the image stands in a logged page, behind the page's number in 4 bytes.
pub const IMAGE_IN_LOGGED: usize = 4;

/// How many bytes a logged page has.
pub const LOGGED_BYTES: usize = IMAGE_IN_LOGGED + PAGE_SIZE;

/// Where the pages stand in a record, counted from its gate.
pub const PAGES_IN_RECORD: usize = GATE_BYTES + HEAD_BYTES;
