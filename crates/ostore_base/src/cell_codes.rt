//! The codes of the cells that aren't objects, and where the parts of a chunk stand. An object's code is
//! the number of its type, from 1 on. A place counts bytes from the start of the chunk.

/// The code of a chunk of a set's items.
pub const SET_CHUNK: u8 = 240;

/// The code of a chunk of a list's items.
pub const LIST_CHUNK: u8 = 241;

/// The code of a chunk of a dictionary whose keys are ints.
pub const INT_DICTIONARY_CHUNK: u8 = 242;

/// The code of a chunk of a dictionary whose keys are texts.
pub const TEXT_DICTIONARY_CHUNK: u8 = 243;

/// The code of the descriptor of an index.
pub const INDEX_DESCRIPTOR: u8 = 244;

/// The code of a chunk of an index whose keys are ints.
pub const INT_INDEX_CHUNK: u8 = 245;

/// The code of a chunk of an index whose keys are texts.
pub const TEXT_INDEX_CHUNK: u8 = 246;

/// Where the next chunk's pointer stands in a chunk, 4 bytes.
pub const NEXT_IN_CHUNK: u16 = 0;

/// Where the number of entries stands in a chunk, 2 bytes.
pub const COUNT_IN_CHUNK: u16 = 4;

/// Where the first entry stands in a chunk.
pub const ENTRIES_IN_CHUNK: u16 = 8;
