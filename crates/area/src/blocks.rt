// The names of the blocks that hold no structures, by what they hold, as pso_write.rs has them. They are numbers and no enum, since a block of
// structures is named by the structure's hash.

// Texts, in their bytes or laid, and vectors.
pub const STRING: u32 = 1;

// Integers of 1 byte.
pub const BYTE: u32 = 2;

// Integers of 2 bytes.
pub const SHORT: u32 = 4;

// Signed integers of 4 bytes, and enums.
pub const INT: u32 = 5;

// Integers of 4 bytes without sign or of 8 bytes, and hashes.
pub const UINT: u32 = 6;

// f32s.
pub const FLOAT: u32 = 7;

// Pointers to structures or to texts.
pub const POINTER: u32 = 12;

// Pointers to texts, with their lengths.
pub const CHAR_POINTER: u32 = 200;
