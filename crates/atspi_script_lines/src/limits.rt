//! Limits of a script's lines. Each number stands here and nowhere else.

/// How many bytes a line has at most, without its line feed.
pub const LINE_LIMIT: usize = 65_536;

/// How many applications a script can name, from `a0` on.
pub const APP_COUNT: u32 = 16;

/// How many readers a script can name, from `r0` on.
pub const READER_COUNT: u32 = 4;

/// The greatest number of a line `call`.
pub const PLACE_LIMIT: u32 = 2_147_483_647;

/// The least quota of a connection, in bytes.
pub const QUOTA_LEAST: u32 = 1_024;

/// The greatest quota of a connection, in bytes.
pub const QUOTA_MOST: u32 = 16_777_216;
