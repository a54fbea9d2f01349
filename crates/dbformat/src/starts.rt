// The numbers of starts, with which the address of a page begins.

/// The start of the schema, whose tree is at page 1.
pub const SCHEMA_START: u32 = 0;

/// How many rows of the schema with a root page have a start. They are numbered from 1.
pub const MOST_ROOTS: u32 = 65536;

/// The start of the freelist: its first trunk. It comes after those of the rows.
pub const FREELIST_START: u32 = MOST_ROOTS + 1;
