// The numbers of the sheet's format, for the code. specs/Limits.antt has the same for the definitions.

// words of the header: the four sizes
pub const HEADER_WORDS: usize = 4;

// words of a node: kind, span, count, a, b, c, namespace, the namespace's position
pub const NODE_WORDS: usize = 8;

// greatest sizes
pub const MAX_NODES: u32 = 131072;

pub const MAX_TEXTS: u32 = 65536;

pub const MAX_BYTES: u32 = 1048576;

pub const MAX_LOCALS: u32 = 65535;

// greatest depth of the tree; node 0 is at depth 1
pub const MAX_DEPTH: u32 = 64;

// greatest count of blocks, of cases, of ranges, and of Refs in one case
pub const MAX_ENTRIES: u32 = 64;
