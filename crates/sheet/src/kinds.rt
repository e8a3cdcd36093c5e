// The node kinds by name, for the code. specs/Kinds.antt has the same for the definitions.
// Kept: words and no enum. A kind is a word that a stranger sends, and each definition answers at every word; the code asks for ranges of
// kinds (Dot to Coalesce) and looks the word up in tables. An enum would be made from the word and turned back at each of these places.
pub const BOOL: u32 = 1;

pub const UNIT: u32 = 2;

pub const INT: u32 = 3;

pub const FLOAT: u32 = 4;

pub const CHAR: u32 = 5;

pub const STRING: u32 = 6;

pub const INTERPOLATED: u32 = 7;

pub const ARRAY: u32 = 8;

pub const VARIABLE: u32 = 9;

pub const THIS: u32 = 10;

pub const PROPERTY: u32 = 11;

pub const METHOD_CALL: u32 = 12;

pub const FN_CALL: u32 = 13;

pub const DOT: u32 = 14;

pub const INDEX: u32 = 15;

pub const AND: u32 = 16;

pub const OR: u32 = 17;

pub const COALESCE: u32 = 18;

pub const SWITCH: u32 = 19;

pub const CASE: u32 = 20;

pub const RANGE: u32 = 21;

pub const REF: u32 = 22;

pub const MAP: u32 = 23;

pub const BLOCK: u32 = 24;

pub const DYNAMIC_CONSTANT: u32 = 25;

// The kinds are 1 to 25.
pub const LAST_KIND: u32 = 25;
