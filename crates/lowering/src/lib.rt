// The definition of the lowering stands in specs/. Here are its numbers for the code, as specs/Limits.antt has them, and the separator of
// specs/Pools.antt; those of the scratch that is asked for are in crate needs.
#![tactic(auto)]

// Words before the image's sections: the twelve sizes.
pub const SIZES: usize = 12;

// Words of each record of an image: an instruction; the same with its position; a constant, a name, a chain, a step of a chain, a table of
// a switch, a row of cases, a row of ranges.
pub const OP_WIDTH: usize = 4;

pub const CODE_WIDTH: usize = 5;

pub const CONST_WIDTH: usize = 3;

pub const NAME_WIDTH: usize = 3;

pub const CHAIN_WIDTH: usize = 6;

pub const STEP_WIDTH: usize = 6;

pub const SWITCH_WIDTH: usize = 4;

pub const CASE_WIDTH: usize = 2;

pub const RANGE_WIDTH: usize = 6;

// Where a row of ranges has its target; a row of cases has it first.
pub const RANGE_TARGET: usize = 5;

// Greatest count of a call's arguments, and of an array's elements, that lower.
pub const MAX_ARGS: u32 = 255;

pub const MAX_ELEMENTS: u32 = 65535;

// Where `max_stack` is capped.
pub const MAX_STACK: u32 = 65535;

// Greatest count of instructions emitted, those taken back included.
pub const MAX_EMITTED: u64 = 262143;

// What stands between a namespace and a name.
pub const SEPARATOR: [u8; 2] = [58, 58];

// Names that a node may give: the key of a name is this times the node plus the field.
pub const NAMES_PER_NODE: u32 = 3;

// Greatest count of bands of a switch.
pub const MAX_BANDS: u32 = 255;
