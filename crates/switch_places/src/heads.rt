// The heads of the cases and those of the bands, as columns of the table.
ghost use Rattle.std.specs.Prelude.{◌≤◌};
ghost use Rattle.lowering.specs.Limits.{max_bands};
ghost use Rattle.switch_tables.specs.Columns.{size};

use switch_tables::{
    BAND_EXIT, BAND_HEAD, BAND_HEADS, BAND_PLACE, CASE_EXIT, CASE_HEADS, CASE_PLACE, ENTRIES,
    HEAD_NODE, MOST_BANDS,
};

// Columns of heads: the cell that says how many there are, how many there may be, the number of the list of each, and the place and the
// exit of its chain.
#[derive(Clone, Copy)]
pub struct Heads {
    pub count: usize,
    pub most: usize,
    pub nodes: usize,
    pub places: usize,
    pub exits: usize,
    ghost there: { (most ≤ max_bands) × (nodes ≤ size) × (places ≤ size) × (exits ≤ size) },
}

pub const OF_CASES: Heads = Heads {
    count: CASE_HEADS,
    most: ENTRIES,
    nodes: HEAD_NODE,
    places: CASE_PLACE,
    exits: CASE_EXIT,
};

pub const OF_BANDS: Heads = Heads {
    count: BAND_HEADS,
    most: MOST_BANDS,
    nodes: BAND_HEAD,
    places: BAND_PLACE,
    exits: BAND_EXIT,
};
