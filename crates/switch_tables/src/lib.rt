// The flat table of a switch, and where each of its columns stands. specs/Columns.antt has the same for the
// contracts, with what the columns mean.
#![tactic(auto)]

ghost use Rattle.std.specs.Prelude.{MatchOption, ◌≡◌, length, replicate, set};
ghost use Rattle.switch_tables.specs.Columns.{size, cell};

mod kinds;

pub use kinds::{Exit, Guard};
use lowering::MAX_BANDS;
use scratch::{get, put};
use sheet::limits::MAX_ENTRIES;

// Cells of a column of blocks, cases or ranges; of one of cuts, two for each range; of one of bands.
pub const ENTRIES: usize = MAX_ENTRIES as usize;

pub const CUTS: usize = 2 * ENTRIES;

pub const MOST_BANDS: usize = MAX_BANDS as usize;

// All cells.
pub const SIZE: usize = CASE_CONST + ENTRIES;

// Kept: columns are numbers into one array of words. What a pass may change is then one interval of cells (`Within lo hi`), which
// carries every fact of the other columns at once, and cells of dead columns are used again (BAND_PLACE, BAND_EXIT); with a field
// for each column a pass has a fact for each of the others.
pub const GUARD: usize = 0;

pub const GUARD_LEN: usize = GUARD + ENTRIES;

pub const GUARD_EMITTED: usize = GUARD_LEN + ENTRIES;

pub const GUARD_NODE: usize = GUARD_EMITTED + ENTRIES;

pub const CASE_HEADS: usize = GUARD_NODE + ENTRIES;

pub const CASE_NUMBER: usize = CASE_HEADS + 1;

pub const HEAD_NODE: usize = CASE_NUMBER + ENTRIES;

pub const HEAD_HASH: usize = HEAD_NODE + ENTRIES;

pub const SPANS: usize = HEAD_HASH + ENTRIES;

pub const FIRST: usize = SPANS + 1;

pub const BEHIND: usize = FIRST + ENTRIES;

pub const BLOCK: usize = BEHIND + ENTRIES;

pub const LOW: usize = BLOCK + ENTRIES;

pub const HIGH: usize = LOW + CUTS;

pub const BANDS: usize = HIGH + CUTS;

pub const BAND_FIRST: usize = BANDS + 1;

pub const BAND_LAST: usize = BAND_FIRST + MOST_BANDS;

pub const BAND_HEADS: usize = BAND_LAST + MOST_BANDS;

pub const BAND_NUMBER: usize = BAND_HEADS + 1;

pub const BAND_HEAD: usize = BAND_NUMBER + MOST_BANDS;

pub const BAND_HASH: usize = BAND_HEAD + MOST_BANDS;

pub const BAND_HEAD_HASH: usize = BAND_HASH + MOST_BANDS;

pub const BAND_PLACE: usize = BAND_HASH;

pub const BAND_EXIT: usize = BAND_HEAD_HASH;

// Kept: 1 where the body of the block is wanted, 0 where not. A bool is that word by `u32::from`, and back by `== 1`; a type with both
// ways, as `Guard` has, would be longer than its six uses.
pub const WANTED: usize = BAND_HEAD_HASH + MOST_BANDS;

pub const CASE_PLACE: usize = WANTED + ENTRIES;

pub const CASE_EXIT: usize = CASE_PLACE + ENTRIES;

pub const BODY: usize = CASE_EXIT + ENTRIES;

pub const DISPATCH: usize = BODY + ENTRIES;

pub const DEFAULT: usize = DISPATCH + 1;

pub const END: usize = DEFAULT + 1;

pub const FALLBACK: usize = END + 1;

pub const CASE_CONST: usize = FALLBACK + 1;

// The flat table of a switch: all cells, as many as the columns have.
// Kept: that a count stands in it which is small enough (`cell cells spans_at ≤ max_entries`) is a premise: a Table holds any cells.
#[derive(Drop)]
pub struct Table {
    pub cells: [u32; SIZE],
    pub ghost whole: { length cells ≡ size },
}

impl Table {
    // Each cell is 0.
    pub fn empty() -> Table
        ensures { result.cells ≡ replicate size 0 }
    {
        Table { cells: [0; SIZE] }
    }

    // What a slice holds that has as many cells.
    // Kept: an Option and no TryFrom: of a slice of another length there is nothing more to say.
    pub fn of(cells: &[u32]) -> Option<Table>
        ensures { MatchOption result (length cells.now ≡ size → ⊥) (λ t. t.cells ≡ cells.now) }
    {
        if cells.len() != SIZE {
            return None;
        }
        let mut table = Table::empty();
        table.cells.copy_from_slice(cells);
        Some(table)
    }

    // A cell, 0 past the end.
    pub fn at(&self, i: usize) -> u32
        ensures { result ≡ cell self.now.cells i }
    {
        get(&self.cells[..], i)
    }

    // A cell is written, where there is one.
    pub fn put(&mut self, i: usize, v: u32)
        ensures { self.new.cells ≡ set self.old.cells i v }
    {
        put(&mut self.cells[..], i, v);
    }
}
