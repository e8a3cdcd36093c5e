// The sections of a switch's tables, by one look into the flat table for each row. Each function writes the whole of a part that is lent
// to it, of just the length that the section has.
#![tactic(auto)]

ghost use Rattle.std.specs.Prelude.{◌≡◌, ◌*◌, ◌≤◌, ◌<◌, length};
ghost use Rattle.sheet.specs.Limits.{max_entries};
ghost use Rattle.bytecode.specs.Switch.{switch_words};
ghost use Rattle.lowering.specs.Limits.{switch_width, case_width, range_width, max_bands};
ghost use Rattle.lowering.specs.Image.{section};
ghost use Rattle.write_rows.specs.TableRows.{rows_to, tables_of, table_count, target_at, case_words_in, range_words_in};

use lowering::{CASE_WIDTH, RANGE_WIDTH, SWITCH_WIDTH};
use scratch::get;
use switch_tables::{
    BAND_EXIT, BAND_FIRST, BAND_LAST, BAND_NUMBER, BAND_PLACE, BODY, CASE_CONST, CASE_EXIT,
    CASE_NUMBER, CASE_PLACE, DEFAULT, Exit, FALLBACK, HIGH, LOW,
};
use write_sections::put;

// The table of cases, and that of ranges where there are any.
// Kept: four numbers, here and in `put_switches` of write_tables. A struct of them would be made in `write` of to_image, for that one call.
pub fn switch_rows(out: &mut [u32], cases: u32, fallback: u32, ranges: u32, default: u32)
    requires { length out.old ≡ switch_width * table_count ranges }
    ensures { out.new ≡ section switch_words (tables_of cases fallback ranges default) }
{
    put(out, 0, [0, 0, cases, fallback]);
    if 0 < ranges {
        put(out, SWITCH_WIDTH, [1, 0, ranges, default]);
    }
}

// Where a list goes: its number stands in cell `number`, its exit and the place of its chain in two columns.
// Kept: a match. Each arm reads one cell of the table; closures would be chosen by it.
fn target_of(flat: &[u32], number: usize, exits: usize, places: usize, fallback: usize) -> u32
    requires { (exits < 4096) × (places < 4096) }
    ensures { result ≡ target_at flat.now number exits places fallback }
{
    let q = get(flat, number) as usize;
    match Exit::from(get(flat, exits + q)) {
        Exit::Chain { falls: _ } => get(flat, places + q),
        Exit::Fallback => get(flat, fallback),
        Exit::Body(k) => get(flat, BODY + (k as usize)),
    }
}

// Kept: `case_rows` and `range_rows` stay two loops of a line. One loop would take a closure that gives `[u32; N]`, and a bound `Fn` that
// names a const parameter is not covered by this Rattle (tried).

// The row of case `i`.
fn case_row(flat: &[u32], i: usize) -> [u32; CASE_WIDTH]
    requires { i < max_entries }
    ensures { result ≡ case_words_in flat.now i }
{
    [
        target_of(flat, CASE_NUMBER + i, CASE_EXIT, CASE_PLACE, FALLBACK),
        get(flat, CASE_CONST + i),
    ]
}

// The rows of `n` cases.
// Kept: `n` says that `out` is whole rows, and its length by the width would be divided for what is known; std's `as_chunks_mut` says
// nothing of what the slice ends as.
pub fn case_rows(out: &mut [u32], flat: &[u32], n: usize)
    requires { (n ≤ max_entries) × (length out.old ≡ case_width * n) }
    ensures { out.new ≡ rows_to (case_words_in flat.now) n }
{
    for i in 0..n {
        put(out, CASE_WIDTH * i, case_row(flat, i));
    }
}

// The row of band `i`.
// Kept: a piece is one word of the table, which `piece_list` compares as it is; an enum would be made of it for these few lines.
fn range_row(flat: &[u32], i: usize) -> [u32; RANGE_WIDTH]
    requires { i < max_bands }
    ensures { result ≡ range_words_in flat.now i }
{
    let from = (get(flat, BAND_FIRST + i) / 2) as usize;
    let last = get(flat, BAND_LAST + i);
    let to = (last / 2 + last % 2) as usize;
    [
        get(flat, LOW + from),
        get(flat, HIGH + from),
        get(flat, LOW + to),
        get(flat, HIGH + to),
        1 - last % 2,
        target_of(flat, BAND_NUMBER + i, BAND_EXIT, BAND_PLACE, DEFAULT),
    ]
}

// The rows of `n` bands.
// Kept: `n` beside `out`, as in case_rows.
pub fn range_rows(out: &mut [u32], flat: &[u32], n: usize)
    requires { (n ≤ max_bands) × (length out.old ≡ range_width * n) }
    ensures { out.new ≡ rows_to (range_words_in flat.now) n }
{
    for i in 0..n {
        put(out, RANGE_WIDTH * i, range_row(flat, i));
    }
}
