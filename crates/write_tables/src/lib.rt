// The tables of a switch, each section at its place in the image; what does not fit is left out.
#![tactic(auto)]

ghost use Rattle.std.specs.Prelude.{◌≡◌, ◌≤◌};
ghost use Rattle.sheet.specs.Limits.{max_entries};
ghost use Rattle.bytecode.specs.Switch.{switch_words};
ghost use Rattle.lowering.specs.Limits.{max_bands};
ghost use Rattle.lowering.specs.Image.{section};
ghost use Rattle.write_rows.specs.TableRows.{rows_to, tables_of, table_count, case_words_in, range_words_in};
ghost use Rattle.write_front.specs.Puts.{Puts};

use lowering::{CASE_WIDTH, RANGE_WIDTH, SWITCH_WIDTH};
use switch_tables::{ENTRIES, MOST_BANDS};
use write_front::put_section;
use write_rows::{case_rows, range_rows, switch_rows};

// How many tables there are, with `ranges` rows of ranges.
pub fn table_count(ranges: u32) -> u32
    ensures { result ≡ table_count ranges }
{
    1 + ranges.min(1)
}

// The tables.
// Kept: four numbers, as `switch_rows`.
pub fn put_switches(
    image: &mut [u32],
    at: usize,
    cases: u32,
    fallback: u32,
    ranges: u32,
    default: u32,
) -> usize
    ensures { Puts image.old image.new at result (section switch_words (tables_of cases fallback ranges default)) }
{
    let k = SWITCH_WIDTH * (table_count(ranges) as usize);
    put_section(
        image,
        at,
        k,
        |part| switch_rows(part, cases, fallback, ranges, default),
    )
}

// Kept: `put_cases` and `put_ranges` are one call of `put_section` each, at another bound, width and row. One function of both would take
// these three as well, and ask of the row's writer what `put_section` asks of `write`.
// The rows of `n` cases, by the flat table.
pub fn put_cases(image: &mut [u32], at: usize, flat: &[u32], n: usize) -> usize
    ensures { n ≤ max_entries → Puts image.old image.new at result
        (rows_to (case_words_in flat.now) n) }
{
    if ENTRIES < n {
        return at;
    }
    put_section(image, at, CASE_WIDTH * n, |part| case_rows(part, flat, n))
}

// The rows of `n` bands, by the flat table.
pub fn put_ranges(image: &mut [u32], at: usize, flat: &[u32], n: usize) -> usize
    ensures { n ≤ max_bands → Puts image.old image.new at result
        (rows_to (range_words_in flat.now) n) }
{
    if MOST_BANDS < n {
        return at;
    }
    put_section(image, at, RANGE_WIDTH * n, |part| range_rows(part, flat, n))
}
