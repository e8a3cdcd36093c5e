// The image of a Switch.
// Kept: sheet, image and scratch stand apart: lib.rt says why.
ghost use Rattle.std.specs.Prelude.{◌+◌, ◌*◌, ◌≤◌, ◌≡◌, ◌++◌, min, length, drop};
ghost use Rattle.sheet.specs.Node.{kind};
ghost use Rattle.lowering.specs.Limits.{switch_width, case_width, range_width};
ghost use Rattle.lowering.specs.Kinds.{switch_kind};
ghost use Rattle.lowering.specs.Image.{words};
ghost use Rattle.lowering.specs.Outcome as outcomes;
ghost use Rattle.scratch.specs.declared.Layout.{Layout};
ghost use Rattle.switch_tables.specs.Planned as read;
ghost use Rattle.write_rows.specs.TableRows.{table_count};
ghost use Rattle.to_image.specs.Making.{Ready, Built};
ghost use Rattle.to_image.specs.Switched.{Planned, Settled};

use lowering::{CASE_WIDTH, RANGE_WIDTH, SWITCH_WIDTH};
use scratch::Layout;
use scratch_locals::begin;
use scratch_store::Store;
use sheet::{field_b, node_count};
use switch_emit::{case_consts, switch};
use switch_tables::{BANDS, DEFAULT, FALLBACK, Table};
use write_front::{Source, Tables, image_len};
use write_tables::{put_cases, put_ranges, put_switches, table_count};

// Words of a table, of a row of cases and of a row of ranges.
const TABLE_WORDS: u32 = SWITCH_WIDTH as u32;

const CASE_WORDS: u32 = CASE_WIDTH as u32;

const RANGE_WORDS: u32 = RANGE_WIDTH as u32;

// The Switch lowered into the scratch, with the constants of its Cases; their places go into the table.
fn held<'a>(sheet: &[u8], layout: Layout, scratch: &'a mut [u32], table: &mut Table) -> Store<'a>
    ensures { Planned sheet.now layout (length scratch.old) table.old.cells
        → Settled sheet.now layout result.scratch.now result.state table.new.cells }
{
    begin(sheet, scratch, layout);
    let mut store = Store::start(scratch, layout);
    switch(sheet, &mut store, &table.cells[..]);
    case_consts(sheet, &mut store, &mut table.cells[..]);
    store
}

// The words of a Switch that the scratch holds: the front, and the tables behind it.
fn write(sheet: &[u8], store: &Store, image: &mut [u32], table: &Table)
    ensures { let program = outcomes.lower sheet.now in
        ((l : Layout) → Settled sheet.now l store.now.scratch.now store.now.state table.now.cells
        → length (words program) ≤ length image.old
        → image.new ≡ words program ++ drop (length (words program)) image.old) }
{
    let cases = field_b(sheet, 0);
    let bands = table.at(BANDS);
    let state = store.state;
    let front = Source {
        sheet,
        scratch: store.words(),
        state,
    };
    let a = front.put(
        image,
        Tables {
            switches: table_count(bands),
            cases,
            ranges: bands,
        },
    );
    let b = put_switches(
        image,
        a,
        cases,
        table.at(FALLBACK),
        bands,
        table.at(DEFAULT),
    );
    let c = put_cases(image, b, &table.cells[..], cases as usize);
    put_ranges(image, c, &table.cells[..], bands as usize);
}

// How many words the tables of `cases` Cases and `bands` bands have, or the greatest word where they are more.
fn tables_len(cases: u32, bands: u32) -> u32
    ensures { result ≡ min (switch_width * table_count bands + case_width * cases + range_width * bands) 4294967295 }
{
    (TABLE_WORDS * table_count(bands))
        .saturating_add(CASE_WORDS.saturating_mul(cases))
        .saturating_add(RANGE_WORDS.saturating_mul(bands))
}

// The image of a Switch: its word count; its words are written where they fit.
pub fn build_switch(
    sheet: &[u8],
    image: &mut [u32],
    scratch: &mut [u32],
    most: u32,
    table: &mut Table,
) -> usize
    ensures { let sheet = sheet.now in
        let cells = table.old.cells in
        (Ready sheet most (length scratch.old) → kind sheet 0 ≡ switch_kind → read.Tables sheet cells
        → read.Placed sheet cells
        → Built sheet image.old result image.new) }
{
    let layout = Layout {
        most,
        nodes: node_count(sheet),
    };
    let store = held(sheet, layout, scratch, table);
    let n = image_len(store.state, tables_len(field_b(sheet, 0), table.at(BANDS)));
    if image.len() < n {
        return n;
    }
    write(sheet, &store, image, table);
    n
}
