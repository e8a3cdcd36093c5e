// The plan of a switch: the flat table is read from the sheet, then each chain and each body is counted and gets its place. The guard of
// a block is counted once, however many lists name it; the chain of a list once, however many cases and bands have it.
#![tactic(auto)]

ghost use Rattle.std.specs.Prelude.{◌≡◌, length, ℕ, ◌+◌, ◌-◌, ◌<◌, ◌≤◌, false, List};
ghost use Rattle.sheet.specs.Node.{kind as kind_of};
ghost use Rattle.checks.specs.Checked.{verdict_number, checked};
ghost use Rattle.lowering.specs.Kinds.{switch_kind};
ghost use Rattle.sheet.specs.Limits.{max_depth};
ghost use Rattle.expr_count.specs.Limits.{cap};
ghost use Rattle.expr_count.specs.Locals.{answer};
ghost use Rattle.expr_count.specs.Count.{tally_by};
ghost use Rattle.switch_tables.specs.Columns.{size, cell, bands_at, dispatch_at, default_at, case_const_at, Within};
ghost use Rattle.switch_tables.specs.Kinds.{coded};
ghost use Rattle.switch_tables.specs.Planned.{TablesBy};
ghost use Rattle.switch_places.specs.Counted.{Counted};
ghost use Rattle.switch_places.specs.Finished.{default_in, end_by, fall_by, last_ones, Finished};
ghost use Rattle.switch_places.specs.Idle.{Exits, idles_from, Second};

mod bodies;
mod chained;
mod guards;
mod heads;

use bodies::bodies;
use chained::{band_chains, case_chains, want_default};
use expr_count::locals::Count;
use expr_count::tallies::{Tally, instructions, plus};
use guards::{guards, word};
use sheet::limits::MAX_DEPTH;
use sheet::{child, field_a, field_c};
use switch_heads::{case_heads, fill_band_heads};
use switch_intervals::read_ranges;
use switch_tables::{
    BANDS, BODY, CASE_EXIT, CASE_HEADS, DEFAULT, DISPATCH, END, ENTRIES, Exit, FALLBACK, Table,
};

// The switch at node 0 is read into the table.
// Kept: that the sheet is accepted, and that it is a Switch, are premises, here, below and in `chained`, as to_image says: a type that has
// them would ask more of callers.
// Kept: `by` and `table` apart, here and below. One is read, the other written: in one struct each promise of the table would
// have to say that the count stays.
pub fn read_table(by: &Count, table: &mut Table)
    ensures { let it = by.now in
        let sheet = it.sheet.now in
        let t = tally_by (answer it.told sheet) max_depth sheet in
        (verdict_number (checked sheet) ≡ 0 → kind_of sheet 0 ≡ switch_kind → TablesBy sheet t table.new.cells) }
{
    let c = guards(by, table);
    let r = case_heads(by.sheet, &mut table.cells[..], c);
    read_ranges(by.sheet, table, r);
    fill_band_heads(table);
}

// Whether the last chain of the cases ends with a jump to the fallback.
fn case_idle(table: &Table) -> bool
    ensures { (s : List ℕ) (ls : List (List ℕ)) → Exits s table.now.cells ls → result ≡ idles_from s false ls }
{
    let n = (table.at(CASE_HEADS) as usize).min(ENTRIES);
    (CASE_EXIT..CASE_EXIT + n).fold(false, |idle, i| match Exit::from(table.at(i)) {
        Exit::Chain { falls } => falls,
        _ => idle,
    })
}

// Behind the chains of the cases: the second Switch, if there are bands. The last jump before it is dropped if it goes there.
// Kept: that a sum is at most `cap` is a premise, here and below, as at `Tally` (expr_count): it may be any word.
fn second(table: &mut Table, b: Tally) -> Tally
    ensures { let was = table.old.cells in ((s : List ℕ) (ls : List (List ℕ)) → Exits s was ls → b.len ≤ cap
        → Second (cell was bands_at) (idles_from s false ls) b was table.new.cells result) }
{
    let any = table.at(BANDS) != 0;
    let drops = any & case_idle(table);
    let at = b.len.saturating_sub(u64::from(drops));
    table.put(DISPATCH, word(at));
    let t = Tally { len: at, ..b };
    if any {
        return plus(t, instructions(1));
    }
    t
}

// The default: its body, or the Unit behind the bodies in its stead.
fn default_at(table: &Table, def: Option<u32>, after: u64) -> u32
    ensures { after ≤ cap → result ≡ default_in table.now.cells (coded def) after }
{
    match def {
        None => word(after),
        Some(k) => table.at(BODY + (k as usize)),
    }
}

// Rotate and Pop, behind bodies from `start` to `after` and what stands for a missing default.
fn end_at(def: Option<u32>, start: u64, after: u64) -> u32
    ensures { after < cap → start ≤ cap → result ≡ end_by (coded def) start after }
{
    match def {
        None => word(after.saturating_add(1)),
        Some(_) => word(start.max(after.saturating_sub(1))),
    }
}

// Where a case goes that no guard takes.
fn fallback_at(table: &Table, default: u32) -> u32
    ensures { let was = table.now.cells in result ≡ fall_by (cell was bands_at) default (cell was dispatch_at) }
{
    if table.at(BANDS) == 0 {
        return default;
    }
    table.at(DISPATCH)
}

// The default, the end and the fallback, with bodies from `start` to `after`.
fn finish(table: &mut Table, def: Option<u32>, start: u64, after: u64)
    ensures within { Within default_at case_const_at table.old.cells table.new.cells }
    ensures finished { after < cap → start ≤ cap → Finished table.old.cells table.new.cells (coded def) start after }
{
    let default = default_at(table, def, after);
    let fallback = fallback_at(table, default);
    table.put(DEFAULT, default);
    table.put(END, end_at(def, start, after));
    table.put(FALLBACK, fallback);
}

// Rotate and Pop, and a missing default's Unit.
fn closing(def: Option<u32>) -> u32
    ensures { result ≡ last_ones (coded def) }
{
    match def {
        None => 3,
        Some(_) => 2,
    }
}

// What the switch emits, and whether it reaches an `eval`; its parts get their places. The answer's length is not told.
pub fn count_table(by: &Count, table: &mut Table) -> Tally
    ensures { let it = by.now in
        let sheet = it.sheet.now in
        let t = tally_by (answer it.told sheet) max_depth sheet in
        (verdict_number (checked sheet) ≡ 0 → kind_of sheet 0 ≡ switch_kind
        → TablesBy sheet t table.old.cells
        → Counted sheet t table.new.cells result) }
{
    let sheet = by.sheet;
    let n = (field_a(sheet, 0) as usize).min(ENTRIES);
    let def = field_c(sheet, 0).checked_sub(1);
    want_default(table, n, def);
    let head = plus(by.tally(MAX_DEPTH, child(0)), instructions(1));
    let cases = case_chains(sheet, table, head);
    let switched = second(table, cases);
    let bands = band_chains(table, switched);
    let all = bodies(by, table, n, bands);
    finish(table, def, bands.len, all.len);
    plus(all, instructions(closing(def)))
}

// As `read_table`, in a slice. One that is not as long as a table stays as it is.
// Kept: beside `read_table`, as `count` beside `count_table`: as `band_heads` of switch_heads.
pub fn read(by: &Count, flat: &mut [u32])
    ensures { let it = by.now in
        let sheet = it.sheet.now in
        let t = tally_by (answer it.told sheet) max_depth sheet in
        (length flat.old ≡ size → verdict_number (checked sheet) ≡ 0 → kind_of sheet 0 ≡ switch_kind → TablesBy sheet t flat.new) }
{
    if let Some(mut table) = Table::of(flat) {
        read_table(by, &mut table);
        flat.copy_from_slice(&table.cells[..]);
    }
}

// As `count_table`, in a slice. One that is not as long as a table stays as it is.
// Kept: no instruction where the slice is no table. Of such a slice nothing is promised, and the function cannot fail.
pub fn count(by: &Count, flat: &mut [u32]) -> Tally
    ensures { let it = by.now in
        let sheet = it.sheet.now in
        let t = tally_by (answer it.told sheet) max_depth sheet in
        (length flat.old ≡ size → verdict_number (checked sheet) ≡ 0 → kind_of sheet 0 ≡ switch_kind
        → TablesBy sheet t flat.old
        → Counted sheet t flat.new result) }
{
    let Some(mut table) = Table::of(flat) else {
        return instructions(0);
    };
    let all = count_table(by, &mut table);
    flat.copy_from_slice(&table.cells[..]);
    all
}
