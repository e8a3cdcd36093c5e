// The guards of the blocks, each counted once.
ghost use Rattle.std.specs.Prelude.{◌≡◌, ◌<◌, ◌≤◌, min};
ghost use Rattle.sheet.specs.Node.{kind as kind_of};
ghost use Rattle.check_switches.specs.Switch.{first_case};
ghost use Rattle.lowering.specs.Kinds.{bool_kind};
ghost use Rattle.lowering.specs.SwitchSheet.{block_count};
ghost use Rattle.sheet.specs.Limits.{max_depth, max_entries};
ghost use Rattle.expr_count.specs.Limits.{cap};
ghost use Rattle.expr_count.specs.Locals.{answer};
ghost use Rattle.expr_count.specs.Count.{Rec, tally_by};
ghost use Rattle.switch_tables.specs.Columns.{guard_at, case_heads_at, Within};
ghost use Rattle.switch_tables.specs.Kinds.{guard_word};
ghost use Rattle.switch_tables.specs.Table.{GuardsBy, known_of};
ghost use Rattle.switch_places.specs.Known.{with_known, with_guard};

use expr_count::locals::Count;
use expr_count::tallies::{instructions, plus};
use sheet::kinds::BOOL;
use sheet::limits::MAX_DEPTH;
use sheet::{child, field_a, kind, next};
use switch_tables::{ENTRIES, GUARD, GUARD_EMITTED, GUARD_LEN, GUARD_NODE, Guard, Table};

// A count, which is cut off, as a word.
// Kept: 0 for a number that is no word, which no such count is; an Option would be taken apart by each caller.
pub fn word(n: u64) -> u32
    ensures { n ≤ cap → result ≡ n }
{
    u32::try_from(n).unwrap_or(0)
}

// Guard `k`: what it is and what it adds.
// Kept: `k < max_entries` is a premise, here and in `put_guard`, as `n` of `bodies`: `guards` counts up to its `min`, and a type of such
// numbers would be unmade at each sum with a column.
fn put_known(table: &mut Table, k: usize, guard: Guard, len: u32, emitted: u32)
    requires { k < max_entries }
    ensures { table.new.cells ≡ with_known table.old.cells k (record { kind = guard_word guard; len = len; emitted = emitted }) }
{
    table.put(GUARD + k, u32::from(guard));
    table.put(GUARD_LEN + k, len);
    table.put(GUARD_EMITTED + k, emitted);
}

// What the guard at node `j` is, if it is constant.
fn constant(sheet: &[u8], j: u32) -> Guard
    ensures { let sheet = sheet.now in ((t : Rec) → kind_of sheet j ≡ bool_kind
        → record { kind = guard_word result; len = 0; emitted = 0 } ≡ known_of sheet t j) }
{
    if field_a(sheet, j) == 0 {
        Guard::Never
    } else {
        Guard::Always
    }
}

// Guard `k`, at node `j`.
fn put_guard(by: &Count, table: &mut Table, k: usize, j: u32)
    requires { k < max_entries }
    ensures { let it = by.now in
        let sheet = it.sheet.now in
        let t = tally_by (answer it.told sheet) max_depth sheet in
        table.new.cells ≡ with_guard sheet t table.old.cells k j }
{
    table.put(GUARD_NODE + k, j);
    if kind(by.sheet, j) == BOOL {
        put_known(table, k, constant(by.sheet, j), 0, 0);
        return;
    }
    let t = plus(by.tally(MAX_DEPTH, j), instructions(1));
    put_known(
        table,
        k,
        Guard::Tried {
            defeated: t.defeated,
        },
        word(t.len),
        word(t.emitted),
    );
}

// The guards of all blocks. The node behind the blocks is answered.
pub fn guards(by: &Count, table: &mut Table) -> u32
    ensures behind { let sheet = by.now.sheet.now in (block_count sheet ≤ max_entries → result ≡ first_case sheet) }
    ensures guards { let it = by.now in
        let sheet = it.sheet.now in
        let t = tally_by (answer it.told sheet) max_depth sheet in
        GuardsBy sheet t table.new.cells (min (block_count sheet) max_entries) }
    ensures within { Within guard_at case_heads_at table.old.cells table.new.cells }
{
    let sheet = by.sheet;
    let n = (field_a(sheet, 0) as usize).min(ENTRIES);
    // Kept: a walk by hand. Each step passes a guard and its body, which are two siblings; and the node behind the last is answered, as in
    // `case_heads` of switch_heads.
    let mut j = next(sheet, child(0));
    for k in 0..n {
        put_guard(by, table, k, j);
        j = next(sheet, next(sheet, j));
    }
    j
}
