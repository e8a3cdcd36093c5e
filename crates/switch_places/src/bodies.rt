// The bodies of the blocks: counted, and each at its place.
ghost use Rattle.std.specs.Prelude.{◌≡◌, ℕ, ◌+◌, ◌<◌, ◌≤◌, List, set};
ghost use Rattle.sheet.specs.Node.{next as next_of};
ghost use Rattle.sheet.specs.Limits.{max_depth, max_entries};
ghost use Rattle.expr_count.specs.Limits.{cap};
ghost use Rattle.expr_count.specs.Locals.{answer};
ghost use Rattle.expr_count.specs.Count.{tally_by};
ghost use Rattle.expr_count.specs.Tally as tallies;
ghost use Rattle.switch_tables.specs.Columns.{guard_node_at, body_at, dispatch_at, cell, Within};
ghost use Rattle.switch_tables.specs.Table.{GuardsBy};
ghost use Rattle.switch_tables.specs.Planned.{want_in, wanted_by};
ghost use Rattle.switch_places.specs.Laid.{BodiesLaid};
ghost use Rattle.switch_places.specs.Body.{place_if, body_if};

use crate::guards::word;
use expr_count::locals::Count;
use expr_count::tallies::{Tally, instructions, plus};
use sheet::limits::MAX_DEPTH;
use sheet::next;
use switch_tables::{BODY, GUARD_NODE, Table, WANTED};

// The body of block `k` behind `b`, if it is wanted.
// Kept: that a sum is at most `cap` is a premise, here and below, as at `Tally` (expr_count): a Tally may hold any words. So is
// `k < max_entries`, as `n` of `bodies`.
fn body(by: &Count, table: &mut Table, k: usize, b: Tally) -> Tally
    requires { k < max_entries }
    ensures place { let was = table.old.cells in
        (b.len ≤ cap → table.new.cells ≡ set was (body_at + k) (place_if (want_in was k) b.len)) }
    ensures sum { let was = table.old.cells in
        let it = by.now in
        let sheet = it.sheet.now in
        let t = tally_by (answer it.told sheet) max_depth sheet in
        (b.len ≤ cap → b.emitted ≤ cap
        → result ≡ tallies.capped (tallies.plus b (body_if t (next_of sheet (cell was (guard_node_at + k))) (want_in was k)))) }
{
    if table.at(WANTED + k) == 1 {
        table.put(BODY + k, word(b.len));
        let j = next(by.sheet, table.at(GUARD_NODE + k));
        return plus(b, plus(by.tally(MAX_DEPTH, j), instructions(1)));
    }
    table.put(BODY + k, 0);
    b
}

// The bodies of `n` blocks, behind `b`.
// Kept: `n` is the caller's count of blocks, and what is asked of it (`n ≤ max_entries`) follows from its `min`. A type of
// numbers up to 64 would be unmade at each sum with a column.
pub fn bodies(by: &Count, table: &mut Table, n: usize, b: Tally) -> Tally
    requires { n ≤ max_entries }
    ensures { let it = by.now in
        let sheet = it.sheet.now in
        let t = tally_by (answer it.told sheet) max_depth sheet in
        let was = table.old.cells in ((ls : List (List ℕ)) (def : ℕ) → b.len ≤ cap → b.emitted ≤ cap
        → GuardsBy sheet t was n → ((k : ℕ) → k < n → want_in was k ≡ wanted_by sheet def ls k)
        → BodiesLaid sheet t ls def n b table.new.cells result × Within body_at dispatch_at was table.new.cells) }
{
    let mut sum = b;
    // Kept: an index, since block `k` is read in two columns and written in a third.
    for k in 0..n {
        sum = body(by, table, k, sum);
    }
    sum
}
