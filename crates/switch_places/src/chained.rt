// The chains of the heads: counted, and each at its place.
ghost use Rattle.std.specs.Prelude.{◌≡◌, ℕ, suc, ◌+◌, ◌<◌, ◌≤◌, List, eqb};
ghost use Rattle.sheet.specs.Limits.{max_entries};
ghost use Rattle.sheet.specs.Node.{kind as kind_of};
ghost use Rattle.checks.specs.Checked.{verdict_number, checked};
ghost use Rattle.lowering.specs.Kinds.{switch_kind};
ghost use Rattle.expr_count.specs.Limits.{cap};
ghost use Rattle.expr_count.specs.Count.{Rec};
ghost use Rattle.expr_count.specs.Tally as tallies;
ghost use Rattle.switch_count.specs.Arms.{end_tally};
ghost use Rattle.switch_count.specs.Total.{case_lists, split_lists};
ghost use Rattle.switch_tables.specs.Columns.{guard_len_at, guard_emitted_at, wanted_at, body_at, case_place_at, case_exit_at};
ghost use Rattle.switch_tables.specs.Columns.{band_place_at, band_exit_at, cell, Within};
ghost use Rattle.switch_tables.specs.Kinds.{exit_word, coded};
ghost use Rattle.switch_tables.specs.declared.kinds.Exit.TheVariants as exits;
ghost use Rattle.switch_tables.specs.Planned.{TablesBy, entries, want_in};
ghost use Rattle.switch_places.specs.Laid.{Laid};
ghost use Rattle.switch_places.specs.Heads.{HeadsIn, ListsStay};
ghost use Rattle.switch_places.specs.GuardChain.{either, sum_in, tries_in, Reads, ChainOf, Cells, LaidOne};

use crate::guards::word;
use crate::heads::{Heads, OF_BANDS, OF_CASES};
use expr_count::tallies::{Tally, instructions, nothing, plus};
use switch_lists::{Cases, Lists, Pieces};
use switch_tables::{ENTRIES, Exit, GUARD, GUARD_EMITTED, GUARD_LEN, Guard, Table, WANTED};

// A chain: what it adds, and where its list goes.
#[derive(Clone, Copy)]
struct Chain {
    pub sum: Tally,
    pub exit: Exit,
}

// The end of a list: of a chain, which has a jump there, if guards were tried, and `sum` is what they add; else of none.
// Kept: that a sum is at most `cap` is a premise, here and below, as at `Tally` (expr_count): a Tally may hold any words. That the sheet is
// accepted and a Switch is one too: lib.rt says why.
fn ended(sum: Option<Tally>, falls: bool, free: Exit) -> Chain
    ensures sum_value { (sum_in sum).len ≤ cap → (sum_in sum).emitted ≤ cap
        → result.sum ≡ tallies.capped (tallies.plus (sum_in sum) (end_tally (tries_in sum))) }
    ensures exit_value { result.exit ≡ either (tries_in sum) (exits.Chain falls) free }
{
    match sum {
        Some(sum) => Chain {
            sum: plus(sum, instructions(1)),
            exit: Exit::Chain { falls },
        },
        None => Chain {
            sum: nothing(),
            exit: free,
        },
    }
}

// What the guard of block `k` adds, which is tried.
fn added(table: &Table, k: usize, defeated: bool) -> Tally
    requires { k < 4294967296 }
    ensures { let was = table.now.cells in
        result ≡ tallies.counted (cell was (guard_len_at + k)) (cell was (guard_emitted_at + k)) defeated }
{
    Tally {
        len: table.at(GUARD_LEN + k) as u64,
        emitted: table.at(GUARD_EMITTED + k) as u64,
        defeated,
    }
}

// The chain of a list; the blocks that it reaches are wanted.
fn chain_of(table: &mut Table, list: &[u32]) -> Chain
    ensures { (s : List ℕ) (t : Rec) (l : List ℕ) → Reads s t table.old.cells list.now l
        → ChainOf s t l table.old.cells table.new.cells result.sum (exit_word result.exit) }
{
    let mut sum = None;
    for b in list {
        let k = *b as usize;
        match Guard::from(table.at(GUARD + k)) {
            Guard::Never => {}
            Guard::Always => {
                table.put(WANTED + k, 1);
                return ended(sum, false, Exit::Body(*b));
            }
            Guard::Tried { defeated } => {
                table.put(WANTED + k, 1);
                sum = Some(plus(sum.unwrap_or(nothing()), added(table, k, defeated)));
            }
        }
    }
    ended(sum, true, Exit::Fallback)
}

// The chain of a list behind `b`: its place and its exit go to these cells.
fn laid(table: &mut Table, list: &[u32], place: usize, exit: usize, b: Tally) -> Tally
    ensures { (s : List ℕ) (t : Rec) (l : List ℕ) → Reads s t table.old.cells list.now l → Cells place exit
        → b.len ≤ cap → LaidOne s t l place exit b table.old.cells table.new.cells result }
{
    let y = chain_of(table, list);
    table.put(place, word(b.len));
    table.put(exit, u32::from(y.exit));
    plus(b, y.sum)
}

// The chains of the lists of heads, behind `b`.
fn list_chains<L: Lists>(lists: &L, table: &mut Table, heads: Heads, b: Tally) -> Tally
    ensures { let was = table.old.cells in
        ((s : List ℕ) (t : Rec) (ls : List (List ℕ)) (lo hi : ℕ) → TablesBy s t was
        → b.len ≤ cap → b.emitted ≤ cap
        → HeadsIn s was (L.list_of lists.now was) heads lo hi ls
        → ListsStay (L.known lists.now) (L.list_of lists.now) was lo hi
        → Laid s t ls heads.places heads.exits b was table.new.cells result
        × Within lo hi was table.new.cells) }
{
    let n = (table.at(heads.count) as usize).min(heads.most);
    let mut room = [0u32; ENTRIES];
    let mut sum = b;
    // Kept: an index, since head `q` is read in one column and written in two others of the table.
    for q in 0..n {
        let list = lists.list(&table.cells[..], table.at(heads.nodes + q), &mut room[..]);
        sum = laid(table, list, heads.places + q, heads.exits + q, sum);
    }
    sum
}

// The chains of the cases, behind `b`.
pub fn case_chains(sheet: &[u8], table: &mut Table, b: Tally) -> Tally
    ensures { let sheet = sheet.now in
        let was = table.old.cells in
        ((t : Rec) → verdict_number (checked sheet) ≡ 0
        → kind_of sheet 0 ≡ switch_kind → TablesBy sheet t was → b.len ≤ cap → b.emitted ≤ cap
        → Laid sheet t (case_lists sheet) case_place_at case_exit_at b was table.new.cells result
        × Within wanted_at body_at was table.new.cells) }
{
    list_chains(&Cases { sheet }, table, OF_CASES, b)
}

// The chains of the bands, behind `b`.
pub fn band_chains(table: &mut Table, b: Tally) -> Tally
    ensures { let was = table.old.cells in
        ((s : List ℕ) (t : Rec) → verdict_number (checked s) ≡ 0 → kind_of s 0 ≡ switch_kind
        → TablesBy s t was → b.len ≤ cap → b.emitted ≤ cap
        → Laid s t (split_lists (entries s)) band_place_at band_exit_at b was table.new.cells result
        × Within band_place_at case_place_at was table.new.cells) }
{
    list_chains(&Pieces, table, OF_BANDS, b)
}

// Of `n` blocks the default is wanted, and no other.
pub fn want_default(table: &mut Table, n: usize, def: Option<u32>)
    requires { n ≤ max_entries }
    ensures wanted { (k : ℕ) → k < n → want_in table.new.cells k ≡ eqb (coded def) (suc k) }
    ensures within { Within wanted_at case_place_at table.old.cells table.new.cells }
{
    // Kept: one write for each block. `fill` of the column, and a write behind it, would ask whether the default is below `n`.
    for k in 0..n {
        table.put(WANTED + k, u32::from(def == Some(k as u32)));
    }
}
