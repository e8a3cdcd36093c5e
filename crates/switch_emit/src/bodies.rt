// The bodies of the blocks, and the end of the switch.
// Kept: sheet, store and table as three parameters, and what is known of them left of an arrow: lib.rt says why.
ghost use Rattle.std.specs.Prelude.{◌≡◌, ℕ, ◌<◌, ◌≤◌, Bool, List};
ghost use Rattle.sheet.specs.Limits.{max_depth, max_entries};
ghost use Rattle.lowering.specs.SwitchSheet.{block_count};
ghost use Rattle.scratch.specs.declared.Layout.{Layout};
ghost use Rattle.expr_model.specs.Made.{lowered};
ghost use Rattle.switch_model.specs.Change as change;
ghost use Rattle.switch_tables.specs.Columns.{cell, end_at};
ghost use Rattle.switch_tables.specs.Kinds.{coded};
ghost use Rattle.switch_tables.specs.Table.{Guards};
ghost use Rattle.switch_tables.specs.Planned.{Tables, want_in};
ghost use Rattle.switch_emit.specs.Ready.{Ready};
ghost use Rattle.switch_emit.specs.Parts as parts;
ghost use Rattle.switch_emit.specs.From.{DoneFrom};

use crate::jumps::{jump, kept};
use bytecode::Op;
use expr_emit::expression;
use scratch::get;
use scratch_store::Store;
use sheet::limits::MAX_DEPTH;
use sheet::{field_a, next};
use switch_tables::{END, ENTRIES, GUARD_NODE, WANTED};

// The body of block `k` over the subject, and the jump to the end, unless it is dropped, if the body is wanted.
fn body(sheet: &[u8], store: &mut Store, flat: &[u32], k: usize, end: Option<u32>)
    requires { k < max_entries }
    ensures does { let sheet = sheet.now in
        ((l : Layout) (drop : Bool) → end ≡ parts.goes drop (cell flat.now end_at) → Ready sheet
        → Guards sheet flat.now (block_count sheet) → k < block_count sheet
        → DoneFrom sheet l store.old store.new
        (parts.body_if (want_in flat.now) sheet (lowered max_depth sheet)
        (cell flat.now end_at) drop k)) }
    ensures same_reference { store.new.scratch.ghost_name ≡ store.old.scratch.ghost_name }
{
    if get(flat, WANTED + k) == 1 {
        store.state.at_depth(1);
        let j = next(sheet, get(flat, GUARD_NODE + k));
        expression(MAX_DEPTH, sheet, store, j);
        jump(store, end);
    }
}

// The last block below `n` whose body is wanted.
// Kept: one call of `rposition`, as `last_case`.
fn last_wanted(flat: &[u32], n: usize) -> Option<usize>
    requires { n ≤ max_entries }
    ensures { parts.LastBelow (want_in flat.now) n result }
{
    (WANTED..WANTED + n).rposition(|i| get(flat, i) == 1)
}

// The bodies; `falls` says that the end follows.
pub fn bodies(sheet: &[u8], store: &mut Store, flat: &[u32], falls: bool)
    ensures does { let sheet = sheet.now in
        ((l : Layout) → Ready sheet → Tables sheet flat.now
        → DoneFrom sheet l store.old store.new
        (change.bodies_to sheet (lowered max_depth sheet) (want_in flat.now) (cell flat.now end_at) falls
        (block_count sheet) 0)) }
    ensures same_reference { store.new.scratch.ghost_name ≡ store.old.scratch.ghost_name }
{
    let n = (field_a(sheet, 0) as usize).min(ENTRIES);
    let dropped = if falls { last_wanted(flat, n) } else { None };
    let end = get(flat, END);
    for k in 0..n {
        body(sheet, store, flat, k, kept(end, dropped, k));
    }
}

// Unit for a missing default.
pub fn missing(store: &mut Store, def: Option<u32>)
    ensures does { (l : Layout) → (s : List ℕ)
        → DoneFrom s l store.old store.new
        (change.missing_to (coded def)) }
    ensures same_reference { store.new.scratch.ghost_name ≡ store.old.scratch.ghost_name }
{
    if def.is_none() {
        store.state.at_depth(1);
        store.emit(Op::Unit, 0, 0);
    }
}

// The subject goes from below the value.
pub fn close(store: &mut Store)
    ensures does { (l : Layout) → (s : List ℕ)
        → DoneFrom s l store.old store.new
        change.close_to }
    ensures same_reference { store.new.scratch.ghost_name ≡ store.old.scratch.ghost_name }
{
    store.state.at_depth(2);
    store.emit(Op::Rotate(1), 0, 0);
    store.emit(Op::Pop, 0, 0);
}
