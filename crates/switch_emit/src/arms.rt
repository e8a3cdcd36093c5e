// Chains of guards.
// Kept: sheet, store and table as three parameters, and what is known of them left of an arrow: lib.rt says why.
ghost use Rattle.std.specs.Prelude.{◌≡◌, ℕ, ◌≤◌, Bool, false, List};
ghost use Rattle.sheet.specs.Limits.{max_depth, max_entries};
ghost use Rattle.lowering.specs.Nodes.{Right, Valid};
ghost use Rattle.lowering.specs.SwitchSheet.{block_count};
ghost use Rattle.scratch.specs.declared.Layout.{Layout};
ghost use Rattle.expr_model.specs.Made.{lowered};
ghost use Rattle.scratch_store.specs.Stores.{Done};
ghost use Rattle.switch_model.specs.Change as change;
ghost use Rattle.lowering.specs.Limits.{max_bands};
ghost use Rattle.switch_tables.specs.Columns.{size, cell, fallback_at, default_at};
ghost use Rattle.switch_tables.specs.Table.{Guards};
ghost use Rattle.switch_tables.specs.Planned.{Tables, Placed, entries};
ghost use Rattle.switch_emit.specs.Ready.{Ready, Named};
ghost use Rattle.switch_emit.specs.Heads.{Heads, LastDrops};
ghost use Rattle.switch_emit.specs.Parts as parts;

use crate::jumps::{end_arm, kept};
use bytecode::Op;
use expr_emit::expression;
use scratch::get;
use scratch_store::Store;
use sheet::limits::MAX_DEPTH;
use sheet::position;
use switch_lists::{Cases, Lists, Pieces};
use switch_tables::{
    BAND_HEAD, BAND_HEADS, BODY, CASE_EXIT, CASE_HEADS, DEFAULT, ENTRIES, Exit, FALLBACK, GUARD,
    GUARD_NODE, Guard, HEAD_NODE, MOST_BANDS,
};

// So many cells of the flat table.
// Kept: no Range: the contract of `list_arms` speaks of `at` and of `cells`, and of a Range it would have a difference for `cells`.
#[derive(Clone, Copy)]
struct Column {
    pub at: usize,
    pub cells: usize,
}

// The guard at node `g`, and the jump to place `to`.
fn try_one(sheet: &[u8], store: &mut Store, g: u32, to: u32)
    ensures does { let sheet = sheet.now in ((l : Layout) → Right sheet → Valid sheet g
        → Done sheet l store.old store.new
        (parts.try_one sheet (lowered max_depth sheet) to g)) }
    ensures same_reference { store.new.scratch.ghost_name ≡ store.old.scratch.ghost_name }
{
    expression(MAX_DEPTH, sheet, store, g);
    store.emit(Op::JumpIfTrue(to), position(sheet, g), 0);
}

// The chain of a list. One that takes no body goes to place `tail`, unless the jump there is dropped.
fn arm(sheet: &[u8], store: &mut Store, flat: &[u32], list: &[u32], tail: Option<u32>)
    ensures does { let sheet = sheet.now in
        ((l : Layout) (drop : Bool) (place : ℕ) → tail ≡ parts.goes drop place → Ready sheet
        → Guards sheet flat.now (block_count sheet) → Named sheet list.now
        → Done sheet l store.old store.new
        (change.arm_to sheet (lowered max_depth sheet) (parts.place_in flat.now) place drop
        list.now)) }
    ensures same_reference { store.new.scratch.ghost_name ≡ store.old.scratch.ghost_name }
{
    let mut any = false;
    for b in list {
        let k = *b as usize;
        let to = get(flat, BODY + k);
        match Guard::from(get(flat, GUARD + k)) {
            Guard::Never => {}
            Guard::Always => {
                end_arm(store, any, Some(to));
                return;
            }
            Guard::Tried { defeated: _ } => {
                try_one(sheet, store, get(flat, GUARD_NODE + k), to);
                any = true;
            }
        }
    }
    end_arm(store, any, tail);
}

// The last of `n` heads of cases that has a chain.
// Kept: one call of `rposition`, here and in `last_wanted`; a function over the test would be that call under another name.
fn last_case(flat: &[u32], n: usize) -> Option<usize>
    requires { n ≤ max_entries }
    ensures { parts.LastBelow (parts.chain_in flat.now) n result }
{
    (CASE_EXIT..CASE_EXIT + n).rposition(|i| matches!(Exit::from(get(flat, i)), Exit::Chain { .. }))
}

// The chains of the lists whose numbers stand in a column. Where one takes no body it goes to place `to`; the jump there of number
// `dropped` is dropped.
fn list_arms<L: Lists>(
    lists: &L,
    sheet: &[u8],
    store: &mut Store,
    flat: &[u32],
    heads: Column,
    to: u32,
    dropped: Option<usize>,
)
    requires { (heads.at ≤ size) × (heads.cells ≤ max_bands) }
    ensures does { let sheet = sheet.now in
        ((l : Layout) (ls : List (List ℕ)) (falls : Bool) → Ready sheet → Guards sheet flat.now (block_count sheet)
        → L.known lists.now flat.now
        → Heads sheet flat.now (L.list_of lists.now flat.now) heads.at heads.cells ls
        → LastDrops sheet falls dropped ls
        → Done sheet l store.old store.new
        (change.arms_to sheet (lowered max_depth sheet) (parts.place_in flat.now) to falls
        ls)) }
    ensures same_reference { store.new.scratch.ghost_name ≡ store.old.scratch.ghost_name }
{
    let mut room = [0u32; ENTRIES];
    // Kept: an index. `flat` is any slice here, and `get` answers past its end, where `skip` and `take` would end before `cells` rounds.
    for i in 0..heads.cells {
        let list = lists.list(flat, get(flat, heads.at + i), &mut room[..]);
        arm(sheet, store, flat, list, kept(to, dropped, i));
    }
}

// The chains of the cases; `falls` says that the fallback follows.
// Kept: `case_arms` and `range_arms` are one call of `list_arms` each; what is left is its arguments.
pub fn case_arms(sheet: &[u8], store: &mut Store, flat: &[u32], falls: bool)
    ensures does { let sheet = sheet.now in
        ((l : Layout) → Ready sheet → Tables sheet flat.now
        → Placed sheet flat.now
        → Done sheet l store.old store.new
        (change.arms_to sheet (lowered max_depth sheet) (parts.place_in flat.now)
        (cell flat.now fallback_at) falls (change.case_lists sheet))) }
    ensures same_reference { store.new.scratch.ghost_name ≡ store.old.scratch.ghost_name }
{
    let n = (get(flat, CASE_HEADS) as usize).min(ENTRIES);
    let heads = Column {
        at: HEAD_NODE,
        cells: n,
    };
    let dropped = if falls { last_case(flat, n) } else { None };
    let to = get(flat, FALLBACK);
    list_arms(&Cases { sheet }, sheet, store, flat, heads, to, dropped);
}

// The chains of the bands.
pub fn range_arms(sheet: &[u8], store: &mut Store, flat: &[u32])
    ensures does { let sheet = sheet.now in
        ((l : Layout) → Ready sheet → Tables sheet flat.now
        → Done sheet l store.old store.new
        (change.arms_to sheet (lowered max_depth sheet) (parts.place_in flat.now)
        (cell flat.now default_at) false (change.range_lists (entries sheet)))) }
    ensures same_reference { store.new.scratch.ghost_name ≡ store.old.scratch.ghost_name }
{
    let n = (get(flat, BAND_HEADS) as usize).min(MOST_BANDS);
    let heads = Column {
        at: BAND_HEAD,
        cells: n,
    };
    let to = get(flat, DEFAULT);
    list_arms(&Pieces, sheet, store, flat, heads, to, None);
}
