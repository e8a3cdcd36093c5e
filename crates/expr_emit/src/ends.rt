// Where the code of a node ends, and the end of And and Or.
ghost use Rattle.std.specs.Prelude.{◌≡◌, ℕ, ◌≤◌, List};
ghost use Rattle.sheet.specs.Node as nodes;
ghost use Rattle.lowering.specs.Kinds.{variable_kind};
ghost use Rattle.expr_count.specs.Locals.{is_local, answer};
ghost use Rattle.sheet.specs.Sections.{node_count};
ghost use Rattle.scratch.specs.declared.Layout.{Layout};
ghost use Rattle.scratch_index.specs.Locals.{Slots};
ghost use Rattle.std.specs.Int.{from_bool};
ghost use Rattle.scratch_store.specs.Stores.{Held};
ghost use Rattle.scratch_store.specs.States.{layout_of};
ghost use Rattle.scratch_store.specs.Does.{Fits};
ghost use Rattle.expr_model.specs.Made.{Made};
ghost use Rattle.expr_emit.specs.Ends.{EndsAt};
ghost use Rattle.expr_emit.specs.Decision.{decision};

use bytecode::Op;
use expr_count::locals::{Count, Locals};
use scratch_locals::FEW;
use scratch_store::Store;
use sheet::local_count;

// Kept: that the slots stand is a premise, here and in `EndsAt`, as those in `calls`. The sheet is beside the store: lib.rt says why.
// What is told of the locals: beside many of them the scratch says which Variables are some, from behind its lists on.
fn told<'a>(sheet: &[u8], store: &'a Store) -> Locals<'a>
    ensures { let sheet = sheet.now in
        let it = store.now in
        (it.state.layout.nodes ≡ node_count sheet → Slots sheet (layout_of it.state) it.scratch.now → (v : ℕ)
        → nodes.kind sheet v ≡ variable_kind
        → answer result sheet v ≡ is_local sheet v) }
{
    if local_count(sheet) <= FEW {
        return Locals::Sought;
    }
    match store.words().get(store.state.layout.links_at()..) {
        Some(words) => Locals::Told(words),
        None => Locals::Sought,
    }
}

// The place behind the code of node `j`, which is next, as a word.
// Kept: `%` as the definition has it, of a u64, as in `count_one` of scratch_store.
pub fn end_of(levels: u32, sheet: &[u8], store: &Store, j: u32) -> u32
    ensures { EndsAt levels sheet.now store.now.scratch.now store.now.state j result }
{
    let code = u64::from(store.state.code);
    let by = Count {
        sheet,
        told: told(sheet, store),
    };
    ((code + by.tally(levels, j).len) % 4294967296) as u32
}

// The end of And and Or, which stop at `stop`, from depth `d`, with the code's end at place `end`.
pub fn decision(store: &mut Store, stop: bool, end: u32, d: u32)
    ensures does { (l : Layout) → (s : List ℕ) (a : Made) → d ≤ a.pools.emitted
        → Held s l store.old a → Fits l (decision (from_bool stop) end d a)
        → Held s l store.new (decision (from_bool stop) end d a) }
    ensures same_reference { store.new.scratch.ghost_name ≡ store.old.scratch.ghost_name }
{
    store.emit(Op::Bool(u32::from(!stop)), 0, 0);
    store.emit(Op::Jump(end), 0, 0);
    store.state.at_depth(d);
    store.emit(Op::Bool(u32::from(stop)), 0, 0);
}
