// Jumps of a switch that may be left out.
ghost use Rattle.std.specs.Prelude.{◌≡◌, ℕ, Bool, List};
ghost use Rattle.scratch.specs.declared.Layout.{Layout};
ghost use Rattle.scratch_store.specs.Stores.{Done};
ghost use Rattle.switch_model.specs.Change as change;
ghost use Rattle.switch_emit.specs.Parts as parts;

use bytecode::Op;
use scratch_store::{State, Store};

// Where the jump of number `i` goes, which is place `to`, unless it is the one that is dropped.
pub fn kept(to: u32, dropped: Option<usize>, i: usize) -> Option<u32>
    ensures { result ≡ parts.goes (parts.is_at dropped i) to }
{
    (dropped != Some(i)).then_some(to)
}

// An instruction is counted and has no code.
fn dropped(state: &mut State)
    ensures { state.new ≡ parts.dropped_in state.old }
{
    state.emitted = state.emitted.wrapping_add(1);
}

// A jump, or its count alone where it is dropped.
pub fn jump(store: &mut Store, to: Option<u32>)
    ensures does { (l : Layout) → (s : List ℕ) (drop : Bool) (place : ℕ) → to ≡ parts.goes drop place
        → Done s l store.old store.new
        (change.jump_to drop place) }
    ensures same_reference { store.new.scratch.ghost_name ≡ store.old.scratch.ghost_name }
{
    match to {
        Some(place) => store.emit(Op::Jump(place), 0, 0),
        None => dropped(&mut store.state),
    }
}

// The end of a chain, if a guard was tried.
pub fn end_arm(store: &mut Store, any: bool, to: Option<u32>)
    ensures does { (l : Layout) → (s : List ℕ) (drop : Bool) (place : ℕ) → to ≡ parts.goes drop place
        → Done s l store.old store.new
        (parts.end_arm any drop place) }
    ensures same_reference { store.new.scratch.ghost_name ≡ store.old.scratch.ghost_name }
{
    if any {
        jump(store, to);
    }
}
