// What stands behind each of several siblings.
ghost use Rattle.std.specs.Prelude.{◌≡◌, ℕ, ◌<◌, List};
ghost use Rattle.std.specs.Int.{from_bool};
ghost use Rattle.lowering.specs.ShortCircuit as jumps;
ghost use Rattle.scratch.specs.declared.Layout.{Layout};
ghost use Rattle.scratch_store.specs.Stores.{Done};
ghost use Rattle.expr_emit.specs.declared.after.After.TheVariants as kinds;
ghost use Rattle.expr_emit.specs.Siblings.{after_one};

use bytecode::Op;
use scratch_store::Store;

// Nothing; CheckSize; InterpolateAppend; the jump of And or Or, where an operand is `stop`; SkipIfNotUnit and Pop.
#[derive(Clone, Copy)]
pub enum After {
    Nothing,
    CheckPlace,
    Append,
    Decide { stop: bool, to: u32 },
    Unless { to: u32 },
}

// The jump of And, which stops at false, or of Or, which stops at true.
#[tactic(auto, unfolding(lowering::specs::ShortCircuit::jump_on))]
fn jump_on(stop: bool, to: u32) -> Op
    ensures { result ≡ jumps.jump_on (from_bool stop) to }
{
    if stop {
        Op::JumpIfTrue(to)
    } else {
        Op::JumpIfFalse(to)
    }
}

// SkipIfNotUnit and Pop.
fn unless(store: &mut Store, to: u32, pos: u32)
    ensures does { (l : Layout) → (s : List ℕ) (i : ℕ)
        → Done s l store.old store.new (after_one
        (kinds.Unless to) i pos) }
    ensures same_reference { store.new.scratch.ghost_name ≡ store.old.scratch.ghost_name }
{
    store.emit(Op::SkipIfNotUnit(to), pos, 0);
    store.emit(Op::Pop, pos, 0);
}

// What stands behind sibling `i`, which has position `pos`.
// Kept: a match on what it is. A closure in its place would be a type parameter of `siblings`, and the check states no theorem of a cycle
// of calls whose functions differ in their type parameters (tried).
pub fn after_one(store: &mut Store, by: After, i: u32, pos: u32)
    ensures does { (l : Layout) → (s : List ℕ)
        → Done s l store.old store.new (after_one by i pos) }
    ensures same_reference { store.new.scratch.ghost_name ≡ store.old.scratch.ghost_name }
{
    match by {
        After::Nothing => {}
        After::CheckPlace => store.emit(Op::CheckSize(i), pos, 0),
        After::Append => store.emit(Op::InterpolateAppend, pos, 0),
        After::Decide { stop, to } => store.emit(jump_on(stop, to), pos, 0),
        After::Unless { to } => unless(store, to, pos),
    }
}
