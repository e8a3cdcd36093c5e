// Nodes that become one instruction.
ghost use Rattle.std.specs.Prelude.{◌≡◌, ◌+◌, ◌*◌};
ghost use Rattle.sheet.specs.Node.{field_a};
ghost use Rattle.lowering.specs.Pools.{name};
ghost use Rattle.scratch_keys.specs.Used.{ConstKey, NameKey};
ghost use Rattle.scratch.specs.declared.Layout.{Layout};
ghost use Rattle.scratch_store.specs.Stores.{Done};
ghost use Rattle.expr_model.specs.Construct as constructs;
ghost use Rattle.scratch_keys.specs.Keys.{key_of};
ghost use Rattle.expr_emit.specs.Plain.{Plain, Unmarked};

use crate::names::add_name;
use bytecode::Op;
use scratch_locals::local_of;
use scratch_store::Store;
use sheet::{namespace, namespace_pos, position};

// A constant.
pub fn constant(sheet: &[u8], store: &mut Store, j: u32)
    ensures does { let sheet = sheet.now in ((l : Layout) → ConstKey sheet j
        → Done sheet l store.old store.new (constructs.constant sheet j)) }
    ensures same_reference { store.new.scratch.ghost_name ≡ store.old.scratch.ghost_name }
{
    let at = store.add_const(sheet, j);
    store.emit(Op::Const(at), 0, 0);
}

// A name, loaded.
// Kept: that the node has no mark and names a key are premises here and below, as those in `calls`. The sheet is beside the store: lib.rt
// says why.
fn load_named(sheet: &[u8], store: &mut Store, j: u32)
    ensures does { let sheet = sheet.now in ((l : Layout) → Plain sheet j → NameKey sheet (key_of j 0)
        → Done sheet l store.old store.new (constructs.load_named sheet j)) }
    ensures same_reference { store.new.scratch.ghost_name ≡ store.old.scratch.ghost_name }
{
    let at = add_name(sheet, store, j, 0);
    store.emit(Op::LoadNamed(at), position(sheet, j), 0);
}

// A name in its namespace, loaded at the namespace's position.
fn load_qualified(sheet: &[u8], store: &mut Store, j: u32)
    ensures does { let sheet = sheet.now in ((l : Layout) → Unmarked sheet j → NameKey sheet (key_of j 0)
        → Done sheet l store.old store.new (constructs.load_qualified sheet j)) }
    ensures same_reference { store.new.scratch.ghost_name ≡ store.old.scratch.ghost_name }
{
    let at = add_name(sheet, store, j, 0);
    store.emit(Op::LoadNamed(at), namespace_pos(sheet, j), 0);
}

// A variable: with a namespace a name; else a local, or a name.
pub fn variable(sheet: &[u8], store: &mut Store, j: u32)
    ensures does { let sheet = sheet.now in ((l : Layout) → Unmarked sheet j → NameKey sheet (key_of j 0)
        → Done sheet l store.old store.new (constructs.variable sheet j)) }
    ensures same_reference { store.new.scratch.ghost_name ≡ store.old.scratch.ghost_name }
{
    if namespace(sheet, j) != 0 {
        load_qualified(sheet, store, j);
        return;
    }
    match local_of(sheet, store.words(), store.state.layout, j) {
        Some(slot) => store.emit(Op::LoadLocal(slot), 0, 0),
        None => load_named(sheet, store, j),
    }
}
