// A name of a node, by its key.
ghost use Rattle.std.specs.Prelude.{◌≡◌, ℕ, ◌+◌, ◌*◌, ◌<◌};
ghost use Rattle.sheet.specs.Limits.{max_nodes};
ghost use Rattle.lowering.specs.Limits.{names_per_node};
ghost use Rattle.lowering.specs.Pools.{name_at};
ghost use Rattle.scratch_keys.specs.Keys.{key_of, name_of};
ghost use Rattle.scratch_keys.specs.Used.{NameKey};
ghost use Rattle.scratch.specs.declared.Layout.{Layout};
ghost use Rattle.scratch_store.specs.Stores.{Done, Held};
ghost use Rattle.expr_model.specs.Made.{Made, add_name};

use lowering::NAMES_PER_NODE;
use scratch_store::Store;

// The key of the name that `f` says of node `j`: 0 its own, 1 the getter, 2 the setter that it is taken with.
fn key_of(j: u32, f: u32) -> u32
    ensures { j < max_nodes → f < names_per_node → result ≡ key_of j f }
{
    j.wrapping_mul(NAMES_PER_NODE).wrapping_add(f)
}

// The name of field `f` of node `j`, and where it stands.
// Kept: the field is a number. It is part of the key, which is a word of the scratch (3 · node + field); an enum would be made that number
// at once.
pub fn add_name(sheet: &[u8], store: &mut Store, j: u32, f: u32) -> u32
    ensures does { let sheet = sheet.now in ((l : Layout) → (f < names_per_node → NameKey sheet (key_of j f)
        → Done sheet l store.old store.new (add_name sheet
        (name_of sheet (key_of j f)))) × ((a : Made) → f < names_per_node → NameKey sheet (key_of j f)
        → Held sheet l store.old a
        → result ≡ name_at sheet (name_of sheet (key_of j f)) a.pools)) }
    ensures same_reference { store.new.scratch.ghost_name ≡ store.old.scratch.ghost_name }
{
    store.add_name(sheet, key_of(j, f))
}
