// Dot and Index: the names and the entry of a chain.
ghost use Rattle.std.specs.Prelude.{◌≡◌, ℕ, ◌+◌};
ghost use Rattle.sheet.specs.Node as nodes;
ghost use Rattle.lowering.specs.Nodes.{Valid};
ghost use Rattle.lowering.specs.Flatten as flatten;
ghost use Rattle.expr_rules.specs.Reads.{Reads};
ghost use Rattle.expr_chains.specs.Pooled.{Pooled};
ghost use Rattle.scratch_keys.specs.Used.{ChainKey};
ghost use Rattle.expr_chains.specs.Steps as entries;
ghost use Rattle.expr_count.specs.Link as links;
ghost use Rattle.scratch.specs.declared.Layout.{Layout};
ghost use Rattle.scratch_store.specs.Stores.{Done, Held};
ghost use Rattle.scratch_store.specs.Does.{Fits};
ghost use Rattle.expr_model.specs.Made.{Made};
ghost use Rattle.expr_model.specs.Construct as constructs;
ghost use Rattle.expr_emit.specs.ChainParts.{step_names};

use crate::names::add_name;
use bytecode::Op;
use expr_count::links::temporary;
use expr_rules::chains::{Read, StepRule};
use scratch_store::Store;
use sheet::kinds::VARIABLE;
use sheet::{child, position, role};

// A variable's name, for the root of a chain.
pub fn root_name(sheet: &[u8], store: &mut Store, v: u32)
    ensures does { let sheet = sheet.now in ((l : Layout) → Valid sheet v
        → Done sheet l store.old store.new (constructs.root_name sheet v)) }
    ensures same_reference { store.new.scratch.ghost_name ≡ store.old.scratch.ghost_name }
{
    if role(sheet, v) == VARIABLE {
        let _at = add_name(sheet, store, v, 0);
    }
}

// The name, getter and setter of property `v`, which a link is taken with.
// Kept: that a node is valid, and of which kind, are premises here, above and below, as those in `calls`. The sheet is beside the store:
// lib.rt says why.
fn property(sheet: &[u8], store: &mut Store, v: u32, link: u32)
    ensures does { let sheet = sheet.now in
        ((l : Layout) → nodes.kind sheet v ≡ 11 → v ≡ flatten.operand_of sheet link → nodes.kind sheet link ≡ 14 → Valid sheet v
        → Valid sheet link
        → Done sheet l store.old store.new (constructs.property sheet v)) }
    ensures same_reference { store.new.scratch.ghost_name ≡ store.old.scratch.ghost_name }
{
    let _name = add_name(sheet, store, v, 0);
    let _getter = add_name(sheet, store, v, 1);
    let _setter = add_name(sheet, store, link, 2);
}

// The name of method `v`.
fn method(sheet: &[u8], store: &mut Store, v: u32)
    ensures does { let sheet = sheet.now in ((l : Layout) → nodes.kind sheet v ≡ 12 → Valid sheet v
        → Done sheet l store.old store.new (step_names flatten.method sheet v)) }
    ensures same_reference { store.new.scratch.ghost_name ≡ store.old.scratch.ghost_name }
{
    let _name = add_name(sheet, store, v, 0);
}

// The names of the step of the link that says `p`.
// Kept: a match on the step's rule. Each arm is one construct of the definition; closures for them would be chosen by the same match.
pub fn step_names(sheet: &[u8], store: &mut Store, p: Read)
    ensures does { let sheet = sheet.now in
        ((l : Layout) → Reads sheet p.link p → Valid sheet (flatten.operand_of sheet p.link) → ChainKey sheet p.link
        → Done sheet l store.old store.new (step_names
        (flatten.step_rule sheet p.link) sheet (flatten.operand_of sheet p.link))) }
    ensures same_reference { store.new.scratch.ghost_name ≡ store.old.scratch.ghost_name }
{
    match p.rule {
        StepRule::Index => {}
        StepRule::Property => property(sheet, store, p.with, p.link),
        StepRule::Method => method(sheet, store, p.with),
        StepRule::Nothing => {}
    }
}

// How many values the chain of node `j` takes off the stack: the `n` operands of its steps, and a root that is lowered.
fn popped(sheet: &[u8], j: u32, n: u32) -> u32
    ensures { let sheet = sheet.now in
        (n ≡ entries.chain_operands sheet j → result ≡ entries.chain_operands sheet j + links.temporary sheet (nodes.child j)) }
{
    n.wrapping_add(temporary(sheet, child(j)))
}

// The chain's entry and Chain, where its steps take `n` operands.
pub fn close_chain(sheet: &[u8], store: &mut Store, j: u32, n: u32)
    ensures does { let sheet = sheet.now in ((l : Layout) → n ≡ entries.chain_operands sheet j → ChainKey sheet j → (a : Made)
        → Pooled sheet a.pools.names j
        → Held sheet l store.old a → Fits l (constructs.close_chain sheet j a)
        → Held sheet l store.new (constructs.close_chain sheet j a)) }
    ensures same_reference { store.new.scratch.ghost_name ≡ store.old.scratch.ghost_name }
{
    let at = store.add_chain(sheet, j);
    store.emit(Op::Chain(at), position(sheet, j), popped(sheet, j, n));
}
