// FnCall: what comes before its arguments and behind them.
ghost use Rattle.std.specs.Prelude.{◌≡◌, ℕ, ◌+◌, ◌-◌, ◌*◌, ◌<◌, List};
ghost use Rattle.sheet.specs.Node as nodes;
ghost use Rattle.sheet.specs.Namespace.{qualified};
ghost use Rattle.lowering.specs.Pools.{name};
ghost use Rattle.scratch_keys.specs.Keys.{key_of, name_of};
ghost use Rattle.scratch_keys.specs.Used.{TokenKey, NameKey};
ghost use Rattle.scratch.specs.declared.Layout.{Layout};
ghost use Rattle.scratch_index.specs.Locals.{Slots};
ghost use Rattle.scratch_store.specs.Stores.{Held};
ghost use Rattle.scratch_store.specs.Stores.{Done};
ghost use Rattle.scratch_store.specs.States.{layout_of};
ghost use Rattle.expr_model.specs.Made.{Made};
ghost use Rattle.expr_model.specs.Construct as constructs;
ghost use Rattle.expr_emit.specs.Plain.{Plain};
ghost use Rattle.lowering.specs.Call as calling;
ghost use Rattle.expr_emit.specs.declared.calls.Way.TheVariants as kinds;
ghost use Rattle.expr_emit.specs.Ways as ways;
ghost use Rattle.expr_emit.specs.WayFacts.{Facts};

use crate::names::add_name;
use bytecode::{Op, Receiver};
use expr_count::operands::Operands;
use expr_rules::calls::{CallRule, call_rule, receiver_role, stores_token};
use scratch_locals::local_of;
use scratch_store::Store;
use sheet::kinds::{THIS, VARIABLE};
use sheet::{child, count, field_b, namespace, position};

// The ways of a call: `Fn`; `call`; through a local, a name, `this`; of values; `eval`; kept as it is; and, with a namespace,
// through a local, a name, `this`, and of values.
#[derive(Clone, Copy)]
pub enum Way {
    FnPtr,
    FnPtrCall,
    Local(u32),
    Named,
    This,
    Value,
    Eval,
    Kept,
    InLocal(u32),
    InNamed,
    InThis,
    InValue,
}

// Where the call's name stands, if it is pooled before the arguments, and the receiver's.
// Kept: 0 where none does, at which `close` does not look. With Options it would have arms for names that are not there.
#[derive(Clone, Copy)]
pub struct Opened {
    pub name: u32,
    pub first: u32,
}

const NOWHERE: Opened = Opened { name: 0, first: 0 };

// A variable as a receiver, by the local that it is.
#[tactic(auto, unfolding(crate::specs::Ways::way_found))]
fn way_variable(found: Option<u32>) -> Way
    ensures { result ≡ ways.way_found found }
{
    found.map_or(Way::Named, Way::Local)
}

// The way of a call that generic dispatch takes.
// Kept: the sheet beside the store, here and below: lib.rt says why.
// Kept: that the slots stand (`Slots`) is a premise here and in `way_of`, and what is known of the call and of its name (`Facts`, `Plain`,
// `NameKey`, fewer than 256 arguments) one below: each function answers for every sheet and scratch, so no value brings them.
fn way_first(sheet: &[u8], store: &Store, j: u32) -> Way
    ensures { let sheet = sheet.now in let it = store.now in
        (Slots sheet (layout_of it.state) it.scratch.now → result ≡ ways.way_first (calling.receiver sheet j)) }
{
    match receiver_role(sheet, j) {
        VARIABLE => way_variable(local_of(sheet, store.words(), store.state.layout, child(j))),
        THIS => Way::This,
        _ => Way::Value,
    }
}

// The same with its namespace, if it has one.
fn way_lowered(sheet: &[u8], store: &Store, j: u32) -> Way
    ensures { let sheet = sheet.now in let it = store.now in
        (Slots sheet (layout_of it.state) it.scratch.now
        → result ≡ ways.way_lowered (qualified sheet j) (calling.receiver sheet j)) }
{
    let way = way_first(sheet, store, j);
    if namespace(sheet, j) != 0 {
        return way.within();
    }
    way
}

// The way of call `j`.
pub fn way_of(sheet: &[u8], store: &Store, j: u32) -> Way
    ensures { let sheet = sheet.now in let it = store.now in
        (Slots sheet (layout_of it.state) it.scratch.now → result ≡ ways.way_of sheet j) }
{
    match call_rule(sheet, j) {
        CallRule::FnPtr => Way::FnPtr,
        CallRule::FnPtrCall => Way::FnPtrCall,
        CallRule::Lowerable => way_lowered(sheet, store, j),
        CallRule::Eval => Way::Eval,
        CallRule::Residual => Way::Kept,
    }
}

// CallRef, with the call's name at place `name`.
fn ref_at(sheet: &[u8], store: &mut Store, j: u32, name: u32, receiver: Receiver)
    ensures does { let sheet = sheet.now in ((l : Layout) → nodes.count sheet j < 256
        → Done sheet l store.old store.new (constructs.ref_at name sheet j receiver)) }
    ensures same_reference { store.new.scratch.ghost_name ≡ store.old.scratch.ghost_name }
{
    let op = Op::CallRef {
        name,
        argc: count(sheet, j),
        receiver,
    };
    store.emit(op, position(sheet, j), 0);
}

// The call's name and CallRef.
fn call_ref(sheet: &[u8], store: &mut Store, j: u32, receiver: Receiver)
    ensures does { let sheet = sheet.now in ((l : Layout) → Plain sheet j → nodes.count sheet j < 256 → NameKey sheet (key_of j 0)
        → Done sheet l store.old store.new (constructs.call_ref sheet j receiver)) }
    ensures same_reference { store.new.scratch.ghost_name ≡ store.old.scratch.ghost_name }
{
    let name = add_name(sheet, store, j, 0);
    ref_at(sheet, store, j, name, receiver);
}

// The receiver's value under `others` other arguments.
fn rotate(store: &mut Store, others: u32)
    ensures does { (l : Layout) → (s : List ℕ)
        → Done s l store.old store.new (constructs.rotate others) }
    ensures same_reference { store.new.scratch.ghost_name ≡ store.old.scratch.ghost_name }
{
    if others == 0 {
        return;
    }
    store.emit(Op::Rotate(others), 0, 0);
}

// A call through the name at place `at`.
fn close_named(sheet: &[u8], store: &mut Store, j: u32, at: u32)
    ensures does { let sheet = sheet.now in ((l : Layout) → Plain sheet j → nodes.count sheet j < 256 → NameKey sheet (key_of j 0)
        → Done sheet l store.old store.new (ways.close_named sheet j at)) }
    ensures same_reference { store.new.scratch.ghost_name ≡ store.old.scratch.ghost_name }
{
    store.emit(Op::LoadNamed(at), position(sheet, child(j)), 0);
    rotate(store, count(sheet, j).saturating_sub(1));
    call_ref(sheet, store, j, Receiver::Named(at));
}

// The call's name and Call, with a token plus 1, or 0.
// Kept: `op` as the instruction has it. An Option would be unmade here.
fn call_as(sheet: &[u8], store: &mut Store, j: u32, op: u32, capture: u32)
    ensures does { let sheet = sheet.now in ((l : Layout) → name_of sheet (key_of j 0) ≡ name (nodes.field_a sheet j) capture
        → nodes.count sheet j < 256 → capture < 2 → NameKey sheet (key_of j 0)
        → Done sheet l store.old store.new (constructs.call_as sheet j op capture)) }
    ensures same_reference { store.new.scratch.ghost_name ≡ store.old.scratch.ghost_name }
{
    let name = add_name(sheet, store, j, 0);
    let call = Op::Call {
        name,
        argc: count(sheet, j),
        op,
        capture,
    };
    store.emit(call, position(sheet, j), 0);
}

// The operator's token, the call's name and Call.
fn call_token(sheet: &[u8], store: &mut Store, j: u32)
    ensures does { let sheet = sheet.now in ((l : Layout) → Plain sheet j → nodes.count sheet j < 256 → NameKey sheet (key_of j 0)
        → TokenKey sheet j
        → Done sheet l store.old store.new (constructs.call_token sheet j)) }
    ensures same_reference { store.new.scratch.ghost_name ≡ store.old.scratch.ghost_name }
{
    let at = store.add_token(sheet, j);
    call_as(sheet, store, j, at.wrapping_add(1), 0);
}

// The end of a call of values.
fn call_end(sheet: &[u8], store: &mut Store, j: u32)
    ensures does { let sheet = sheet.now in ((l : Layout) → Facts (kinds.Value) sheet j
        → Done sheet l store.old store.new (constructs.call_end sheet j)) }
    ensures same_reference { store.new.scratch.ghost_name ≡ store.old.scratch.ghost_name }
{
    if stores_token(sheet, j) {
        call_token(sheet, store, j);
    } else {
        call_as(sheet, store, j, 0, field_b(sheet, j));
    }
}

// Call without a token, with the call's name at place `name`.
fn values_at(sheet: &[u8], store: &mut Store, j: u32, name: u32)
    ensures does { let sheet = sheet.now in ((l : Layout) → nodes.count sheet j < 256 → nodes.field_b sheet j < 2
        → Done sheet l store.old store.new (constructs.values_at name sheet j)) }
    ensures same_reference { store.new.scratch.ghost_name ≡ store.old.scratch.ghost_name }
{
    let call = Op::Call {
        name,
        argc: count(sheet, j),
        op: 0,
        capture: field_b(sheet, j),
    };
    store.emit(call, position(sheet, j), 0);
}

// The name of call `j` in its namespace, and a receiver's name, which is loaded.
fn open_named(sheet: &[u8], store: &mut Store, j: u32) -> Opened
    ensures does { let sheet = sheet.now in ((l : Layout) → (Facts (kinds.InNamed) sheet j
        → Done sheet l store.old store.new (ways.opened (kinds.InNamed) sheet j)) ×
        (Facts (kinds.InNamed) sheet j → (a : Made) → Held sheet l store.old a
        → result ≡ ways.opened_at (kinds.InNamed) sheet j a)) }
    ensures same_reference { store.new.scratch.ghost_name ≡ store.old.scratch.ghost_name }
{
    let name = add_name(sheet, store, j, 0);
    let first = add_name(sheet, store, child(j), 0);
    store.emit(Op::LoadNamed(first), position(sheet, child(j)), 0);
    Opened { name, first }
}

// The name of call `j` in its namespace, and `this`.
fn open_this(sheet: &[u8], store: &mut Store, j: u32) -> Opened
    ensures does { let sheet = sheet.now in ((l : Layout) → (Facts (kinds.InThis) sheet j
        → Done sheet l store.old store.new (ways.opened (kinds.InThis) sheet j)) ×
        (Facts (kinds.InThis) sheet j → (a : Made) → Held sheet l store.old a
        → result ≡ ways.opened_at (kinds.InThis) sheet j a)) }
    ensures same_reference { store.new.scratch.ghost_name ≡ store.old.scratch.ghost_name }
{
    let name = add_name(sheet, store, j, 0);
    store.emit(Op::LoadThis, position(sheet, child(j)), 0);
    Opened { name, first: 0 }
}

// `call(f, ..)`.
fn close_pointer(sheet: &[u8], store: &mut Store, j: u32)
    ensures does { let sheet = sheet.now in ((l : Layout) → Done sheet l store.old store.new (ways.closed
        (kinds.FnPtrCall) sheet j ways.nowhere)) }
    ensures same_reference { store.new.scratch.ghost_name ≡ store.old.scratch.ghost_name }
{
    let op = Op::CallFnPtr {
        argc: count(sheet, j).saturating_sub(1),
        capture: field_b(sheet, j),
    };
    store.emit(op, position(sheet, j), 0);
}

impl Way {
    // The same call with a namespace.
    #[tactic(auto, unfolding(crate::specs::Ways::within))]
    fn within(self) -> Way
        ensures { result ≡ ways.within self }
    {
        match self {
            Way::Local(slot) => Way::InLocal(slot),
            Way::Named => Way::InNamed,
            Way::This => Way::InThis,
            Way::Value => Way::InValue,
            way => way,
        }
    }

    // The arguments that are lowered.
    #[tactic(auto, unfolding(crate::specs::Ways::arg_count, crate::specs::Ways::first_arg))]
    pub fn arguments(self, sheet: &[u8], j: u32) -> Operands
        ensures { result ≡ ways.arguments self sheet.now j }
    {
        match self {
            Way::FnPtr => Operands {
                n: 1,
                from: child(j),
            },
            Way::FnPtrCall | Way::Value | Way::InValue => Operands::of(sheet, j),
            Way::Local(_) | Way::Named | Way::This | Way::InLocal(_) | Way::InNamed | Way::InThis =>
                Operands::others(sheet, j),
            Way::Eval | Way::Kept => Operands {
                n: 0,
                from: child(j),
            },
        }
    }

    // What comes before the arguments, and where the names stand that are pooled by then.
    // Kept: a match on the way, as `close` below.
    pub fn open(self, sheet: &[u8], store: &mut Store, j: u32) -> Opened
        ensures does { let sheet = sheet.now in ((l : Layout) → (Facts self sheet j
            → Done sheet l store.old store.new (ways.opened self sheet j)) ×
            (Facts self sheet j → (a : Made) → Held sheet l store.old a
            → result ≡ ways.opened_at self sheet j a)) }
        ensures same_reference { store.new.scratch.ghost_name ≡ store.old.scratch.ghost_name }
    {
        match self {
            Way::Named => {
                let first = add_name(sheet, store, child(j), 0);
                Opened { name: 0, first }
            }
            Way::This => {
                store.emit(Op::LoadThis, position(sheet, child(j)), 0);
                NOWHERE
            }
            Way::InLocal(_) | Way::InValue => {
                let name = add_name(sheet, store, j, 0);
                Opened { name, first: 0 }
            }
            Way::InNamed => open_named(sheet, store, j),
            Way::InThis => open_this(sheet, store, j),
            Way::FnPtr | Way::FnPtrCall | Way::Local(_) | Way::Value | Way::Eval | Way::Kept => {
                NOWHERE
            }
        }
    }

    // What comes behind the arguments, with the names at these places.
    // Kept: a match on the way. Each arm is one construct of the definition; closures for them would be chosen by the same match.
    pub fn close(self, sheet: &[u8], store: &mut Store, j: u32, at: Opened)
        ensures does { let sheet = sheet.now in ((l : Layout) → Facts self sheet j
            → Done sheet l store.old store.new (ways.closed self sheet j at)) }
        ensures same_reference { store.new.scratch.ghost_name ≡ store.old.scratch.ghost_name }
    {
        match self {
            Way::FnPtr => store.emit(Op::MakeFnPtr, position(sheet, child(j)), 0),
            Way::FnPtrCall => close_pointer(sheet, store, j),
            Way::Local(slot) => call_ref(sheet, store, j, Receiver::Local(slot)),
            Way::Named => close_named(sheet, store, j, at.first),
            Way::This => call_ref(sheet, store, j, Receiver::This),
            Way::Value => call_end(sheet, store, j),
            Way::Eval | Way::Kept => store.residual(j),
            Way::InLocal(slot) => ref_at(sheet, store, j, at.name, Receiver::Local(slot)),
            Way::InNamed => ref_at(sheet, store, j, at.name, Receiver::Named(at.first)),
            Way::InThis => ref_at(sheet, store, j, at.name, Receiver::This),
            Way::InValue => values_at(sheet, store, j, at.name),
        }
    }
}
