// The lowering of an expression into the lent scratch. Each function does to the scratch what its definition in crate expr_model
// does to what has been made so far.
#![tactic(auto)]

ghost use Rattle.std.specs.Prelude.{◌≡◌, ◌<◌, ◌≤◌};
ghost use Rattle.sheet.specs.Node as nodes;
ghost use Rattle.sheet.specs.Limits.{max_depth};
ghost use Rattle.lowering.specs.Nodes.{Right, Valid, Row};
ghost use Rattle.lowering.specs.Flatten as flatten;
ghost use Rattle.std.specs.Int.{from_bool};
ghost use Rattle.scratch.specs.declared.Layout.{Layout};
ghost use Rattle.scratch_store.specs.Stores.{Done};
ghost use Rattle.expr_model.specs.Made.{lowered};
ghost use Rattle.expr_model.specs.Construct as constructs;
ghost use Rattle.expr_emit.specs.Linked.{Linked};
ghost use Rattle.expr_emit.specs.Siblings.{rows};

mod after;
mod calls;
mod ends;
mod leaves;
mod names;
mod steps;

use after::{After, after_one};
use bytecode::Op;
use calls::way_of;
use ends::{decision, end_of};
use expr_chains::{Distance, far_of};
use expr_count::links::{Link, link_with, temporary};
use expr_count::operands::Operands;
use expr_rules::chains::links_of;
use expr_rules::kinds::Rule;
use expr_rules::rule;
use leaves::{constant, variable};
use lowering::MAX_ELEMENTS;
use scratch_store::Store;
use sheet::{Siblings, child, count, field_a, position, skip};

// Some operands, each with `by` behind it.
// Kept: that the sheet is right and the node valid are premises here and below: each function stands for every
// sheet, so no value brings them.
// This, `walk` and `short_circuit` are drawn into `expression`: a level of the sheet then takes one frame, and not two or three.
// Kept: `levels` and `sheet` are two parameters here and below. `levels` goes down at each node, so a struct of both would be made anew for
// each call, and be passed through memory.
// Kept: the sheet beside the store, here and in all modules: `Store` of scratch_store says why.
#[inline(always)]
#[cycle(array_call_chain_coalesce_expression_interpolated_short_circuit_siblings_walk)]
fn siblings(levels: u32, sheet: &[u8], store: &mut Store, by: After, of: Operands)
    ensures does { let sheet = sheet.now in ((l : Layout) → Right sheet → Row sheet of.n of.from
        → Done sheet l store.old store.new (rows sheet
        (lowered levels sheet) by of.n of.from)) }
    ensures same_reference { store.new.scratch.ghost_name ≡ store.old.scratch.ghost_name }
{
    for (i, j) in Siblings::new(sheet, of.n, of.from).enumerate() {
        expression(levels, sheet, store, j);
        after_one(store, by, i as u32, position(sheet, j));
    }
}

// Array: its elements, MakeArray. One with too many elements is kept.
#[cycle(array_call_chain_coalesce_expression_interpolated_short_circuit_siblings_walk)]
fn array(levels: u32, sheet: &[u8], store: &mut Store, j: u32)
    ensures does { let sheet = sheet.now in ((l : Layout) → Right sheet → Valid sheet j
        → Done sheet l store.old store.new (constructs.array sheet
        (lowered levels sheet) j)) }
    ensures same_reference { store.new.scratch.ghost_name ≡ store.old.scratch.ghost_name }
{
    let of = Operands::of(sheet, j);
    if of.n <= MAX_ELEMENTS {
        siblings(levels, sheet, store, After::CheckPlace, of);
        store.emit(Op::MakeArray(of.n), position(sheet, j), 0);
    } else {
        store.residual(j);
    }
}

// Interpolated string.
#[cycle(array_call_chain_coalesce_expression_interpolated_short_circuit_siblings_walk)]
fn interpolated(levels: u32, sheet: &[u8], store: &mut Store, j: u32)
    ensures does { let sheet = sheet.now in ((l : Layout) → Right sheet → Valid sheet j
        → Done sheet l store.old store.new (constructs.interpolated sheet (lowered levels sheet) j)) }
    ensures same_reference { store.new.scratch.ghost_name ≡ store.old.scratch.ghost_name }
{
    store.emit(Op::InterpolateStart, 0, 0);
    siblings(levels, sheet, store, After::Append, Operands::of(sheet, j));
    store.emit(Op::InterpolateEnd, 0, 0);
}

// And and Or, which stop at `stop`, with the code's end at place `end`.
#[inline(always)]
#[cycle(array_call_chain_coalesce_expression_interpolated_short_circuit_siblings_walk)]
fn short_circuit(levels: u32, sheet: &[u8], store: &mut Store, stop: bool, end: u32, j: u32)
    ensures does { let sheet = sheet.now in ((l : Layout) → Right sheet → Valid sheet j
        → Done sheet l store.old store.new (constructs.short_circuit (from_bool stop) sheet (lowered levels sheet) end j)) }
    ensures same_reference { store.new.scratch.ghost_name ≡ store.old.scratch.ghost_name }
{
    let by = After::Decide {
        stop,
        to: end.saturating_sub(1),
    };
    let d = store.state.depth;
    siblings(levels, sheet, store, by, Operands::of(sheet, j));
    decision(store, stop, end, d);
}

// Coalesce, with the code's end at place `end`.
#[cycle(array_call_chain_coalesce_expression_interpolated_short_circuit_siblings_walk)]
fn coalesce(levels: u32, sheet: &[u8], store: &mut Store, end: u32, j: u32)
    ensures does { let sheet = sheet.now in ((l : Layout) → Right sheet → Valid sheet j → 1 ≤ nodes.count sheet j
        → Done sheet l store.old store.new (constructs.coalesce sheet
        (lowered levels sheet) end j)) }
    ensures same_reference { store.new.scratch.ghost_name ≡ store.old.scratch.ghost_name }
{
    let n = count(sheet, j).saturating_sub(1);
    let first = child(j);
    let others = Operands { n, from: first };
    siblings(levels, sheet, store, After::Unless { to: end }, others);
    expression(levels, sheet, store, skip(sheet, n, first));
}

// FnCall.
#[cycle(array_call_chain_coalesce_expression_interpolated_short_circuit_siblings_walk)]
fn call(levels: u32, sheet: &[u8], store: &mut Store, j: u32)
    ensures does { let sheet = sheet.now in ((l : Layout) → Right sheet → Valid sheet j → nodes.kind sheet j ≡ 13
        → Done sheet l store.old store.new (constructs.fn_call sheet
        (lowered levels sheet) j)) }
    ensures same_reference { store.new.scratch.ghost_name ≡ store.old.scratch.ghost_name }
{
    let w = way_of(sheet, store, j);
    let at = w.open(sheet, store, j);
    siblings(levels, sheet, store, After::Nothing, w.arguments(sheet, j));
    w.close(sheet, store, j, at);
}

// The operands and names of the links of chain `j`, up to one that does not lower.
#[inline(always)]
#[cycle(array_call_chain_coalesce_expression_interpolated_short_circuit_siblings_walk)]
fn walk(levels: u32, sheet: &[u8], store: &mut Store, j: u32)
    ensures does { let sheet = sheet.now in ((l : Layout) → Right sheet → Linked sheet j
        → Done sheet l store.old store.new (constructs.steps sheet
        (lowered levels sheet) (flatten.links max_depth sheet j))) }
    ensures same_reference { store.new.scratch.ghost_name ≡ store.old.scratch.ghost_name }
{
    for p in links_of(sheet, j) {
        match link_with(sheet, p) {
            Link::Lowers(of) => {
                siblings(levels, sheet, store, After::Nothing, of);
                steps::step_names(sheet, store, p);
            }
            Link::Fails | Link::Nowhere => return,
        }
    }
}

// Dot, Index. The code of a chain that fails is taken back.
#[cycle(array_call_chain_coalesce_expression_interpolated_short_circuit_siblings_walk)]
fn chain(levels: u32, sheet: &[u8], store: &mut Store, j: u32)
    ensures does { let sheet = sheet.now in ((l : Layout) → Right sheet → Linked sheet j
        → Done sheet l store.old store.new (constructs.chain sheet
        (lowered levels sheet) j)) }
    ensures same_reference { store.new.scratch.ghost_name ≡ store.old.scratch.ghost_name }
{
    let far = far_of(sheet, j);
    // Kept: a match on how far the chain comes. It is read from the sheet, so closures would be chosen by the same match.
    match far.distance {
        Distance::Nowhere => store.residual(j),
        Distance::TakenBack => {
            let saved = store.state;
            steps::root_name(sheet, store, child(j));
            walk(levels, sheet, store, j);
            store.state.take_back(saved);
            store.residual(j);
        }
        Distance::Whole => {
            let root = child(j);
            steps::root_name(sheet, store, root);
            walk(levels, sheet, store, j);
            let n = temporary(sheet, root);
            siblings(
                levels,
                sheet,
                store,
                After::Nothing,
                Operands { n, from: root },
            );
            steps::close_chain(sheet, store, j, far.operands);
        }
    }
}

// Node `j`, with that many levels left.
#[cycle(array_call_chain_coalesce_expression_interpolated_short_circuit_siblings_walk)]
pub fn expression(levels: u32, sheet: &[u8], store: &mut Store, j: u32)
    ensures does { let sheet = sheet.now in ((l : Layout) → Right sheet → Valid sheet j
        → Done sheet l store.old store.new (lowered levels sheet j)) }
    ensures same_reference { store.new.scratch.ghost_name ≡ store.old.scratch.ghost_name }
{
    if levels == 0 {
        store.residual(j);
        return;
    }
    let below = levels - 1;
    // Kept: a match on the definition's rule. Each arm is one construct, with what of the node it takes; closures for them would be chosen
    // by the same match.
    match rule(sheet, j) {
        Rule::Boolean => store.emit(Op::Bool(field_a(sheet, j)), 0, 0),
        Rule::Unit => store.emit(Op::Unit, 0, 0),
        Rule::Constant => constant(sheet, store, j),
        Rule::Interpolated => interpolated(below, sheet, store, j),
        Rule::Array => array(below, sheet, store, j),
        Rule::Variable => variable(sheet, store, j),
        Rule::This => store.emit(Op::LoadThis, position(sheet, j), 0),
        Rule::FnCall => call(below, sheet, store, j),
        Rule::Chain => chain(below, sheet, store, j),
        Rule::And => {
            let end = end_of(levels, sheet, store, j);
            short_circuit(below, sheet, store, false, end, j);
        }
        Rule::Or => {
            let end = end_of(levels, sheet, store, j);
            short_circuit(below, sheet, store, true, end, j);
        }
        Rule::Coalesce => {
            let end = end_of(levels, sheet, store, j);
            coalesce(below, sheet, store, end, j);
        }
        Rule::Residual => store.residual(j),
    }
}
