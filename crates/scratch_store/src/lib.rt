// The lent scratch as growing lists: the code and the pools that have been made so far, with counts beside them. No call asks anything;
// what it does is known where the scratch held something before (`Holds`), and what is emitted has its room (`Does`).
#![tactic(auto)]

ghost use Rattle.std.specs.Prelude.{◌≡◌, ℕ, ◌+◌, ◌*◌, ◌≤◌, List, length};
ghost use Rattle.std.proofs.lemmas.List.Edits.{sets};
ghost use Rattle.sheet.specs.Node as nodes;
ghost use Rattle.lowering.specs.Limits.{op_width};
ghost use Rattle.lowering.specs.Pools as pools;
ghost use Rattle.expr_chains.specs.Same as sames;
ghost use Rattle.bytecode.specs.declared.Op.{Op};
ghost use Rattle.bytecode.specs.Op.{op_words};
ghost use Rattle.scratch_keys.specs.Keys.{key_node, key_field, is_marked, name_of};
ghost use Rattle.scratch_keys.specs.Used.{ConstKey, NameKey, TokenKey};
ghost use Rattle.scratch.specs.declared.Layout.{Layout};
ghost use Rattle.scratch_index.specs.Memo.{numbered};
ghost use Rattle.expr_model.specs.Made as made;
ghost use Rattle.scratch_store.specs.Effects.{Narrow};
ghost use Rattle.scratch_store.specs.Stands.{Stands};
ghost use Rattle.scratch_store.specs.Stores.{Done, Added, AddedChain};
ghost use Rattle.scratch_store.specs.States as states;

use bytecode::Op;
use expr_chains::link_count;
use lowering::OP_WIDTH;
use ops::{after, op_words};
use scratch::{Index, Layout, put};
use scratch_index::{
    ChainOf, ConstOf, NameWith, Names, TokenOf, Wanted, note, recalled, remember, seek,
};
use scratch_keys::{is_marked, namespace_of, text_of};
use scratch_locals::root_local;

mod ops;
mod states;

// What the scratch holds: how many instructions stand, how many entries each pool has, how many instructions were emitted, the depth at the
// next instruction, the greatest depth before an instruction that stands (1 where none does), the layout, and how many steps the chains
// have.
// Kept: lists in one lent slice with their counts here. The C interface lends one slice, and there is no heap.
#[derive(Clone, Copy)]
pub struct State {
    pub code: u32,
    pub consts: u32,
    pub names: u32,
    pub tokens: u32,
    pub residuals: u32,
    pub chains: u32,
    pub emitted: u32,
    pub depth: u32,
    pub deepest: u32,
    pub layout: Layout,
    pub steps: u32,
}

// The lent scratch, and what it holds.
// Kept: premises and no ghost facts. Each function answers for every sheet and scratch, so where it makes a value the fact is not known.
// Kept: the sheet goes beside it. Tried, as a field: behind `&mut` each contract has to say that the sheet stays, and what is known of a
// call is known of the sheet of the store behind the call before, so that each call but the first has to be rewritten by that.
#[derive(Drop)]
pub struct Store<'a> {
    pub state: State,
    pub scratch: &'a mut [u32],
}

// The words of an instruction at its place, where all of them have room.
// Kept: four writes by index, known one by one where `emit` is drawn in; `copy_from_slice` would name memmove.
fn put_op(scratch: &mut [u32], code: u32, w: [u32; OP_WIDTH])
    ensures { op_width * code + op_width ≤ length scratch.old → length w ≡ op_width → scratch.new ≡ sets scratch.old (op_width * code) w }
{
    let at = OP_WIDTH * (code as usize);
    if at + 3 < scratch.len() {
        scratch[at] = w[0];
        scratch[at + 1] = w[1];
        scratch[at + 2] = w[2];
        scratch[at + 3] = w[3];
    }
}

// Where what is wanted, with hash `h`, stands in a pool; where it does not, key `k` goes behind the others, and counts.
fn stand<W: Wanted>(
    scratch: &mut [u32],
    count: &mut u32,
    wanted: &W,
    ix: Index,
    k: u32,
    h: u32,
) -> u32
    ensures { (hash : ℕ → ℕ) → W.told wanted.now
        → Stands (W.same wanted.now) hash W.slot ix k h scratch.old count.old scratch.new count.new result }
{
    if let Some(e) = seek(wanted, &scratch[..], ix, h) {
        return e;
    }
    let n = *count;
    put(scratch, (ix.at as usize) + (n as usize), k);
    note(scratch, ix, wanted.link(ix, k), h, n);
    *count = n.wrapping_add(1);
    n
}

impl<'a> Store<'a> {
    // Nothing is made yet.
    pub fn start(scratch: &'a mut [u32], layout: Layout) -> Store<'a>
        ensures state { result.state ≡ states.start layout }
        ensures words { result.scratch.now ≡ scratch.old }
        ensures same { result.scratch.ghost_name ≡ scratch.entry.ghost_name }
    {
        Store {
            state: State::start(layout),
            scratch,
        }
    }

    // The words, to be read: a reference to the field, taken where it stands, would not be known to leave them as they are.
    pub fn words(&self) -> &[u32]
        ensures { result.now ≡ self.now.scratch.now }
    {
        &self.scratch[..]
    }

    // The instruction with words `w` behind the code, where `n` is what a chain takes.
    fn push(&mut self, w: [u32; OP_WIDTH], pos: u32, n: u32)
        ensures does { (l : Layout) → (s : List ℕ) (op : Op) → w ≡ op_words op → Done s l self.old self.new (made.emit op pos n) }
        ensures same_reference { self.new.scratch.ghost_name ≡ self.old.scratch.ghost_name }
    {
        let code = self.state.code;
        let d = after(w, n, self.state.depth);
        let at = self.state.layout.positions_at() + (code as usize);
        put_op(self.scratch, code, w);
        put(self.scratch, at, pos);
        self.state.count_one(d);
    }

    // An instruction behind the code. Its words are known where its kind is, so this is small where it is called.
    pub fn emit(&mut self, op: Op, pos: u32, n: u32)
        ensures does { (l : Layout) → (s : List ℕ) → Narrow op → Done s l self.old self.new (made.emit op pos n) }
        ensures same_reference { self.new.scratch.ghost_name ≡ self.old.scratch.ghost_name }
    {
        self.push(op_words(op), pos, n);
    }

    // Node `j` kept as it is.
    pub fn residual(&mut self, j: u32)
        ensures does { (l : Layout) → (s : List ℕ) → Done s l self.old self.new (made.residual j) }
        ensures same_reference { self.new.scratch.ghost_name ≡ self.old.scratch.ghost_name }
    {
        let r = self.state.residuals;
        self.emit(Op::EvalAst(r), 0, 0);
        let e = self.state.residuals;
        let at = self.state.layout.residuals_at() + (e as usize);
        put(self.scratch, at, j);
        self.state.residuals = e.wrapping_add(1);
    }

    // Kept: `add_const`, `add_token`, `push_name` and `add_chain` are calls of `stand`, each with its own hash, index and count. If
    // `Wanted` said hash and index, its five impls (one is scratch_locals' `TextOf`) would have two methods and two ghost members more
    // each, and `ChainOf` the count of names beside, for a line less in each of the four; the count would be named in each all the same.
    // The constant of node `j`, and its place.
    pub fn add_const(&mut self, sheet: &[u8], j: u32) -> u32
        ensures does { let sheet = sheet.now in ((l : Layout)
            → Added sheet l self.old self.new result (ConstKey sheet j) (made.add_const sheet (pools.const_of sheet j))
            (λ a. pools.const_at sheet (pools.const_of sheet j) a.pools)) }
        ensures same_reference { self.new.scratch.ghost_name ≡ self.old.scratch.ghost_name }
    {
        let l = self.state.layout;
        let wanted = ConstOf { sheet, node: j };
        let h = wanted.hash(self.words(), l);
        stand(
            self.scratch,
            &mut self.state.consts,
            &wanted,
            l.const_index(),
            j,
            h,
        )
    }

    // The token of node `j`, and its place.
    pub fn add_token(&mut self, sheet: &[u8], j: u32) -> u32
        ensures does { let sheet = sheet.now in ((l : Layout)
            → Added sheet l self.old self.new result (TokenKey sheet j) (made.add_token (nodes.field_c sheet j))
            (λ a. pools.token_at (nodes.field_c sheet j) a.pools)) }
        ensures same_reference { self.new.scratch.ghost_name ≡ self.old.scratch.ghost_name }
    {
        let l = self.state.layout;
        let wanted = TokenOf { sheet, node: j };
        let h = wanted.hash();
        stand(
            self.scratch,
            &mut self.state.tokens,
            &wanted,
            l.token_index(),
            j,
            h,
        )
    }

    // The name with key `k`, sought by its bytes, and its place.
    fn push_name(&mut self, name: NameWith, k: u32) -> u32
        ensures does { let it = name.entry in let sheet = it.sheet.now in ((l : Layout)
            → it.text ≡ (name_of sheet k).text → it.marked ≡ is_marked sheet (key_node k) (key_field k)
            → it.namespace ≡ (name_of sheet k).namespace
            → Added sheet l self.old self.new result (NameKey sheet k) (made.add_name sheet (name_of sheet k))
            (λ a. pools.name_at sheet (name_of sheet k) a.pools)) }
        ensures same_reference { self.new.scratch.ghost_name ≡ self.old.scratch.ghost_name }
    {
        let l = self.state.layout;
        let h = name.hash(self.words(), l);
        stand(
            self.scratch,
            &mut self.state.names,
            &name,
            l.name_index(),
            k,
            h,
        )
    }

    // The same, where number `t` is that of the name: what a memo knows of it is asked first. A memo has the number plus 1, so the last one
    // has none.
    fn known_name(&mut self, name: NameWith, k: u32, t: u32) -> u32
        ensures does { let it = name.entry in let sheet = it.sheet.now in ((l : Layout)
            → it.text ≡ (name_of sheet k).text → it.marked ≡ is_marked sheet (key_node k) (key_field k)
            → it.namespace ≡ (name_of sheet k).namespace → numbered t ≡ name_of sheet k
            → Added sheet l self.old self.new result (NameKey sheet k) (made.add_name sheet (name_of sheet k))
            (λ a. pools.name_at sheet (name_of sheet k) a.pools)) }
        ensures same_reference { self.new.scratch.ghost_name ≡ self.old.scratch.ghost_name }
    {
        let ms = self.state.layout.memos_at();
        if let Some(at) = recalled(self.words(), ms, t) {
            return at;
        }
        let at = self.push_name(name, k);
        if t < u32::MAX {
            remember(self.scratch, ms, t, at);
        }
        at
    }

    // The name with key `k` (3 · node + field), and its place.
    pub fn add_name(&mut self, sheet: &[u8], k: u32) -> u32
        ensures does { let sheet = sheet.now in ((l : Layout)
            → Added sheet l self.old self.new result (NameKey sheet k) (made.add_name sheet (name_of sheet k))
            (λ a. pools.name_at sheet (name_of sheet k) a.pools)) }
        ensures same_reference { self.new.scratch.ghost_name ≡ self.old.scratch.ghost_name }
    {
        let name = NameWith {
            sheet,
            text: text_of(sheet, k),
            marked: is_marked(sheet, k),
            namespace: namespace_of(sheet, k),
        };
        match name.number() {
            Some(t) => self.known_name(name, k, t),
            None => self.push_name(name, k),
        }
    }

    // The chain of node `j`, whose names are pooled, and its place.
    pub fn add_chain(&mut self, sheet: &[u8], j: u32) -> u32
        ensures does { (l : Layout) → AddedChain sheet.now l self.old self.new result j }
        ensures same_reference { self.new.scratch.ghost_name ≡ self.old.scratch.ghost_name }
    {
        let l = self.state.layout;
        let n = self.state.chains;
        let count = self.state.names;
        let local = root_local(sheet, self.words(), l, j);
        let names = Names {
            sheet,
            scratch: self.words(),
            layout: l,
            count,
        };
        let h = names.chain_hash(j, local);
        let wanted = ChainOf {
            sheet,
            node: j,
            local,
        };
        let e = stand(
            self.scratch,
            &mut self.state.chains,
            &wanted,
            l.chain_index(),
            j,
            h,
        );
        if n < self.state.chains {
            self.state.steps = self.state.steps.wrapping_add(link_count(sheet, j));
        }
        e
    }
}
