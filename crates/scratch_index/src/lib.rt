// The index of the pools in lent words: a head for each bucket, and for each entry a link at the slot of its key. Reads and writes answer
// at every place; what a search answers is known where the index holds (`Finds`, `FindsName`).
#![tactic(auto)]

ghost use Rattle.std.specs.Prelude.{◌≡◌, ◌+◌, ℕ, ◌/◌, ◌<◌, ◌==◌, Bool};
ghost use Rattle.sheet.specs.Limits.{max_depth};
ghost use Rattle.sheet.specs.Node as nodes;
ghost use Rattle.lowering.specs.Pools.{name};
ghost use Rattle.lowering.specs.Pools as pools;
ghost use Rattle.lowering.specs.Flatten.{operand_of, links};
ghost use Rattle.expr_rules.specs.Reads.{Reads};
ghost use Rattle.expr_chains.specs.Same.{RootLocal, same_nodes};
ghost use Rattle.scratch.specs.Places as places;
ghost use Rattle.scratch_folds.specs.Hash.{mix, fold_hash};
ghost use Rattle.scratch_folds.specs.Sums.{BySums};
ghost use Rattle.scratch_index.specs.Table.{head_at, link_at, tag_of, noted_by};
ghost use Rattle.scratch_index.specs.Lookup.{hit_by, Finds, Seeks};
ghost use Rattle.scratch_index.specs.Consts.{const_slot, same_const_of, const_hash, same_token_of, token_hash};
ghost use Rattle.scratch_index.specs.Names.{is_name, name_with, name_hash_of, name_hash, name_slot};
ghost use Rattle.scratch_index.specs.Memo.{memo_at, number_by, remembered, recalled, told_by};
ghost use Rattle.scratch_index.specs.Held.{FindsName, names_held};
ghost use Rattle.scratch_index.specs.Chains.{ByNames};
ghost use Rattle.scratch_index.specs.Chains as chains;

use expr_chains::{same_chain, same_text};
use expr_rules::chains::{Read, StepRule, links_of};
use lowering::{NAMES_PER_NODE, SEPARATOR};
use scratch::{Index, Layout, MEMO_PAIRS, get, put};
use scratch_folds::{byte_step, fold_text, hash_text, more, spread_out};
use scratch_keys::joined::Joined;
use scratch_keys::{is_marked, namespace_of, same_marked, text_of};
use sheet::kinds::{STRING, THIS, VARIABLE};
use sheet::limits::MAX_TEXTS;
use sheet::{child, count, field_a, field_b, field_c, kind, position, role, start_of, text};

// A link has the entry before in its low 19 bits, and 13 bits of its own entry's hash above them.
// Kept: a head and the entry in a link are the entry plus 1, and 0 is none, here and in `note` and `seek`; so is the number of a memo
// (`remember`, `recalled`), and the local of a slot (scratch_locals). A word of the lent scratch has no Option: each becomes one where it
// is read, or is only compared with 0 (`told_by` of expr_count).
// Kept: a map in words, and the memos below too: the C interface lends one slice, and there is no heap.
pub const RANKS: u32 = 524288;

pub const TAGS: u32 = 8192;

// The place of the head for hash `h`.
pub fn head(ix: Index, h: u32) -> usize
    ensures { result ≡ head_at ix h }
{
    let b = (h as u64) * (ix.count as u64) / 4294967296;
    (ix.heads as usize) + (b as usize)
}

// The place of the link of node `j`.
pub fn link(ix: Index, j: u32) -> usize
    ensures { result ≡ link_at ix (const_slot j) }
{
    (ix.links as usize) + 2 * (j as usize)
}

// The place of the link of the name with key `k`.
// Kept: the key as a number, as in scratch_keys: an enum would be made of it for this one sum.
pub fn name_link(ix: Index, k: u32) -> usize
    ensures { result ≡ link_at ix (name_slot k) }
{
    (ix.links as usize)
        + (2 * ((k / NAMES_PER_NODE) as usize) + (((k % NAMES_PER_NODE + 1) % 2) as usize))
}

// Entry `e` with hash `h`, whose link stands at place `at`, goes in front of its bucket.
pub fn note(scratch: &mut [u32], ix: Index, at: usize, h: u32, e: u32)
    ensures { scratch.new ≡ noted_by (head_at ix h) at (tag_of h) e scratch.old }
{
    let front = head(ix, h);
    let c = get(&scratch[..], front);
    put(scratch, at, c % RANKS + RANKS * (h % TAGS));
    put(scratch, front, e.wrapping_add(1));
}

// The hash of a constant with kind `k` and fields `a`, `b`.
fn number_hash(k: u32, a: u32, b: u32) -> u32
    ensures { result ≡ mix k a b }
{
    more(more(more(more(0, a), b), k), 1)
}

// Where the memo of number `t` stands, of those from place `ms` on. A namespace moves it, so that one text in several of them has several.
fn memo_at(ms: u32, t: u32) -> usize
    ensures { (result ≡ memo_at ms t) × (result < 10000000000) }
{
    let n = u64::from(t);
    let at = (n + n / u64::from(MAX_TEXTS) * 37) % u64::from(MEMO_PAIRS);
    (ms as usize) + 2 * (at as usize)
}

// What the memos from place `ms` on say of number `t`, if they know it.
#[tactic(auto, unfolding(crate::specs::Memo::recalled))]
pub fn recalled(scratch: &[u32], ms: u32, t: u32) -> Option<u32>
    ensures { result ≡ recalled ms t scratch.now }
{
    let at = memo_at(ms, t);
    let known = get(scratch, at);
    if (known as u64) == (t as u64) + 1 {
        return Some(get(scratch, at + 1));
    }
    None
}

// The same of a name, by its number, if it has one.
#[tactic(auto, unfolding(crate::specs::Memo::told_by))]
fn told_by(scratch: &[u32], ms: u32, number: Option<u32>) -> Option<u32>
    ensures { result ≡ told_by ms number scratch.now }
{
    recalled(scratch, ms, number?)
}

// Number `t` has answer `p`.
pub fn remember(scratch: &mut [u32], ms: u32, t: u32, p: u32)
    ensures { scratch.new ≡ remembered ms t p scratch.old }
{
    let at = memo_at(ms, t);
    put(scratch, at, t.wrapping_add(1));
    put(scratch, at + 1, p);
}

// Nodes `i` and `c` have the same constant. One text number needs no bytes.
// Kept: kind and bytes stand in the sheet, here and in `NameWith`, so no derive compares them.
fn same_const(sheet: &[u8], i: u32, c: u32) -> bool
    ensures { result ≡ same_const_of sheet.now i c }
{
    let k = kind(sheet, i);
    if k == kind(sheet, c) {
        let a = field_a(sheet, i);
        let d = field_a(sheet, c);
        if k == STRING {
            return same_text(sheet, a, d);
        }
        return (a == d) & (field_b(sheet, i) == field_b(sheet, c));
    }
    false
}

// What is looked for in an index: which entries are it, and where the link of an entry stands. What `told` says is taken to be so.
pub trait Wanted {
    ghost told: { Self → Type 0 };

    ghost same: { Self → ℕ → Bool };

    ghost slot: { ℕ → ℕ };

    // The entry with key `k` is it.
    fn same(&self, k: u32) -> bool
        ensures { told self.now → result ≡ same self.now k };

    // The place of the link of the entry with key `k`.
    // Kept: no default body, though all but `NameWith` say `link(ix, k)`. Tried: a default is proved for every `slot`, and this one is true
    // of `const_slot` alone.
    fn link(&self, ix: Index, k: u32) -> usize
        ensures { result ≡ link_at ix (slot k) };
}

// The constant of a node.
#[derive(Clone, Copy)]
pub struct ConstOf<'a> {
    pub sheet: &'a [u8],
    pub node: u32,
}

impl<'a> ConstOf<'a> {
    // Its hash, by the kept folds.
    pub fn hash(&self, scratch: &[u32], layout: Layout) -> u32
        ensures { let it = self.now in let sheet = it.sheet.now in
            BySums sheet (places.sums_from layout) scratch.now (const_hash sheet it.node) result }
    {
        let k = kind(self.sheet, self.node);
        let a = field_a(self.sheet, self.node);
        if k == STRING {
            return hash_text(self.sheet, scratch, layout.sums_at(), a);
        }
        number_hash(k, a, field_b(self.sheet, self.node))
    }
}

impl<'a> Wanted for ConstOf<'a> {
    ghost told = { λ _. Unit {0} };

    ghost same = { λ it k. same_const_of it.sheet.now it.node k };

    ghost slot = { const_slot };

    fn same(&self, k: u32) -> bool {
        same_const(self.sheet, self.node, k)
    }

    fn link(&self, ix: Index, k: u32) -> usize {
        link(ix, k)
    }
}

// The token of a node.
#[derive(Clone, Copy)]
pub struct TokenOf<'a> {
    pub sheet: &'a [u8],
    pub node: u32,
}

impl<'a> TokenOf<'a> {
    // Its hash.
    pub fn hash(&self) -> u32
        ensures { let it = self.now in result ≡ token_hash it.sheet.now it.node }
    {
        let t = field_c(self.sheet, self.node);
        spread_out(t.wrapping_add(1))
    }
}

impl<'a> Wanted for TokenOf<'a> {
    ghost told = { λ _. Unit {0} };

    ghost same = { λ it k. same_token_of it.sheet.now it.node k };

    ghost slot = { const_slot };

    fn same(&self, k: u32) -> bool {
        field_c(self.sheet, self.node) == field_c(self.sheet, k)
    }

    fn link(&self, ix: Index, k: u32) -> usize {
        link(ix, k)
    }
}

// The name with a text, with `!` where it is marked, in a namespace (its text plus 1, or 0 for none).
// Kept: the namespace's word, as an image's name has it, and as keys tell it.
#[derive(Clone, Copy)]
pub struct NameWith<'a> {
    pub sheet: &'a [u8],
    pub text: u32,
    pub marked: bool,
    pub namespace: u32,
}

impl<'a> NameWith<'a> {
    // Its number, by which a memo may know it: text and namespace, where it has no mark and the two have room in a word.
    #[tactic(auto, unfolding(crate::specs::Memo::number_by))]
    pub fn number(&self) -> Option<u32>
        ensures { let it = self.now in result ≡ number_by it.text it.marked it.namespace }
    {
        if self.marked {
            return None;
        }
        if MAX_TEXTS <= self.text {
            return None;
        }
        if MAX_TEXTS <= self.namespace {
            return None;
        }
        Some(self.text + MAX_TEXTS * self.namespace)
    }

    // The fold over what its namespace puts before it.
    fn prefix_fold(&self, scratch: &[u32], layout: Layout) -> u32
        ensures { let it = self.now in let sheet = it.sheet.now in
            BySums sheet (places.sums_from layout) scratch.now (fold_hash 0 (pools.prefix sheet it.namespace)) result }
    {
        if self.namespace == 0 {
            return 0;
        }
        let f = fold_text(self.sheet, scratch, layout.sums_at(), self.namespace - 1, 0);
        let [a, b] = SEPARATOR;
        byte_step(byte_step(f, a), b)
    }

    // Its hash, by the kept folds: the separator and `!` are bytes more.
    pub fn hash(&self, scratch: &[u32], layout: Layout) -> u32
        ensures { let it = self.now in let sheet = it.sheet.now in
            BySums sheet (places.sums_from layout) scratch.now
            (name_hash_of sheet (name_with sheet it.text it.marked it.namespace)) result }
    {
        let p = self.prefix_fold(scratch, layout);
        let f = fold_text(self.sheet, scratch, layout.sums_at(), self.text, p);
        if self.marked {
            return spread_out(byte_step(f, b'!'));
        }
        spread_out(f)
    }
}

impl<'a> Wanted for NameWith<'a> {
    ghost told = { λ _. Unit {0} };

    ghost same = { λ it k. is_name it.sheet.now (name_with it.sheet.now it.text it.marked it.namespace) k };

    ghost slot = { name_slot };

    // The same numbers need no bytes, and one namespace none of its own.
    fn same(&self, k: u32) -> bool {
        let d = text_of(self.sheet, k);
        let w = namespace_of(self.sheet, k);
        if (self.text == d) & (self.namespace == w) {
            return is_marked(self.sheet, k) == self.marked;
        }
        if self.namespace == w {
            let wanted = text(self.sheet, self.text);
            return same_marked(self.sheet, k, wanted, self.marked, text(self.sheet, d));
        }
        let wanted = Joined::new(self.sheet, self.namespace, self.text, self.marked);
        wanted.same(&Joined::new(self.sheet, w, d, is_marked(self.sheet, k)))
    }

    fn link(&self, ix: Index, k: u32) -> usize {
        name_link(ix, k)
    }
}

// The chain of a node, where `local` tells whether its root is a local.
#[derive(Clone, Copy)]
pub struct ChainOf<'a> {
    pub sheet: &'a [u8],
    pub node: u32,
    pub local: bool,
}

impl<'a> Wanted for ChainOf<'a> {
    ghost told = { λ it. RootLocal it.sheet.now (nodes.child it.node) it.local };

    ghost same = { λ it k. same_nodes it.sheet.now it.node k };

    ghost slot = { const_slot };

    fn same(&self, k: u32) -> bool {
        same_chain(self.sheet, self.node, k, self.local)
    }

    fn link(&self, ix: Index, k: u32) -> usize {
        link(ix, k)
    }
}

// The entry with key `k` and link `v` is what is wanted, which has hash `h`: the tag is looked at first.
fn hit<W: Wanted>(wanted: &W, v: u32, h: u32, k: u32) -> bool
    ensures { W.told wanted.now → result ≡ hit_by (v / 524288) (tag_of h) (W.same wanted.now k) }
{
    if v / RANKS == h % TAGS {
        return wanted.same(k);
    }
    false
}

// Where what is wanted, with hash `h`, stands in the index, however many entries it has. A link that does not lead back ends the search:
// there is none where the index holds.
// Kept: scratch, index and hash apart, as in `note` and in `stand` of scratch_store: a caller makes index and hash for
// one search, and `head` and `hit` would take them apart again.
pub fn seek<W: Wanted>(wanted: &W, scratch: &[u32], ix: Index, h: u32) -> Option<u32>
    ensures { (hash : ℕ → ℕ) (n : ℕ) → W.told wanted.now → Seeks (W.same wanted.now) hash W.slot ix n h scratch.now result }
{
    let mut c = get(scratch, head(ix, h));
    // Kept: the loop goes along links, and counts no index.
    while 0 < c {
        let e = c - 1;
        let k = get(scratch, (ix.at as usize) + (e as usize));
        let v = get(scratch, wanted.link(ix, k));
        if hit(wanted, v, h, k) {
            return Some(e);
        }
        let d = v % RANKS;
        if c <= d {
            return None;
        }
        c = d;
    }
    None
}

// One link more of a hash: link `c`, an index, which is taken with `v`.
fn index_hash(sheet: &[u8], h: u32, c: u32, v: u32) -> u32
    ensures { v ≡ operand_of sheet.now c → result ≡ chains.index_hash sheet.now h c }
{
    more(more(more(h, 0), position(sheet, c)), start_of(sheet, v))
}

// The first `count` names that the scratch holds for a sheet.
// Kept: that it holds them (`NamesHold`) is a premise of what asks for their places. Each function answers for every scratch, so where a
// `Names` is made the fact is not known.
#[derive(Clone, Copy)]
pub struct Names<'a> {
    pub sheet: &'a [u8],
    pub scratch: &'a [u32],
    pub layout: Layout,
    pub count: u32,
}

impl<'a> Names<'a> {
    // The place of the name with text `t`, no mark and no namespace among them: the memo is asked first.
    pub fn place(&self, t: u32) -> u32
        ensures { let it = self.now in FindsName it.sheet.now it.layout it.count (name t 0) it.scratch.now result }
    {
        let wanted = NameWith {
            sheet: self.sheet,
            text: t,
            marked: false,
            namespace: 0,
        };
        if let Some(at) = told_by(self.scratch, self.layout.memos_at(), wanted.number()) {
            return at;
        }
        let h = wanted.hash(self.scratch, self.layout);
        // Kept: `count` where it is not there, which is the place that the definition gives it then.
        seek(&wanted, self.scratch, self.layout.name_index(), h).unwrap_or(self.count)
    }

    // Property `v`, by the places of its three names.
    fn property_hash(&self, h: u32, v: u32) -> u32
        ensures { let it = self.now in let sheet = it.sheet.now in let words = it.scratch.now in ByNames sheet it.layout it.count words
            (chains.property_hash sheet (names_held sheet it.layout it.count words) h v) result }
    {
        let a = self.place(field_a(self.sheet, v));
        let b = self.place(field_b(self.sheet, v));
        let c = self.place(field_c(self.sheet, v));
        more(
            more(more(more(more(h, 1), position(self.sheet, v)), a), b),
            c,
        )
    }

    // Method `v`, by the place of its name.
    fn method_hash(&self, h: u32, v: u32) -> u32
        ensures { let it = self.now in let sheet = it.sheet.now in let words = it.scratch.now in ByNames sheet it.layout it.count words
            (chains.method_hash sheet (names_held sheet it.layout it.count words) h v) result }
    {
        let a = self.place(field_a(self.sheet, v));
        more(
            more(
                more(more(h, 2), position(self.sheet, v)),
                count(self.sheet, v),
            ),
            a,
        )
    }

    // A link, which says `p`.
    fn link_hash(&self, h: u32, p: Read) -> u32
        ensures { let it = self.now in let sheet = it.sheet.now in let words = it.scratch.now in (Reads sheet p.link p
            → ByNames sheet it.layout it.count words (chains.link_hash sheet (names_held sheet it.layout it.count words) h p.link) result) }
    {
        let v = p.with;
        let g = more(h, p.flag);
        // Kept: each kind of step is hashed in its own way, and a closure for each would be called in this one place: no plainer.
        match p.rule {
            StepRule::Index => index_hash(self.sheet, g, p.link, v),
            StepRule::Property => self.property_hash(g, v),
            StepRule::Method => self.method_hash(g, v),
            StepRule::Nothing => g,
        }
    }

    // All links of the chain of node `j`.
    fn links_hash(&self, j: u32) -> u32
        ensures { let it = self.now in let sheet = it.sheet.now in let words = it.scratch.now in ByNames sheet it.layout it.count words
            (chains.links_hash sheet (names_held sheet it.layout it.count words) 1 (links max_depth sheet j)) result }
    {
        let mut h: u32 = 1;
        for p in links_of(self.sheet, j) {
            h = self.link_hash(h, p);
        }
        h
    }

    // Root `v`, where `local` tells whether it is a local.
    fn root_hash(&self, h: u32, v: u32, local: bool) -> u32
        ensures { let it = self.now in let sheet = it.sheet.now in let words = it.scratch.now in (RootLocal sheet v local
            → ByNames sheet it.layout it.count words (chains.root_hash sheet (names_held sheet it.layout it.count words) h v) result) }
    {
        let k = role(self.sheet, v);
        if k == VARIABLE {
            let f = more(more(h, k), self.place(field_a(self.sheet, v)));
            if local {
                return f;
            }
            return more(f, position(self.sheet, v));
        }
        if k == THIS {
            return more(more(h, k), position(self.sheet, v));
        }
        more(h, 0)
    }

    // The hash of the chain of node `j`, where `local` tells whether its root is a local.
    pub fn chain_hash(&self, j: u32, local: bool) -> u32
        ensures { let it = self.now in let sheet = it.sheet.now in let words = it.scratch.now in (RootLocal sheet (nodes.child j) local
            → ByNames sheet it.layout it.count words (chains.chain_hash sheet (names_held sheet it.layout it.count words) j) result) }
    {
        let h = self.links_hash(j);
        spread_out(self.root_hash(h, child(j), local))
    }
}
