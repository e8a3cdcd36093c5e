// The finished image, written from what the scratch holds. Each section goes to its own part of the image; what does not fit is left out.
#![tactic(auto)]

ghost use Rattle.std.specs.Prelude.{◌≡◌, ℕ, ◌+◌, ◌≤◌, List, ◌++◌, length, drop};
ghost use Rattle.std.specs.Fn.{FnOnceReturnsAtMut};
ghost use Rattle.bytecode.specs.Chain.{chain_words};
ghost use Rattle.lowering.specs.Pools as pools;
ghost use Rattle.lowering.specs.Image.{section};
ghost use Rattle.expr_model.specs.Made.{Made};
ghost use Rattle.scratch.specs.Places.{chains_at, region};
ghost use Rattle.scratch_index.specs.Held.{NamesHold, names_held};
ghost use Rattle.scratch_store.specs.Holds.{Holds};
ghost use Rattle.scratch_store.specs.States.{layout_of};
ghost use Rattle.scratch.specs.declared.Layout.{Layout};
ghost use Rattle.write_front.specs.Front as fronts;
ghost use Rattle.write_front.specs.Puts.{Puts};
ghost use Rattle.write_front.specs.Reach.{Reach};

use lowering::{
    CHAIN_WIDTH, CODE_WIDTH, CONST_WIDTH, MAX_STACK, NAME_WIDTH, OP_WIDTH, SIZES, STEP_WIDTH,
};
use scratch_index::Names;
use scratch_store::State;
use write_sections::copy;

// So many chains have at most 4294967232 steps.
const MAX_CHAINS: usize = 67108863;

// `n` elements from `at` on reach beyond `m`.
// Kept: no `get_mut` of a range where this is asked. Tried in `put_section`: behind the reference it stays open what the image ends as.
// `split_at_mut_checked`, of which that is known, would be asked twice, with an answer each for what does not fit.
pub fn beyond(m: usize, at: usize, n: usize) -> bool
    ensures { Reach m at n result }
{
    m < at || m - at < n
}

// A section of `words` words from `at` on, as `write` writes it, and the place behind it. What does not fit is left out.
// Kept: `at` where nothing is written, and no Option. `put` and the writers of tables answer a place for every image, so each of them would
// turn None into a place again.
// Kept: `image` and `at` as two parameters, here and in write_tables. A writer of both would be lent as `&mut`: the four ends that
// `Puts old new at r xs` says at once (image and place, before and behind) would be fields of its two states in each contract.
pub fn put_section<F: FnOnce(&mut [u32])>(
    image: &mut [u32],
    at: usize,
    words: usize,
    write: F,
) -> usize
    requires { (part : _) → length part.now ≡ words → F.pre write part }
    ensures { (section : List ℕ) → length section ≡ words
        → ((before after : List ℕ) → length before ≡ words → FnOnceReturnsAtMut F.FnOnce write before tt after → after ≡ section)
        → Puts image.old image.new at result section }
{
    if beyond(image.len(), at, words) {
        return at;
    }
    let e = at + words;
    write(&mut image[at..e]);
    e
}

// How many tables, rows of Cases and rows of ranges an image has.
#[derive(Clone, Copy)]
pub struct Tables {
    pub switches: u32,
    pub cases: u32,
    pub ranges: u32,
}

// What the front of an image is written from: a sheet, and what the scratch holds of it.
// Kept: that it holds it (`Holds`) is a premise of each method: the fields are public, and who makes a Source need not know it.
#[derive(Clone, Copy)]
pub struct Source<'a> {
    pub sheet: &'a [u8],
    pub scratch: &'a [u32],
    pub state: State,
}

impl<'a> Source<'a> {
    // The `n` words of the scratch from `b` on; none where they are not all there.
    fn keys(&self, b: usize, n: usize) -> &'a [u32]
        ensures { let it = self.now in b + n ≤ length it.scratch.now → result.now ≡ region b n it.scratch.now }
    {
        self.scratch.get(b..b.saturating_add(n)).unwrap_or(&[])
    }

    // The names that the scratch holds.
    fn names(&self) -> Names<'a>
        ensures sheet { result.sheet.now ≡ self.now.sheet.now }
        ensures held { let it = self.now in (a : Made) → Holds it.sheet.now (layout_of it.state) it.scratch.now it.state a
            → NamesHold result.sheet.now result.layout result.count result.scratch.now
            × (names_held result.sheet.now result.layout result.count result.scratch.now ≡ a.pools.names) }
    {
        Names {
            sheet: self.sheet,
            scratch: self.scratch,
            layout: self.state.layout,
            count: self.state.names,
        }
    }

    // The keys of the chains.
    fn chain_keys(&self) -> &'a [u32]
        ensures { let it = self.now in (a : Made) → Holds it.sheet.now (layout_of it.state) it.scratch.now it.state a
            → result.now ≡ region (chains_at (layout_of it.state)) it.state.chains it.scratch.now }
    {
        self.keys(self.state.layout.chains_at(), self.state.chains as usize)
    }

    // Kept: chains and steps have the lines of `put_section` again. Tried: of a closure that holds `Names`, a struct with references,
    // nothing is known behind its call.
    // The chains. So many that their steps might not fit a word are left out.
    fn put_chains(&self, image: &mut [u32], at: usize) -> usize
        ensures { let it = self.now in (a : Made) → Holds it.sheet.now (layout_of it.state) it.scratch.now it.state a
            → Puts image.old image.new at result (section chain_words a.pools.chains) }
    {
        let keys = self.chain_keys();
        if MAX_CHAINS < keys.len() {
            return at;
        }
        let w = CHAIN_WIDTH * keys.len();
        if beyond(image.len(), at, w) {
            return at;
        }
        let e = at + w;
        write_sections::chains(&self.names(), &mut image[at..e], keys);
        e
    }

    // The steps, which are counted already.
    fn put_steps(&self, image: &mut [u32], at: usize) -> usize
        ensures { let it = self.now in (a : Made) → Holds it.sheet.now (layout_of it.state) it.scratch.now it.state a
            → Puts image.old image.new at result (pools.steps_words a.pools.steps) }
    {
        let w = STEP_WIDTH * (self.state.steps as usize);
        if beyond(image.len(), at, w) {
            return at;
        }
        let e = at + w;
        write_sections::steps(&self.names(), &mut image[at..e], self.chain_keys());
        e
    }

    // The twelve sizes.
    fn sizes(&self, tables: Tables) -> [u32; SIZES]
        ensures { let it = self.now in (a : Made) → Holds it.sheet.now (layout_of it.state) it.scratch.now it.state a
            → result ≡ fronts.front_sizes a tables.switches tables.cases tables.ranges }
    {
        let state = self.state;
        [
            state.code,
            state.consts,
            state.names,
            state.tokens,
            state.residuals,
            state.chains,
            state.steps,
            tables.switches,
            tables.cases,
            tables.ranges,
            state.emitted.min(MAX_STACK),
            state.deepest,
        ]
    }

    // The code and its positions.
    fn put_code(&self, image: &mut [u32], at: usize) -> usize
        ensures { let it = self.now in (a : Made) → Holds it.sheet.now (layout_of it.state) it.scratch.now it.state a
            → Puts image.old image.new at result (fronts.code_part a) }
    {
        let k = self.state.code as usize;
        let code = self.keys(0, OP_WIDTH * k);
        let e = put_section(image, at, code.len(), |part| copy(part, code));
        let positions = self.keys(self.state.layout.positions_at(), k);
        put_section(image, e, positions.len(), |part| copy(part, positions))
    }

    // The constants, the names, the tokens and the residuals.
    fn put_pools(&self, image: &mut [u32], at: usize) -> usize
        ensures { let it = self.now in (a : Made) → Holds it.sheet.now (layout_of it.state) it.scratch.now it.state a
            → Puts image.old image.new at result (fronts.pools_part a) }
    {
        let sheet = self.sheet;
        let layout = self.state.layout;
        let consts = self.keys(layout.consts_at(), self.state.consts as usize);
        let names = self.keys(layout.names_at(), self.state.names as usize);
        let tokens = self.keys(layout.tokens_at(), self.state.tokens as usize);
        let residuals = self.keys(layout.residuals_at(), self.state.residuals as usize);
        let e = put_section(
            image,
            at,
            CONST_WIDTH * consts.len(),
            |part| write_sections::consts(sheet, part, consts),
        );
        let f = put_section(
            image,
            e,
            NAME_WIDTH * names.len(),
            |part| write_sections::names(sheet, part, names),
        );
        let g = put_section(
            image,
            f,
            tokens.len(),
            |part| write_sections::tokens(sheet, part, tokens),
        );
        put_section(image, g, residuals.len(), |part| copy(part, residuals))
    }

    // The front of the image, with tables of these sizes, and the place behind it.
    pub fn put(&self, image: &mut [u32], tables: Tables) -> usize
        ensures { let it = self.now in (l : Layout) (a : Made) → Holds it.sheet.now l it.scratch.now it.state a
            → Puts image.old image.new 0 result (fronts.front a tables.switches tables.cases tables.ranges) }
    {
        let n = self.sizes(tables);
        let e = put_section(image, 0, SIZES, |part| write_sections::sizes(part, n));
        let f = self.put_code(image, e);
        let g = self.put_pools(image, f);
        let h = self.put_chains(image, g);
        self.put_steps(image, h)
    }

    // The front of the image; what stood behind it stays.
    pub fn write(&self, image: &mut [u32], tables: Tables)
        ensures { let it = self.now in (l : Layout) (a : Made) → Holds it.sheet.now l it.scratch.now it.state a
            → length (fronts.front a tables.switches tables.cases tables.ranges) ≤ length image.old
            → image.new ≡ fronts.front a tables.switches tables.cases tables.ranges
            ++ drop (length (fronts.front a tables.switches tables.cases tables.ranges)) image.old }
    {
        let _e = self.put(image, tables);
    }
}

// The count of the image's words, of which `tables` stand behind the front.
pub fn image_len(state: State, tables: u32) -> usize
    ensures { (s : List ℕ) (l : Layout) (xs : List ℕ) (a : Made) → Holds s l xs state a → (sw ca ra : ℕ)
        → result ≡ length (fronts.front a sw ca ra) + tables }
{
    let code = CODE_WIDTH * (state.code as usize);
    let keys = CONST_WIDTH * (state.consts as usize)
        + NAME_WIDTH * (state.names as usize)
        + (state.tokens as usize);
    let linked = CHAIN_WIDTH * (state.chains as usize) + STEP_WIDTH * (state.steps as usize);
    SIZES + code + keys + (state.residuals as usize) + linked + (tables as usize)
}
