// The lent scratch, in words: reads and writes that answer at every place, and where each list lies (specs/Places.antt has the same for the
// contracts). Places of an index are words, so their sums never wrap; within the format's limits none is cut off.
#![tactic(auto)]

ghost use Rattle.std.specs.Prelude.{◌≡◌, ◌+◌, ◌<◌, ◌≤◌, ◌%◌, min, set, get_or};
ghost use Rattle.scratch.specs.Clear.{cleared};
ghost use Rattle.scratch.specs.Places as places;

use lowering::{CODE_WIDTH, OP_WIDTH};

// How many instructions may be emitted, and how many nodes the sheet has.
#[derive(Clone, Copy)]
pub struct Layout {
    pub most: u32,
    pub nodes: u32,
}

// An index of keys: where its heads start and how many there are, where the keys and where the links start.
#[derive(Clone, Copy)]
pub struct Index {
    pub heads: u32,
    pub count: u32,
    pub at: u32,
    pub links: u32,
}

// Words for each instruction: its four words, its position, a residual.
const PER_EMITTED: usize = 6;

// Words for each node: the keys of a constant, a token, a chain and three names.
const PER_NODE: usize = 6;

// And two links.
const WITH_LINKS: usize = 8;

// The memos for names: so many pairs, and their words.
pub const MEMO_PAIRS: u32 = 512;

const MEMO_WORDS: u32 = 1024;

// Words of the memos, and of the folds that are kept for long texts, which stand behind them.
const BESIDE_WORDS: usize = 2048;

// A word, 0 past the end.
// Kept: a reader of its own beside `byte` (words) and `word_of` (image_read). One for them all would promise `get_or`, and each contract
// that names the definition of what is read (`byte_of`, `word`) would have to be taken from there to it.
pub fn get(scratch: &[u32], i: usize) -> u32
    ensures { result ≡ get_or scratch.now i 0 }
{
    scratch.get(i).copied().unwrap_or(0)
}

// A word, where there is room.
pub fn put(scratch: &mut [u32], i: usize, v: u32)
    ensures { scratch.new ≡ set scratch.old i v }
{
    // Kept: tried, `if let Some(w) = scratch.get_mut(i)`; in either arm it stays open what the slice is behind the reference.
    if i < scratch.len() {
        scratch[i] = v;
    }
}

// The words from `at` on, `n` of them, are 0.
fn clear(scratch: &mut [u32], at: u32, n: u32)
    ensures { scratch.new ≡ cleared at n scratch.old }
{
    let start = (at as usize).min(scratch.len());
    let stop = (start + (n as usize)).min(scratch.len());
    scratch[start..stop].fill(0);
}

// A number as a word.
// Kept: an `as` may lose no bits here, and `u32::try_from` would ask what to do with the rest, which `%` says.
fn word(n: usize) -> u32
    ensures { result ≡ n % 4294967296 }
{
    (n % 4294967296) as u32
}

// Kept: a method for each list and each index. Each answers the definition of its own name in specs/Places.antt, which the contracts of
// the callers name; one method by a number or an enum would be taken apart again in each of them.
impl Layout {
    // The place behind all words for instructions and `n` words for each node.
    fn behind(self, n: usize) -> usize
        requires { n ≤ 8 }
        ensures { result ≡ places.behind n self }
    {
        PER_EMITTED * (self.most as usize) + n * (self.nodes as usize)
    }

    // Where the positions start, behind the code.
    pub fn positions_at(self) -> usize
        ensures { result ≡ places.positions_at self }
    {
        OP_WIDTH * (self.most as usize)
    }

    // The residuals.
    pub fn residuals_at(self) -> usize
        ensures { result ≡ places.residuals_at self }
    {
        CODE_WIDTH * (self.most as usize)
    }

    // The keys of the constants.
    pub fn consts_at(self) -> usize
        ensures { result ≡ places.consts_at self }
    {
        self.behind(0)
    }

    // The keys of the tokens.
    pub fn tokens_at(self) -> usize
        ensures { result ≡ places.tokens_at self }
    {
        self.behind(1)
    }

    // The keys of the chains.
    pub fn chains_at(self) -> usize
        ensures { result ≡ places.chains_at self }
    {
        self.behind(2)
    }

    // The keys of the names.
    pub fn names_at(self) -> usize
        ensures { result ≡ places.names_at self }
    {
        self.behind(3)
    }

    // The words of all lists; the links of the indexes lie behind them.
    pub fn links_at(self) -> usize
        ensures { result ≡ places.links_at self }
    {
        self.behind(PER_NODE)
    }

    // The memos.
    pub fn memos_at(self) -> u32
        ensures { result ≡ places.memos_from self }
    {
        word(self.behind(WITH_LINKS))
    }

    // The folds that are kept for long texts.
    pub fn sums_at(self) -> u32
        ensures { result ≡ places.sums_from self }
    {
        word(self.behind(WITH_LINKS) + (MEMO_WORDS as usize))
    }

    // The heads of all indexes.
    fn heads_at(self) -> usize
        ensures { result ≡ places.heads_at self }
    {
        self.behind(WITH_LINKS) + BESIDE_WORDS
    }

    // How many heads the names have.
    fn name_heads(self) -> usize
        ensures { (result ≡ places.name_heads self) × (result < 10000000000) }
    {
        ((self.most as usize) + 1024).min(2 * (self.nodes as usize) + 64)
    }

    // How many a pool of about `n` entries has, at most one for each node.
    fn heads_for(self, n: u32) -> usize
        ensures { (result ≡ min (n + 256) (self.nodes + 64)) × (result < 10000000000) }
    {
        ((n as usize) + 256).min((self.nodes as usize) + 64)
    }

    // How many the constants have.
    fn const_heads(self) -> usize
        ensures { (result ≡ places.const_heads self) × (result < 10000000000) }
    {
        self.heads_for(self.most / 2)
    }

    // How many the tokens have, and the chains as many.
    fn token_heads(self) -> usize
        ensures { (result ≡ places.token_heads self) × (result < 10000000000) }
    {
        self.heads_for(self.most / 4)
    }

    // An index with these heads, so many of them, and these keys.
    fn index_at(self, heads: usize, count: usize, at: usize) -> Index
        ensures { result ≡ places.index_at heads count at (places.links_at self) }
    {
        Index {
            heads: word(heads),
            count: word(count),
            at: word(at),
            links: word(self.links_at()),
        }
    }

    // The index of the names.
    pub fn name_index(self) -> Index
        ensures { result ≡ places.name_index self }
    {
        self.index_at(self.heads_at(), self.name_heads(), self.names_at())
    }

    // The index of the constants.
    pub fn const_index(self) -> Index
        ensures { result ≡ places.const_index self }
    {
        let heads = self.heads_at() + self.name_heads();
        self.index_at(heads, self.const_heads(), self.consts_at())
    }

    // The index of the tokens.
    pub fn token_index(self) -> Index
        ensures { result ≡ places.token_index self }
    {
        let heads = self.heads_at() + self.name_heads() + self.const_heads();
        self.index_at(heads, self.token_heads(), self.tokens_at())
    }

    // The index of the chains.
    pub fn chain_index(self) -> Index
        ensures { result ≡ places.chain_index self }
    {
        let n = self.token_heads();
        let heads = self.heads_at() + self.name_heads() + self.const_heads() + n;
        self.index_at(heads, n, self.chains_at())
    }

    // No entry stands in any index, and nothing is told by the memos of names.
    pub fn clear_index(self, scratch: &mut [u32])
        ensures { scratch.new ≡ places.cleared_index self scratch.old }
    {
        let heads = self.heads_at();
        let count = self.name_heads() + self.const_heads() + 2 * self.token_heads();
        clear(scratch, self.memos_at(), MEMO_WORDS);
        clear(scratch, word(heads), word(count));
    }
}
