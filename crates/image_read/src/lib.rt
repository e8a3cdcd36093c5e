// An image read word by word: any word, where each section starts, and the targets of rows.
#![tactic(auto)]

ghost use Rattle.std.specs.Prelude.{◌≡◌, ◌≤◌, List, ℕ};
ghost use Rattle.lowering.specs.Limits.{range_width};
ghost use Rattle.lowering.specs.Words as words;
ghost use Rattle.image_rule.specs.Rules as rules;
ghost use Rattle.image_rule.specs.Marks as marks;
ghost use Rattle.image_read.specs.Kinds as kinds;
ghost use Rattle.image_read.specs.Most as most;
ghost use Rattle.image_read.specs.Placed.{SizesOf, Placed, Near, c_at, name_word, token, residual};
ghost use Rattle.image_read.specs.Pools as pools;
ghost use Rattle.image_read.specs.Targets as targets;

use lowering::{
    CASE_WIDTH, CHAIN_WIDTH, CODE_WIDTH, CONST_WIDTH, NAME_WIDTH, OP_WIDTH, RANGE_TARGET,
    RANGE_WIDTH, SIZES, STEP_WIDTH, SWITCH_WIDTH,
};

// Word `i` of an image, 0 past its end.
// Kept: `get` of scratch reads lent words in the same way. A contract names the definition of its own words, and nothing else of that crate
// is of use here.
pub fn word_of(image: &[u32], i: usize) -> u32
    ensures { result ≡ words.word image.now i }
{
    image.get(i).copied().unwrap_or(0)
}

// Where a chain starts, as its record's first word says.
#[derive(Clone, Copy)]
pub enum RootKind {
    Local,
    Named,
    This,
    Temporary,
}

impl RootKind {
    #[tactic(auto, unfolding(crate::specs::Kinds::root_of))]
    // None where the word is no kind.
    // Kept: an Option and no TryFrom. Of a word that is no kind there is nothing more to say, so the error would be an empty type.
    pub fn of(kind: u32) -> Option<RootKind>
        ensures { result ≡ kinds.root_of kind }
    {
        match kind {
            0 => Some(RootKind::Local),
            1 => Some(RootKind::Named),
            2 => Some(RootKind::This),
            3 => Some(RootKind::Temporary),
            _ => None,
        }
    }
}

// What a step does, as its record's first word says.
#[derive(Clone, Copy)]
pub enum StepKind {
    Index,
    Property,
    Method,
}

impl StepKind {
    #[tactic(auto, unfolding(crate::specs::Kinds::step_of))]
    // None where the word is no kind.
    // Kept: as `RootKind::of`, an Option and no TryFrom.
    pub fn of(kind: u32) -> Option<StepKind>
        ensures { result ≡ kinds.step_of kind }
    {
        match kind {
            0 => Some(StepKind::Index),
            1 => Some(StepKind::Property),
            2 => Some(StepKind::Method),
            _ => None,
        }
    }
}

// The two pools of rows: a table's rows are a part of one of them.
#[derive(Clone, Copy)]
pub enum Rows {
    Cases,
    Ranges,
}

// The pool that a table's first word names.
impl From<u32> for Rows {
    ghost use Rattle.std.specs.Prelude.{◌≡◌};
    ghost use Rattle.image_read.specs.Pools.{rows_of};

    ghost from_gives = { λ k r. r ≡ rows_of k };

    #[tactic(auto, unfolding(crate::specs::Pools::rows_of))]
    fn from(kind: u32) -> Rows {
        if kind == 0 { Rows::Cases } else { Rows::Ranges }
    }
}

impl Rows {
    #[tactic(auto, unfolding(crate::specs::Pools::kind_of, crate::specs::Targets::targets_at))]
    // Where the target of the pool's first row stands.
    pub fn targets_at(self, image: &Image) -> usize
        ensures at { result ≡ targets.targets_at image.now.words.now (pools.kind_of self) }
        ensures small { result ≤ most.targets_most }
    {
        match self {
            Rows::Cases => image.starts.cases,
            Rows::Ranges => image.starts.ranges + RANGE_TARGET,
        }
    }

    #[tactic(auto, unfolding(crate::specs::Pools::kind_of, crate::specs::Targets::apart))]
    // How many words lie from one row's target to the next one's.
    pub fn apart(self) -> usize
        ensures value { result ≡ targets.apart (pools.kind_of self) }
        ensures small { result ≤ range_width }
    {
        match self {
            Rows::Cases => CASE_WIDTH,
            Rows::Ranges => RANGE_WIDTH,
        }
    }

    #[tactic(auto, unfolding(crate::specs::Pools::kind_of, crate::specs::Pools::rows_before))]
    // How many rows stand before the pool's own, where the `n` cases come first.
    pub fn rows_before(self, n: u32) -> u32
        ensures value { result ≡ pools.rows_before (pools.kind_of self) n }
        ensures small { result ≤ n }
    {
        match self {
            Rows::Cases => 0,
            Rows::Ranges => n,
        }
    }
}

// How many records each section has.
// Kept: two structs, this and `Starts`, and not a count and a start for each section. All sizes are read before any start is known, the
// code has no start beside its size, and `SizesOf` and `Placed` speak of one struct each.
#[derive(Clone, Copy)]
pub struct Sizes {
    pub places: u32,
    pub consts: u32,
    pub names: u32,
    pub tokens: u32,
    pub residuals: u32,
    pub chains: u32,
    pub steps: u32,
    pub tables: u32,
    pub cases: u32,
    pub ranges: u32,
}

fn sizes_of(image: &[u32]) -> Sizes
    ensures { SizesOf image.now result }
{
    Sizes {
        places: word_of(image, 0),
        consts: word_of(image, 1),
        names: word_of(image, 2),
        tokens: word_of(image, 3),
        residuals: word_of(image, 4),
        chains: word_of(image, 5),
        steps: word_of(image, 6),
        tables: word_of(image, 7),
        cases: word_of(image, 8),
        ranges: word_of(image, 9),
    }
}

// Where the sections behind the code start.
#[derive(Clone, Copy)]
pub struct Starts {
    pub consts: usize,
    pub names: usize,
    pub tokens: usize,
    pub residuals: usize,
    pub chains: usize,
    pub steps: usize,
    pub tables: usize,
    pub cases: usize,
    pub ranges: usize,
}

// Each section is behind the one before it.
fn starts_of(sizes: Sizes) -> Starts
    ensures placed { (w : List ℕ) → SizesOf w sizes → Placed w result }
    ensures near { Near result }
{
    let consts = SIZES + CODE_WIDTH * (sizes.places as usize);
    let names = consts + CONST_WIDTH * (sizes.consts as usize);
    let tokens = names + NAME_WIDTH * (sizes.names as usize);
    let residuals = tokens + (sizes.tokens as usize);
    let chains = residuals + (sizes.residuals as usize);
    let steps = chains + CHAIN_WIDTH * (sizes.chains as usize);
    let tables = steps + STEP_WIDTH * (sizes.steps as usize);
    let cases = tables + SWITCH_WIDTH * (sizes.tables as usize);
    let ranges = cases + CASE_WIDTH * (sizes.cases as usize);
    Starts {
        consts,
        names,
        tokens,
        residuals,
        chains,
        steps,
        tables,
        cases,
        ranges,
    }
}

// An image with what its sizes say, read once. A word past the end is 0.
#[derive(Clone, Copy)]
pub struct Image<'a> {
    pub words: &'a [u32],
    pub sizes: Sizes,
    pub starts: Starts,
    ghost sized: { SizesOf words.now sizes },
    ghost placed: { Placed words.now starts },
    ghost near: { Near starts },
}

impl<'a> Image<'a> {
    pub fn of(words: &'a [u32]) -> Image<'a>
        ensures { result.words.now ≡ words.now }
    {
        let sizes = sizes_of(words);
        let starts = starts_of(sizes);
        Image {
            words,
            sizes,
            starts,
        }
    }

    // Where the last section ends.
    pub fn end(&self) -> usize
        ensures at { result ≡ rules.end_at self.now.words.now }
        ensures small { result ≤ most.end_most }
    {
        self.starts.ranges + RANGE_WIDTH * (self.sizes.ranges as usize)
    }

    #[tactic(auto, unfolding(crate::specs::Pools::kind_of, image_rule::specs::Rules::rows_there))]
    // How many rows a pool has.
    pub fn rows_there(&self, pool: Rows) -> u32
        ensures { result ≡ rules.rows_there self.now.words.now (pools.kind_of pool) }
    {
        match pool {
            Rows::Cases => self.sizes.cases,
            Rows::Ranges => self.sizes.ranges,
        }
    }

    // The target of row `j` of a pool.
    pub fn target_at(&self, pool: Rows, j: u32) -> u32
        ensures { result ≡ targets.target_of self.now.words.now (pools.kind_of pool) j }
    {
        word_of(
            self.words,
            pool.targets_at(self) + pool.apart() * (j as usize),
        )
    }

    // The mark of table `i` stands behind those of the places and of the end.
    pub fn table_node(&self, i: u32) -> usize
        ensures value { result ≡ marks.table_node self.now.words.now i }
        ensures small { result ≤ 8589934592 }
    {
        (self.sizes.places as usize) + 1 + (i as usize)
    }

    // How many marks there are.
    pub fn marks_there(&self) -> usize
        ensures value { result ≡ marks.marks_there self.now.words.now }
        ensures small { result ≤ 8589934592 }
    {
        self.table_node(self.sizes.tables)
    }

    // The words of the instruction at `p`.
    // Kept: a function for each, here and below. They are one call of `word_of` under the name that the definition has; one function of a
    // section, or of a word's place, would have to be told apart again in each contract that names a definition.
    pub fn kind_at(&self, p: u32) -> u32
        ensures { result ≡ words.kind_at self.now.words.now p }
    {
        word_of(self.words, SIZES + OP_WIDTH * (p as usize))
    }

    pub fn a_at(&self, p: u32) -> u32
        ensures { result ≡ words.a_at self.now.words.now p }
    {
        word_of(self.words, SIZES + OP_WIDTH * (p as usize) + 1)
    }

    pub fn b_at(&self, p: u32) -> u32
        ensures { result ≡ words.b_at self.now.words.now p }
    {
        word_of(self.words, SIZES + OP_WIDTH * (p as usize) + 2)
    }

    pub fn c_at(&self, p: u32) -> u32
        ensures { result ≡ c_at self.now.words.now p }
    {
        word_of(self.words, SIZES + OP_WIDTH * (p as usize) + 3)
    }

    // Word `f` of record `i` of a section, where `f` is the word's place in its record, from 0 on; so in each.
    pub fn const_word(&self, i: u32, f: u32) -> u32
        ensures { result ≡ words.const_word self.now.words.now i f }
    {
        word_of(
            self.words,
            self.starts.consts + CONST_WIDTH * (i as usize) + (f as usize),
        )
    }

    pub fn name_word(&self, i: u32, f: u32) -> u32
        ensures { result ≡ name_word self.now.words.now i f }
    {
        word_of(
            self.words,
            self.starts.names + NAME_WIDTH * (i as usize) + (f as usize),
        )
    }

    pub fn token(&self, i: u32) -> u32
        ensures { result ≡ token self.now.words.now i }
    {
        word_of(self.words, self.starts.tokens + (i as usize))
    }

    pub fn residual(&self, i: u32) -> u32
        ensures { result ≡ residual self.now.words.now i }
    {
        word_of(self.words, self.starts.residuals + (i as usize))
    }

    pub fn chain_word(&self, i: u32, f: u32) -> u32
        ensures { result ≡ words.chain_word self.now.words.now i f }
    {
        word_of(
            self.words,
            self.starts.chains + CHAIN_WIDTH * (i as usize) + (f as usize),
        )
    }

    pub fn step_word(&self, i: u32, f: u32) -> u32
        ensures { result ≡ rules.step_word self.now.words.now i f }
    {
        word_of(
            self.words,
            self.starts.steps + STEP_WIDTH * (i as usize) + (f as usize),
        )
    }

    pub fn table_word(&self, i: u32, f: u32) -> u32
        ensures { result ≡ words.switch_word self.now.words.now i f }
    {
        word_of(
            self.words,
            self.starts.tables + SWITCH_WIDTH * (i as usize) + (f as usize),
        )
    }

    pub fn case_word(&self, i: u32, f: u32) -> u32
        ensures { result ≡ words.case_word self.now.words.now i f }
    {
        word_of(
            self.words,
            self.starts.cases + CASE_WIDTH * (i as usize) + (f as usize),
        )
    }

    pub fn range_word(&self, i: u32, f: u32) -> u32
        ensures { result ≡ words.range_word self.now.words.now i f }
    {
        word_of(
            self.words,
            self.starts.ranges + RANGE_WIDTH * (i as usize) + (f as usize),
        )
    }
}
