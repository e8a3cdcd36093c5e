// Two tests of an image that many records ask of the same words: operands of steps that chains share, and targets of rows that tables and
// Switches share. A tree over the words in the lent scratch answers each record, so that the cost stays near the image's length.
#![tactic(auto)]

ghost use Rattle.std.specs.Prelude.{◌≡◌, ◌+◌, ◌*◌, ◌/◌, ◌≤◌, ◌<◌, leb, ltb, length};
ghost use Rattle.words.specs.Count.{all_below};
ghost use Rattle.lowering.specs.Words as words;
ghost use Rattle.image_rule.specs.Rules as rules;
ghost use Rattle.image_rule.specs.Marks as marks;
ghost use Rattle.image_rule.specs.Test as test;
ghost use Rattle.image_maxima.specs.Tree.{Tree, leaf};
ghost use Rattle.image_spans.specs.Premises.{Sized, ChainsLie, RowsLie};
ghost use Rattle.image_read.specs.Pools.{kind_of};
ghost use Rattle.image_spans.specs.Needs.{need_of, NeedsIn, NeedTree};
ghost use Rattle.image_spans.specs.Leaves.{Put, TargetTree};

use bytecode::{Flow, effect_of};
use image_maxima::{all_at_most, build};
use image_read::{Image, Rows, StepKind};
use lowering::MAX_ELEMENTS;

// More operands than any chain has.
const TOO_MANY: u32 = MAX_ELEMENTS + 1;

#[tactic(auto, unfolding(crate::specs::Needs::need_of))]
// How many operands a step with these words needs its chain to have; so many that no chain has them count as one more than the most.
fn need(kind: Option<StepKind>, a: u32, b: u32, c: u32) -> u32
    ensures { result ≡ need_of kind a b c }
{
    match kind {
        Some(StepKind::Index) => a.saturating_add(1).min(TOO_MANY),
        Some(StepKind::Method) => b.saturating_add(c).min(TOO_MANY),
        Some(StepKind::Property) | None => 0,
    }
}

// The needs of all steps, as leaves of a tree.
fn put_needs(image: &Image, t: &mut [u32])
    requires { 2 * rules.steps image.now.words.now ≤ length t.old }
    ensures { let image = image.now.words.now in NeedsIn image t.new (rules.steps image) }
{
    let n = image.sizes.steps as usize;
    // Kept: by number, here and in `put_targets`: a step and a row are read from the image by a u32, and `enumerate` gives a usize, which
    // would be made that again at each of the reads. Tried, `t[n..].iter_mut().zip(..)` with the numbers: an invariant then has the
    // iterator and not the words that are put, as at `copy` of write_sections.
    for j in 0..image.sizes.steps {
        t[n + j as usize] = need(
            StepKind::of(image.step_word(j, 0)),
            image.step_word(j, 1),
            image.step_word(j, 2),
            image.step_word(j, 3),
        );
    }
}

// Kept: here and below, image and tree go beside each other, and that the tree is the image's (`NeedTree`, `TargetTree`) is a premise. It
// holds where that of the entry point does (`Sized`, `ChainsLie`, `RowsLie`), of which no code knows, so no value can bring it along.
// Whether `count` leaves from `first` on are at most `x`.
fn run_fits(t: &[u32], first: u32, count: u32, x: u32) -> bool
    ensures { let tree = t.now in
        let size = length tree / 2 in
        (Tree tree size → first + count ≤ size → result ≡ all_below count (λ k. leb (leaf tree size (first + k)) x)) }
{
    let a = first as usize;
    all_at_most(t, a, a + count as usize, x)
}

// Whether chain `i` has the operands that its steps need, by the tree over the needs.
fn chain_fits(image: &Image, t: &[u32], i: u32) -> bool
    ensures { let image = image.now.words.now in
        (NeedTree image t.now → i < rules.chains image → result ≡ test.operands_by image i) }
{
    let first = image.chain_word(i, 3);
    let count = image.chain_word(i, 4);
    let operands = image.chain_word(i, 5);
    run_fits(t, first, count, operands)
}

// Whether all chains have.
// Kept: one call of `all`, here and in `code_aims`; a function over the test would be that call under another name.
fn chains_fit(image: &Image, t: &[u32]) -> bool
    ensures { let image = image.now.words.now in
        (NeedTree image t.now → result ≡ test.operands_right image) }
{
    (0..image.sizes.chains).all(|i| chain_fits(image, t, i))
}

// Whether each step of each chain has its operands in that chain.
// Kept: the frame of `targets_right` too. A function over it would take what is put and what is asked as closures, for two callers.
pub fn operands_right(image: &[u32], scratch: &mut [u32]) -> bool
    ensures { let image = image.now in
        (Sized image scratch.old → ChainsLie image → result ≡ test.operands_right image) }
{
    let image = Image::of(image);
    let n = 2 * (image.sizes.steps as usize);
    let Some(t) = scratch.get_mut(..n) else {
        return false;
    };
    put_needs(&image, t);
    build(t);
    chains_fit(&image, t)
}

// The targets of the first `n` rows of a pool, from `at` on.
fn put_targets(image: &Image, t: &mut [u32], pool: Rows, at: usize, n: u32)
    requires { at + n ≤ length t.old }
    ensures { Put image.now.words.now (kind_of pool) at n t.old t.new }
{
    for j in 0..n {
        t[at + j as usize] = u32::MAX - image.target_at(pool, j);
    }
}

// Whether all targets of table `i`, its default's too, are above `p`, by the tree over the targets.
// Kept: the first row is a sum of two lines, as in image_rows (`first_row`). What both share is `rows_before`;
// the leaves of the tree go by it.
fn table_aims(image: &Image, t: &[u32], p: u32, i: u32) -> bool
    ensures { let image = image.now.words.now in
        (TargetTree image t.now → p < 4294967295 → i < rules.tables image → result ≡ ltb p (test.least_target image i)) }
{
    if p == u32::MAX {
        return false;
    }
    let before = Rows::from(image.table_word(i, 0)).rows_before(image.sizes.cases);
    let first = (before as usize) + image.table_word(i, 1) as usize;
    let end = first + image.table_word(i, 2) as usize;
    (p < image.table_word(i, 3)) & all_at_most(t, first, end, u32::MAX - 1 - p)
}

// Whether the targets of the instruction at `p` go forward, and not past the code.
fn aims(image: &Image, t: &[u32], p: u32) -> bool
    ensures { let image = image.now.words.now in
        (TargetTree image t.now → p < words.instructions image → result ≡ test.aims (marks.flow_at image p) image p) }
{
    let places = image.sizes.places;
    let a = image.a_at(p);
    match effect_of(image.kind_at(p)).flow {
        Flow::On => true,
        Flow::Jump | Flow::Branch => (p < a) & (a <= places),
        Flow::Table => table_aims(image, t, p, a),
    }
}

// Whether those of all instructions do.
fn code_aims(image: &Image, t: &[u32]) -> bool
    ensures { let image = image.now.words.now in
        (TargetTree image t.now → result ≡ test.targets_right image) }
{
    (0..image.sizes.places).all(|p| aims(image, t, p))
}

// Whether all targets go forward, a table's from each Switch naming it, and those of instructions not past the code.
pub fn targets_right(image: &[u32], scratch: &mut [u32]) -> bool
    ensures { let image = image.now in
        (Sized image scratch.old → RowsLie image → result ≡ test.targets_right image) }
{
    let image = Image::of(image);
    let n = image.sizes.cases;
    let m = image.sizes.ranges;
    let size = n as usize + m as usize;
    let Some(t) = scratch.get_mut(..2 * size) else {
        return false;
    };
    put_targets(&image, t, Rows::Cases, size, n);
    put_targets(&image, t, Rows::Ranges, size + n as usize, m);
    build(t);
    code_aims(&image, t)
}
