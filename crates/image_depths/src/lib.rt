// The depth at each place of an image, found in one pass over its code in the lent scratch, and checked in a second one.
#![tactic(auto)]

ghost use Rattle.std.specs.Prelude.{◌≡◌, ◌+◌, ◌-◌, ◌<◌, ◌≤◌, length, ℕ};
ghost use Rattle.bytecode.specs.Coded.{count_of};
ghost use Rattle.bytecode.specs.Effect.{popped};
ghost use Rattle.lowering.specs.Words as words;
ghost use Rattle.lowering.specs.Run as runs;
ghost use Rattle.image_rule.specs.Marks as marks;
ghost use Rattle.image_rule.proofs.Right.{TablesNamed};
ghost use Rattle.image_rows.specs.AllRows.{Pooled};
ghost use Rattle.image_rows.specs.Scratch.{Does, Runs};
ghost use Rattle.image_depths.specs.Checked.{Checked, RowsPooled};
ghost use Rattle.image_depths.specs.Passing.{Read, Ways, PooledAt, Passed, MarkedAll, taken, leads, places_right, tables_right};

use bytecode::{Flow, Top, effect_of};
use image_read::{Image, RootKind, word_of};
use image_rows::{come, come_table_rows, count_image_runs, table_rows_right};
use zeros::zero;

// An instruction: its word a, where it goes, and what it pushes, pops and needs to find.
// Kept: that it was read at a place of an image (`Read`) is a premise. As a ghost fact it would name image and place, which would then be
// fields of each.
#[derive(Clone, Copy)]
struct Code {
    pub a: u32,
    pub flow: Flow,
    pub pushes: u32,
    pub pops: u64,
    pub needs: u64,
}

// What a chain with `n` operands takes: one more where it starts from the stack.
#[tactic(auto, unfolding(crate::specs::Passing::taken))]
fn taken(root: Option<RootKind>, n: u32) -> u64
    ensures value { result ≡ taken root n }
    ensures small { result ≤ 4294967296 }
{
    match root {
        Some(RootKind::Temporary) => u64::from(n) + 1,
        Some(RootKind::Local) | Some(RootKind::Named) | Some(RootKind::This) | None => u64::from(n),
    }
}

// What chain `i` takes.
fn chain_takes(image: &Image, i: u32) -> u64
    ensures value { result ≡ runs.chain_takes image.now.words.now i }
    ensures small { result ≤ 4294967296 }
{
    taken(RootKind::of(image.chain_word(i, 0)), image.chain_word(i, 5))
}

// The count that is popped on top; the chain is looked at only where it counts.
fn on_top(image: &Image, top: Top, a: u32, b: u32) -> u64
    ensures value { result ≡ popped (count_of top) a b (runs.chain_takes image.now.words.now a) }
    ensures small { result ≤ 4294967296 }
{
    match top {
        Top::Operands => chain_takes(image, a),
        Top::Nothing | Top::Argc | Top::RefArgc | Top::PopsA | Top::NeedsA => top.popped(a, b, 0),
    }
}

// The instruction at `p`.
fn code_at(image: &Image, p: u32) -> Code
    ensures { Read image.now.words.now p result }
{
    let kind = image.kind_at(p);
    let a = image.a_at(p);
    let b = image.b_at(p);
    let effect = effect_of(kind);
    let top = on_top(image, effect.top, a, b);
    let pops = (effect.pops as u64) + top;
    let needs = pops + (effect.keeps as u64) + (effect.top.kept(a) as u64);
    Code {
        a,
        flow: effect.flow,
        pushes: effect.pushes,
        pops,
        needs,
    }
}

// The depth behind an instruction.
// Kept: `after` of scratch_store finds the pops from the words that are written. Here they are found before, once for this and for `needs`.
fn after(c: Code, d: u32) -> u64
    ensures value { result ≡ d - c.pops + c.pushes }
    ensures small { result ≤ 8589934592 }
{
    u64::from(d).saturating_sub(c.pops) + u64::from(c.pushes)
}

// Where the two ways from `p` take a mark, the same place twice where there is one: a Switch hands it to its table.
// Kept: two places always. A test that leaves out the second step where it is the first one was timed, and no image is checked faster;
// with an Option for the second place each of the two uses would be such a test.
fn ways(image: &Image, c: Code, p: u32) -> (usize, usize)
    ensures { let image = image.now.words.now in (Read image p c → Ways image p result.0 result.1) }
{
    let next = (p as usize) + 1;
    let to = c.a as usize;
    match c.flow {
        Flow::Table => (image.table_node(c.a), image.table_node(c.a)),
        Flow::Branch => (next, to),
        Flow::Jump => (to, to),
        Flow::On => (next, next),
    }
}

// If no mark has come to table `i` before, its rows and its default are come to.
// Kept: marks and rows apart, here and below, as in image_rows. That rows lie in their pools (`Pooled`) and are counted (`Runs`) are
// premises: no code knows the first, and a slice does not say the second.
// Kept: that a mark is not 0 is a premise, here, below and in `come_table_rows`. `come` writes it as a word and asks for nothing, so a
// `NonZeroU32` would be unmade at each of its calls, and be made of a sum in `pass`, with an arm that never comes.
fn enter(image: &Image, m: u32, found: &mut [u32], rows: &mut [u32], i: u32)
    ensures { let image = image.now.words.now in
        (Pooled image i → 0 < m → Does image (marks.enter image i m) found.old rows.old found.new rows.new) }
{
    if word_of(found, image.table_node(i)) != 0 {
        return;
    }
    come_table_rows(image, m, found, rows, i);
    come(m, found, image.table_word(i, 3) as usize);
}

// A Switch opens its table, any other instruction none.
fn open_table(image: &Image, c: Code, m: u32, found: &mut [u32], rows: &mut [u32])
    ensures { let image = image.now.words.now in
        ((p : ℕ)
        → Read image p c
        → PooledAt image p
        → 0 < m
        → Does image (marks.opened (marks.flow_at image p) image p m) found.old rows.old found.new rows.new) }
{
    match c.flow {
        Flow::Table => enter(image, m, found, rows, c.a),
        Flow::Branch | Flow::Jump | Flow::On => {}
    }
}

// Place `p` hands on the mark `m`.
fn hand_on(image: &Image, c: Code, p: u32, m: u32, found: &mut [u32], rows: &mut [u32])
    ensures { let image = image.now.words.now in
        let change = marks.hand_on (marks.flow_at image p) image p m in
        (Read image p c → PooledAt image p → 0 < m → Does image change found.old rows.old found.new rows.new) }
{
    open_table(image, c, m, found, rows);
    let (x, y) = ways(image, c, p);
    come(m, found, x);
    come(m, found, y);
}

// Place `p` hands on its mark; false where the mark to hand on has no room in a word.
// Kept: a mark is the depth and 1, or 0 for none, here and below: so the rule has it, and one word of the scratch holds it.
fn pass(image: &Image, p: u32, found: &mut [u32], rows: &mut [u32]) -> bool
    ensures { let image = image.now.words.now in
        (PooledAt image p → Passed image p found.old rows.old found.new rows.new result) }
{
    let m = word_of(found, p as usize);
    if m == 0 {
        return true;
    }
    let c = code_at(image, p);
    let Ok(n) = u32::try_from(after(c, m - 1) + 1) else {
        return false;
    };
    hand_on(image, c, p, n, found, rows);
    true
}

// The marks of the whole code.
// Kept: a loop, and no `all`. Tried: the closure would hold `found` and `rows` by `&mut`, and nothing is known of what they are behind
// `all`. An `Option<()>` of `pass` with `?` would be unmade in `depths_right`, whose answer is a bool.
fn mark_all(image: &Image, found: &mut [u32], rows: &mut [u32]) -> bool
    ensures { let image = image.now.words.now in
        (TablesNamed image
        → RowsPooled image
        → length found.old ≡ marks.marks_there image
        → MarkedAll image found.new result) }
{
    zero(found);
    zero(rows);
    come(1, found, 0);
    for p in 0..image.sizes.places {
        if !pass(image, p, found, rows) {
            return false;
        }
    }
    true
}

// Each way from `p` leads to the mark `m`.
fn leads(image: &Image, c: Code, found: &[u32], p: u32, m: u64) -> bool
    ensures { let image = image.now.words.now in
        (Read image p c → result ≡ leads (marks.flow_at image p) image found.now p m) }
{
    let (x, y) = ways(image, c, p);
    (u64::from(word_of(found, x)) == m) & (u64::from(word_of(found, y)) == m)
}

// Place `p` finds what it needs, and leads to its own mark.
fn place_right(image: &Image, found: &[u32], p: u32) -> bool
    ensures { let found = found.now in result ≡ marks.place_by (marks.mark found p) image.now.words.now found p }
{
    let m = word_of(found, p as usize);
    if m == 0 {
        return true;
    }
    let c = code_at(image, p);
    let n = after(c, m - 1) + 1;
    (c.needs <= u64::from(m - 1)) & leads(image, c, found, p, n)
}

// All places are right.
// Kept: one call of `all`, here and in `tables_right`; a function over the test would be that call under another name.
fn places_right(image: &Image, found: &[u32]) -> bool
    ensures { result ≡ places_right image.now.words.now found.now }
{
    (0..image.sizes.places).all(|p| place_right(image, found, p))
}

// The rows and the default of table `i` have its mark.
fn table_right(image: &Image, found: &[u32], rows: &[u32], i: u32) -> bool
    ensures { let image = image.now.words.now in
        let found = found.now in
        let right = marks.table_by (marks.mark found (marks.table_node image i)) image found i in
        (Pooled image i → Runs image found rows.now → result ≡ right) }
{
    let m = word_of(found, image.table_node(i));
    if m == 0 {
        return true;
    }
    let right = table_rows_right(image, found, rows, i, m);
    right & (word_of(found, image.table_word(i, 3) as usize) == m)
}

// All tables are right.
fn tables_right(image: &Image, found: &[u32], rows: &[u32]) -> bool
    ensures { let image = image.now.words.now in
        (RowsPooled image → Runs image found.now rows.now → result ≡ tables_right image found.now) }
{
    (0..image.sizes.tables).all(|i| table_right(image, found, rows, i))
}

// The greatest of the marks 0 to `n`.
// Kept: the number beside the slice, which has the marks of the tables too, behind those of the places.
fn most(found: &[u32], n: u32) -> u32
    ensures { result ≡ marks.most found.now n }
{
    found
        .iter()
        .take((n as usize) + 1)
        .copied()
        .max()
        .unwrap_or(0)
}

// The marks agree everywhere, one value remains, and the reported depth is the greatest.
fn marks_right(image: &Image, found: &[u32], rows: &[u32]) -> bool
    ensures { let image = image.now.words.now in
        (RowsPooled image → Runs image found.now rows.now → result ≡ marks.marks_right image found.now) }
{
    let n = image.sizes.places;
    let d = u64::from(word_of(image.words, 11)) + 1;
    places_right(image, found)
        & tables_right(image, found, rows)
        & (word_of(found, n as usize) == 2)
        & (u64::from(most(found, n)) == d)
}

// Whether runs agree on the depth at each place, find what they need, end with one value, and reach the depth that the image reports.
// What the scratch holds in the end is not said.
pub fn depths_right(image: &[u32], scratch: &mut [u32]) -> bool
    ensures { let image = image.now in
        let marked = marks.marked image (marks.marks_there image) (words.instructions image) in
        (Checked image → length scratch.old ≡ length image → result ≡ marks.marks_right image marked) }
{
    let image = Image::of(image);
    let there = image.marks_there();
    let Some((found, rows)) = scratch.split_at_mut_checked(there) else {
        return false;
    };
    if !mark_all(&image, found, rows) {
        return false;
    }
    count_image_runs(&image, found, rows);
    marks_right(&image, found, rows)
}
