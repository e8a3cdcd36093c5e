// The words of every record of an image: kinds, flags, counts, unused words, and indexes into its pools and its sheet. Each section is
// gone through once. What the steps of a chain ask of its operands is left out.
#![tactic(auto)]

ghost use Rattle.std.specs.Prelude.{◌≡◌};
ghost use Rattle.words.specs.Count.{all_below};
ghost use Rattle.sheet.specs.Sections.{text_count, local_count, node_count};
ghost use Rattle.image_fields.specs.Fields as fields;
ghost use Rattle.image_fields.specs.Records as records;

use check_shape::scalar;
use image_read::{Image, RootKind, Rows, StepKind};
use lowering::{CASE_WIDTH, MAX_ARGS, MAX_ELEMENTS, RANGE_TARGET, RANGE_WIDTH};
use sheet::kinds::{CHAR, FLOAT, INT, STRING};
use sheet::{local_count, node_count, text_count};

// Greatest token.
const MAX_TOKEN: u32 = 65535;

// One more than any word.
const ANY: u64 = 0x1_0000_0000;

// Kinds of instructions whose b and c may be used.
// Kept: words and no enum. A kind is a word that a stranger sends, by which the bound of a is looked up; only these three are named.
const CALL: u32 = 12;

const CALL_REF: u32 = 13;

const CALL_FN_PTR: u32 = 17;

// For the kinds 0 to 24: what a must be below. Kind 0 is none.
// Kept: an array and no match. It has the same line for each kind, is made once for an image, and is one load for each instruction.
fn code_bounds(sheet: &[u8], image: &Image) -> [u64; 25]
    ensures { result ≡ fields.code_bounds sheet.now image.now.words.now }
{
    let names = u64::from(image.sizes.names);
    let args = MAX_ARGS as u64 + 1;
    let elements = MAX_ELEMENTS as u64 + 1;
    [
        0,
        u64::from(image.sizes.consts), // Const
        1, // Unit
        2, // Bool
        u64::from(local_count(sheet)), // LoadLocal
        names, // LoadNamed
        1, // LoadThis
        1, // Pop
        ANY, // Jump
        ANY, // JumpIfTrue
        ANY, // JumpIfFalse
        ANY, // SkipIfNotUnit
        names, // Call
        names, // CallRef
        args, // Rotate
        u64::from(image.sizes.tables), // Switch
        1, // MakeFnPtr
        args, // CallFnPtr
        1, // InterpolateStart
        1, // InterpolateAppend
        1, // InterpolateEnd
        elements, // MakeArray
        elements, // CheckSize
        u64::from(image.sizes.chains), // Chain
        u64::from(image.sizes.residuals), // EvalAst
    ]
}

// Int, Float: any 64 bits; Char; String.
fn const_fits(texts: u32, kind: u32, a: u32, b: u32) -> bool
    ensures { result ≡ fields.const_fits texts kind a b }
{
    let char = (kind == CHAR) & scalar(a) & (b == 0);
    let string = (kind == STRING) & (a < texts) & (b == 0);
    (kind == INT) | (kind == FLOAT) | char | string
}

// A run of `count` from `first` on lies among `n`.
fn run_fits(first: u32, count: u32, n: u32) -> bool
    ensures { result ≡ fields.run_fits first count n }
{
    (first as u64) + (count as u64) <= (n as u64)
}

// Local: slot and name; Named: name and position; This: 0 and position; Temporary: 0 and 0.
#[tactic(auto, unfolding(crate::specs::Fields::root_fits))]
fn root_fits(locals: u32, names: u32, root: Option<RootKind>, x: u32, y: u32) -> bool
    ensures { result ≡ fields.root_fits locals names root x y }
{
    match root {
        Some(RootKind::Local) => (x < locals) & (y < names),
        Some(RootKind::Named) => x < names,
        Some(RootKind::This) => x == 0,
        Some(RootKind::Temporary) => (x == 0) & (y == 0),
        None => false,
    }
}

// Index: operand, flags, two positions, 0; property: three names, flags, position; method: name, argc, operand, flags, position.
#[tactic(auto, unfolding(crate::specs::Fields::step_fits))]
fn step_fits(names: u32, kind: Option<StepKind>, a: u32, b: u32, c: u32, d: u32, e: u32) -> bool
    ensures { result ≡ fields.step_fits names kind a b c d e }
{
    match kind {
        Some(StepKind::Index) => (b <= 1) & (e == 0),
        Some(StepKind::Property) => (a < names) & (b < names) & (c < names) & (d <= 1),
        Some(StepKind::Method) => (a < names) & (b <= MAX_ARGS) & (d <= 1),
        None => false,
    }
}

// An image beside its sheet, with what is asked of the sheet and the bounds of a by kind, read once.
#[derive(Drop)]
struct Pair<'a> {
    sheet: &'a [u8],
    image: Image<'a>,
    texts: u32,
    locals: u32,
    nodes: u32,
    bounds: [u64; 25],
    ghost texted: { texts ≡ text_count sheet.now },
    ghost local: { locals ≡ local_count sheet.now },
    ghost noded: { nodes ≡ node_count sheet.now },
    ghost bounded: { bounds ≡ fields.code_bounds sheet.now image.words.now },
}

impl<'a> Pair<'a> {
    fn of(sheet: &'a [u8], image: &'a [u32]) -> Pair<'a>
        ensures sheet { result.sheet.now ≡ sheet.now }
        ensures image { result.image.words.now ≡ image.now }
    {
        let image = Image::of(image);
        let bounds = code_bounds(sheet, &image);
        let texts = text_count(sheet);
        let locals = local_count(sheet);
        let nodes = node_count(sheet);
        Pair {
            sheet,
            image,
            texts,
            locals,
            nodes,
            bounds,
        }
    }

    // A CallRef has an argument, and its c is what LoadLocal, LoadNamed or LoadThis (kinds 4 to 6) may have as a.
    // Kept: the receiver is a number, which is added to kind 4. Each variant of an enum would be turned back into that number.
    fn ref_fits(&self, b: u32, c: u32) -> bool
        ensures { result ≡ fields.ref_fits self.now.bounds b c }
    {
        let receiver = b / 256;
        if 2 < receiver {
            return false;
        }
        let below = self.bounds[4 + (receiver as usize)];
        (1 <= b % 256) & (u64::from(c) < below)
    }

    // Words b and c of an instruction.
    fn rest_fits(&self, kind: u32, b: u32, c: u32) -> bool
        ensures { result ≡ fields.rest_fits self.now.bounds self.now.image.sizes.tokens kind b c }
    {
        if kind == CALL {
            return (b / 256 < 2) & (c <= self.image.sizes.tokens);
        }
        if kind == CALL_REF {
            return self.ref_fits(b, c);
        }
        if kind == CALL_FN_PTR {
            return (b <= 1) & (c == 0);
        }
        (b == 0) & (c == 0)
    }

    // An instruction of a known kind whose word `a` is below its kind's bound, and whose other two words are right.
    fn code_fits(&self, kind: u32, a: u32, b: u32, c: u32) -> bool
        ensures { result ≡ fields.code_fits self.now.bounds self.now.image.sizes.tokens kind a b c }
    {
        if 24 < kind {
            return false;
        }
        let below = self.bounds[kind as usize];
        (u64::from(a) < below) & self.rest_fits(kind, b, c)
    }

    // Whether record `i` of a section obeys its rules: one test for each section.
    fn instruction_right(&self, p: u32) -> bool
        ensures { result ≡ records.instruction_right self.now.sheet.now self.now.image.words.now p }
    {
        let image = &self.image;
        self.code_fits(
            image.kind_at(p),
            image.a_at(p),
            image.b_at(p),
            image.c_at(p),
        )
    }

    fn const_right(&self, i: u32) -> bool
        ensures { result ≡ records.const_right self.now.sheet.now self.now.image.words.now i }
    {
        let image = &self.image;
        const_fits(
            self.texts,
            image.const_word(i, 0),
            image.const_word(i, 1),
            image.const_word(i, 2),
        )
    }

    fn name_right(&self, i: u32) -> bool
        ensures { result ≡ records.name_right self.now.sheet.now self.now.image.words.now i }
    {
        (self.image.name_word(i, 0) < self.texts)
            & (self.image.name_word(i, 1) <= 1)
            & (self.image.name_word(i, 2) <= self.texts)
    }

    fn token_right(&self, i: u32) -> bool
        ensures { result ≡ records.token_right self.now.image.words.now i }
    {
        let token = self.image.token(i);
        (1 <= token) & (token <= MAX_TOKEN)
    }

    fn residual_right(&self, i: u32) -> bool
        ensures { result ≡ records.residual_right self.now.sheet.now self.now.image.words.now i }
    {
        self.image.residual(i) < self.nodes
    }

    fn chain_right(&self, i: u32) -> bool
        ensures { result ≡ records.chain_right self.now.sheet.now self.now.image.words.now i }
    {
        let image = &self.image;
        let kind = RootKind::of(image.chain_word(i, 0));
        let x = image.chain_word(i, 1);
        let y = image.chain_word(i, 2);
        let root = root_fits(self.locals, image.sizes.names, kind, x, y);
        let run = run_fits(
            image.chain_word(i, 3),
            image.chain_word(i, 4),
            image.sizes.steps,
        );
        root & run & (image.chain_word(i, 5) <= MAX_ELEMENTS)
    }

    fn step_right(&self, i: u32) -> bool
        ensures { result ≡ records.step_right self.now.image.words.now i }
    {
        let image = &self.image;
        step_fits(
            image.sizes.names,
            StepKind::of(image.step_word(i, 0)),
            image.step_word(i, 1),
            image.step_word(i, 2),
            image.step_word(i, 3),
            image.step_word(i, 4),
            image.step_word(i, 5),
        )
    }

    // A table's rows are a run of the cases (kind 0) or of the ranges (kind 1).
    // Kept: `kind <= 1` beside `Rows::from`, which answers for every word, as the definition of `rows_there` does. Behind this test all
    // others ask `Rows` alone.
    fn table_right(&self, i: u32) -> bool
        ensures { result ≡ records.table_right self.now.image.words.now i }
    {
        let image = &self.image;
        let kind = image.table_word(i, 0);
        let from = image.table_word(i, 1);
        let rows = image.table_word(i, 2);
        let run = run_fits(from, rows, image.rows_there(Rows::from(kind)));
        (kind <= 1) & run & (image.table_word(i, 3) <= image.sizes.places)
    }

    fn case_right(&self, i: u32) -> bool
        ensures { result ≡ records.case_right self.now.image.words.now i }
    {
        let image = &self.image;
        (image.case_word(i, 0) <= image.sizes.places) & (image.case_word(i, 1) < image.sizes.consts)
    }

    fn range_right(&self, i: u32) -> bool
        ensures { result ≡ records.range_right self.now.image.words.now i }
    {
        let image = &self.image;
        (image.range_word(i, 4) <= 1)
            & (image.range_word(i, RANGE_TARGET as u32) <= image.sizes.places)
    }

    // All cases are right, and all ranges. Where the image has them, they are cut out of it before the loop, which then asks of no word
    // whether it is there.
    fn cases_right(&self) -> bool
        ensures { let image = self.now.image in result ≡ all_below image.sizes.cases (records.case_right image.words.now) }
    {
        let n = self.image.sizes.cases;
        let at = self.image.starts.cases;
        let places = self.image.sizes.places;
        let consts = self.image.sizes.consts;
        match self.image.words.get(at..at + CASE_WIDTH * (n as usize)) {
            Some(rows) => rows
                .as_chunks::<CASE_WIDTH>()
                .0
                .iter()
                .all(|row| (row[0] <= places) & (row[1] < consts)),
            None => (0..n).all(|i| self.case_right(i)),
        }
    }

    fn ranges_right(&self) -> bool
        ensures { let image = self.now.image in result ≡ all_below image.sizes.ranges (records.range_right image.words.now) }
    {
        let n = self.image.sizes.ranges;
        let at = self.image.starts.ranges;
        let places = self.image.sizes.places;
        match self.image.words.get(at..at + RANGE_WIDTH * (n as usize)) {
            Some(rows) => rows
                .as_chunks::<RANGE_WIDTH>()
                .0
                .iter()
                .all(|row| (row[4] <= 1) & (row[RANGE_TARGET] <= places)),
            None => (0..n).all(|i| self.range_right(i)),
        }
    }
}

// Every word of every record is right, but for what steps ask of their chain's operands.
pub fn fields_right(sheet: &[u8], image: &[u32]) -> bool
    ensures { result ≡ fields.fields_right sheet.now image.now }
{
    let pair = Pair::of(sheet, image);
    let sizes = pair.image.sizes;
    (0..sizes.places).all(|p| pair.instruction_right(p))
        & (0..sizes.consts).all(|i| pair.const_right(i))
        & (0..sizes.names).all(|i| pair.name_right(i))
        & (0..sizes.tokens).all(|i| pair.token_right(i))
        & (0..sizes.residuals).all(|i| pair.residual_right(i))
        & (0..sizes.chains).all(|i| pair.chain_right(i))
        & (0..sizes.steps).all(|i| pair.step_right(i))
        & (0..sizes.tables).all(|i| pair.table_right(i))
        & pair.cases_right()
        & pair.ranges_right()
}
