// What a lowering answers, and the image of an expression. Refusals 1 to 11, and 14, are found without touching a buffer.
#![tactic(auto)]

ghost use Rattle.std.specs.Prelude.{◌≡◌, length};
ghost use Rattle.checks.specs.Checked as Checked;
ghost use Rattle.sheet.specs.Node as nodes;
ghost use Rattle.lowering.specs.Kinds.{switch_kind};
ghost use Rattle.zeros.specs.Zeros.{Zeroed};
ghost use Rattle.to_image.specs.Answer.{Answers};
ghost use Rattle.to_image.specs.Making as making;
ghost use Rattle.to_image.specs.Making.{Ready, Built};

mod switched;

use crate::switched::build_switch;
use checks::check;
use expr_emit::expression;
use needs::{plain_counts, refusal, settle, switch_counts};
use refusals::Refusal;
use scratch::Layout;
use scratch_locals::begin;
use scratch_store::Store;
use sheet::kinds::SWITCH;
use sheet::limits::MAX_DEPTH;
use sheet::{kind, node_count};
use switch_tables::Table;
use write_front::{Source, Tables, image_len};
use zeros::zero;

// The image of an expression: its word count; its words are written where they fit.
// Kept: sheet, image and scratch stand apart, here and in `switched`. Tried as a struct of the three with methods: of a field that was lent
// to a Store the words are not known when the Store ends, and of a parameter they are.
fn build_plain(sheet: &[u8], image: &mut [u32], scratch: &mut [u32], most: u32) -> usize
    ensures { let sheet = sheet.now in
        (Ready sheet most (length scratch.old) → (nodes.kind sheet 0 ≡ switch_kind → ⊥)
        → Built sheet image.old result image.new) }
{
    let layout = Layout {
        most,
        nodes: node_count(sheet),
    };
    begin(sheet, scratch, layout);
    let mut store = Store::start(scratch, layout);
    expression(MAX_DEPTH, sheet, &mut store, 0);
    let n = image_len(store.state, 0);
    if image.len() < n {
        return n;
    }
    let state = store.state;
    let front = Source {
        sheet,
        scratch: store.words(),
        state,
    };
    front.write(
        image,
        Tables {
            switches: 0,
            cases: 0,
            ranges: 0,
        },
    );
    n
}

// The end: the scratch is zeroed, and the words are counted, if the image has room for them.
fn ended(scratch: &mut [u32], room: usize, words: usize) -> Result<usize, Refusal>
    ensures value { result ≡ making.ended room words }
    ensures zeroed { Zeroed scratch.old scratch.new }
{
    zero(scratch);
    if room < words {
        return Err(Refusal::ImageLong);
    }
    Ok(words)
}

// An accepted expression: count, refuse, emit, write.
// Kept: beside `lower_switch`, which reads a table first and settles it behind the refusals: one function of
// both would ask twice which it is. So with `build_plain` and `build_switch`, whose common ends (layout, room) are three lines.
// That the sheet is accepted is a premise, here and in needs and switch_places: a type that says so would ask more of
// callers of their public functions.
fn lower_plain(sheet: &[u8], image: &mut [u32], scratch: &mut [u32]) -> Result<usize, Refusal>
    ensures { let s = sheet.now in (Checked.verdict_number (Checked.checked s) ≡ 0 → (nodes.kind s 0 ≡ switch_kind → ⊥)
        → Answers s image.old scratch.old result image.new scratch.new) }
{
    let t = plain_counts(sheet, scratch.len());
    refusal(t, scratch.len(), node_count(sheet))?;
    let words = build_plain(sheet, image, scratch, t.emitted as u32);
    ended(scratch, image.len(), words)
}

// An accepted Switch: read it into its table, count, refuse, emit, write.
fn lower_switch(sheet: &[u8], image: &mut [u32], scratch: &mut [u32]) -> Result<usize, Refusal>
    ensures { let s = sheet.now in (Checked.verdict_number (Checked.checked s) ≡ 0 → nodes.kind s 0 ≡ switch_kind
        → Answers s image.old scratch.old result image.new scratch.new) }
{
    let mut table = Table::empty();
    let t = switch_counts(sheet, scratch.len(), &mut table);
    refusal(t, scratch.len(), node_count(sheet))?;
    settle(sheet, &mut table);
    let words = build_switch(sheet, image, scratch, t.emitted as u32, &mut table);
    ended(scratch, image.len(), words)
}

// An accepted sheet, by the kind of node 0.
fn lower_accepted(sheet: &[u8], image: &mut [u32], scratch: &mut [u32]) -> Result<usize, Refusal>
    ensures { let s = sheet.now in (Checked.verdict_number (Checked.checked s) ≡ 0
        → Answers s image.old scratch.old result image.new scratch.new) }
{
    if kind(sheet, 0) == SWITCH {
        return lower_switch(sheet, image, scratch);
    }
    lower_plain(sheet, image, scratch)
}

// The image of a sheet, as its word count, or why it is refused. Whatever the sheet and the buffers are, the answer and what is left are
// the definition's.
pub fn lower(sheet: &[u8], image: &mut [u32], scratch: &mut [u32]) -> Result<usize, Refusal>
    ensures { Answers sheet.now image.old scratch.old result image.new scratch.new }
{
    check(sheet)?;
    lower_accepted(sheet, image, scratch)
}
