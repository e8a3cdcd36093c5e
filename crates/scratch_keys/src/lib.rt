// Pool entries kept by their keys: what a key stands for, and when two names are the same.
#![tactic(auto)]

ghost use Rattle.std.specs.Prelude.{◌≡◌, ◌/◌, ◌%◌};
ghost use Rattle.text.specs.Same.{same};
ghost use Rattle.scratch_keys.specs.Keys.{key_node, key_field, is_marked, name_of, marked};
ghost use Rattle.scratch_keys.specs.Bang.{with_bang};

pub mod joined;

use expr_rules::calls::stores_token;
use expr_rules::chains::operand_of;
use lowering::NAMES_PER_NODE;
use sheet::kinds::FN_CALL;
use sheet::{A_AT, field, field_b, field_c, kind, namespace};
use text::same_bytes;

// Which name of its node a key stands for: 0 its own, in field a; 1 the getter, in field b; 2 the setter, in field c of what the link is
// taken with.
// Kept: numbers. A key is a word of the scratch (3 · node + this); an enum would be made from it in `text_of` and in `is_marked`, and
// compared there once.
const OWN: u32 = 0;

const SETTER: u32 = 2;

// The text of the name with key `k`.
pub fn text_of(sheet: &[u8], k: u32) -> u32
    ensures { result ≡ (name_of sheet.now k).text }
{
    let j = k / NAMES_PER_NODE;
    match k % NAMES_PER_NODE {
        SETTER => field_c(sheet, operand_of(sheet, j)),
        f => field(sheet, j, A_AT + f),
    }
}

// `!` is added to the name with key `k`.
pub fn is_marked(sheet: &[u8], k: u32) -> bool
    ensures { result ≡ is_marked sheet.now (key_node k) (key_field k) }
{
    let j = k / NAMES_PER_NODE;
    let call = (k % NAMES_PER_NODE == OWN) & (kind(sheet, j) == FN_CALL);
    call && !stores_token(sheet, j) & (field_b(sheet, j) == 1)
}

// The mark of the name with key `k`: 1 if `!` is added.
// Kept: the word of an image's name, by the definition's own name, `mark`. It is made here, where the bool is told.
pub fn mark_of(sheet: &[u8], k: u32) -> u32
    ensures { result ≡ (name_of sheet.now k).mark }
{
    u32::from(is_marked(sheet, k))
}

// The namespace of the name with key `k`, its text plus 1, or 0 for none: only a node's own name has one.
// Kept: the word of an image's name, as `mark_of`.
pub fn namespace_of(sheet: &[u8], k: u32) -> u32
    ensures { result ≡ (name_of sheet.now k).namespace }
{
    if k % NAMES_PER_NODE == OWN {
        return namespace(sheet, k / NAMES_PER_NODE);
    }
    0
}

// `y` is `x` with `!` added.
// Kept: `split_last`. Tried, `strip_suffix`, which says its two cases by `pointwise` of two parts: that goal was not closed.
fn same_with_bang(x: &[u8], y: &[u8]) -> bool
    ensures { result ≡ same (with_bang x.now) y.now }
{
    match y.split_last() {
        Some((last, front)) => *last == b'!' && same_bytes(x, front),
        None => false,
    }
}

// Text `y`, with `!` where the name with key `k` has it, is `x`, with `!` where `m` says.
// Kept: bytes and marks stand in the sheet, so no derive compares them.
pub fn same_marked(sheet: &[u8], k: u32, x: &[u8], m: bool, y: &[u8]) -> bool
    ensures { result ≡ same (marked x.now m) (marked y.now (is_marked sheet.now (key_node k) (key_field k))) }
{
    if x.len() == y.len() {
        return same_bytes(x, y) && is_marked(sheet, k) == m;
    }
    if m {
        return same_with_bang(x, y) && !is_marked(sheet, k);
    }
    same_with_bang(y, x) && is_marked(sheet, k)
}
