// Refusal 1: length, padding or a size wrong.
#![tactic(auto)]

ghost use Rattle.std.specs.Prelude.{◌≡◌, ◌+◌, ◌*◌, ◌<◌};
ghost use Rattle.sheet.specs.Sections.{end_at};
ghost use Rattle.check_sizes.specs.Sizes as sizes;

use sheet::limits::{MAX_BYTES, MAX_LOCALS, MAX_NODES, MAX_TEXTS};
use sheet::{byte_count, bytes_at, local_count, locals_at, node_count, text_count};
use words::byte;

// Each size is within its limit.
fn limits_ok(sheet: &[u8]) -> bool
    ensures { result ≡ sizes.limits_ok sheet.now }
{
    let n = node_count(sheet);
    let x = text_count(sheet);
    let b = byte_count(sheet);
    let l = local_count(sheet);
    (1 <= n) & (n <= MAX_NODES) & (x <= MAX_TEXTS) & (b <= MAX_BYTES) & (l <= MAX_LOCALS)
}

// The sheet has the bytes of its sections, and none after them.
fn length_ok(sheet: &[u8]) -> bool
    ensures { result ≡ sizes.length_ok sheet.now }
{
    let words = locals_at(sheet) + (local_count(sheet) as usize);
    sheet.len() == 4 * words
}

// The `k`-th byte after the text bytes is 0, unless their last word has ended.
// Kept: rounded up by hand, as the definition has it. Tried, `next_multiple_of(4)` here and `div_ceil(4)` at `locals_at` of sheet: what is
// made of them is 26 bytes longer, the loop over the nodes lies elsewhere, and the check of a sheet takes up to 1.14 times as long.
fn pad_ok(sheet: &[u8], k: u8) -> bool
    ensures { result ≡ sizes.pad_ok sheet.now k }
{
    let b = byte_count(sheet) as usize;
    let past = usize::from(k);
    let ended = 4 * ((b + 3) / 4) <= b + past;
    let zero = byte(sheet, 4 * bytes_at(sheet) + b + past) == 0;
    ended | zero
}

// The text bytes are padded with zeros.
fn padding_ok(sheet: &[u8]) -> bool
    ensures { result ≡ sizes.padding_ok sheet.now }
{
    pad_ok(sheet, 0) & pad_ok(sheet, 1) & pad_ok(sheet, 2)
}

// Nothing of refusal 1.
pub fn sizes_ok(sheet: &[u8]) -> bool
    ensures { result ≡ sizes.sizes_ok sheet.now }
{
    limits_ok(sheet) & length_ok(sheet) & padding_ok(sheet)
}
