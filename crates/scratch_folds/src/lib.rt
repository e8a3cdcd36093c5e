// The hash of bytes: a fold over all of them, then spread over all words. The fold up to the end of each block of text bytes may be kept in
// lent words (`fill`); then no text costs more than two blocks (`fold_text`).
#![tactic(auto)]

ghost use Rattle.std.specs.Prelude.{◌≡◌, ◌+◌, ◌/◌, ◌%◌, ◌≤◌, min, length, take, drop, get_or};
ghost use Rattle.sheet.specs.Limits.{max_bytes};
ghost use Rattle.sheet.specs.Sections.{byte_count};
ghost use Rattle.sheet.specs.Text as texts;
ghost use Rattle.scratch_folds.specs.Hash.{byte_step, four_steps, bytes_hash, fold_hash, spread, step};
ghost use Rattle.scratch_folds.specs.Sums.{block, factor, power_of, filled, FoldsTo, ByEnds, long, all_short, summed, BySums};
ghost use Rattle.scratch_folds.specs.Sums.{summed_bytes};
ghost use Rattle.scratch_folds.specs.Sums as sums;

use scratch::{get, put};
use sheet::limits::MAX_BYTES;
use sheet::{byte_count, bytes_at, text, text_count, text_length, text_start};
use words::part;

// Bytes of a block.
const BLOCK: usize = 1024;

// The factor of the fold.
const FACTOR: u32 = 16777619;

// From this length on a text is folded by what is kept.
const LONG: u32 = 1152;

// One number more of a hash.
pub fn more(h: u32, v: u32) -> u32
    ensures { result ≡ step h v }
{
    h.wrapping_mul(FACTOR).wrapping_add(v)
}

// One byte more.
pub fn byte_step(h: u32, b: u8) -> u32
    ensures { result ≡ byte_step h b }
{
    more(h, u32::from(b) + 1)
}

// Four bytes more at once.
fn four_steps(h: u32, four: [u8; 4]) -> u32
    ensures { result ≡ four_steps h (get_or four 0 0) (get_or four 1 0) (get_or four 2 0) (get_or four 3 0) }
{
    let [a, b, c, d] = four;
    let w = h.wrapping_mul(1345077009);
    let x = w.wrapping_add(((a as u32) + 1).wrapping_mul(1055306571));
    let y = x.wrapping_add(((b as u32) + 1).wrapping_mul(637696617));
    let z = y.wrapping_add(((c as u32) + 1).wrapping_mul(FACTOR));
    z.wrapping_add((d as u32) + 1)
}

// All bytes more, one by one.
fn fold_rest(x: &[u8], start: u32) -> u32
    ensures { result ≡ fold_hash start x.now }
{
    let mut h = start;
    for b in x {
        h = byte_step(h, *b);
    }
    h
}

// All bytes more, four at a time.
fn fold_on(x: &[u8], start: u32) -> u32
    ensures { result ≡ fold_hash start x.now }
{
    let (fours, rest) = x.as_chunks::<4>();
    let mut h = start;
    for four in fours {
        h = four_steps(h, *four);
    }
    fold_rest(rest, h)
}

// The fold over bytes, before it is spread.
fn fold_bytes(x: &[u8]) -> u32
    ensures { result ≡ fold_hash 0 x.now }
{
    fold_on(x, 0)
}

// A fold, spread over all words.
pub fn spread_out(h: u32) -> u32
    ensures { result ≡ spread h }
{
    h.wrapping_mul(2654435761)
}

// The fold's factor to the power `n`, by squares.
fn power(n: u32) -> u32
    ensures { result ≡ power_of factor n }
{
    FACTOR.wrapping_pow(n)
}

// The fold over what stands behind a front, from that of both, `e`, that of the front, `p`, and the power `w`.
fn behind(e: u32, p: u32, w: u32) -> u32
    ensures { result ≡ sums.behind e p w }
{
    e.wrapping_sub(p.wrapping_mul(w))
}

// How many text bytes a sheet has, or the most that the format allows.
fn byte_size(sheet: &[u8]) -> usize
    ensures { result ≡ min (byte_count sheet.now) max_bytes }
{
    byte_count(sheet).min(MAX_BYTES) as usize
}

// They themselves.
fn text_bytes(sheet: &[u8]) -> &[u8]
    ensures { result.now ≡ summed_bytes sheet.now }
{
    part(sheet, 4 * bytes_at(sheet), byte_size(sheet))
}

// The fold up to the end of each whole block of `b` is written, from place `at` on.
fn fill_blocks(b: &[u8], scratch: &mut [u32], at: u32)
    ensures { let bytes = b.now in scratch.new ≡ filled bytes at (length bytes / block) scratch.old }
{
    let mut h: u32 = 0;
    for (k, block) in b.as_chunks::<BLOCK>().0.iter().enumerate() {
        h = fold_on(block, h);
        put(scratch, (at as usize) + k, h);
    }
}

// No text of the sheet is long.
fn all_short(sheet: &[u8]) -> bool
    ensures { result ≡ all_short sheet.now }
{
    let n = text_count(sheet);
    (0..n).all(|t| text_length(sheet, t) < LONG)
}

// What is kept for the texts of sheet `sheet` is written, from place `at` on: nothing where no text is long.
pub fn fill(sheet: &[u8], scratch: &mut [u32], at: u32)
    ensures { scratch.new ≡ summed sheet.now at scratch.old }
{
    let b = text_bytes(sheet);
    if b.len() < BLOCK {
        return;
    }
    if all_short(sheet) {
        return;
    }
    fill_blocks(b, scratch, at);
}

// Kept: the scratch and the place of the kept folds apart, here and below. Callers have the sheet in what they look for (`ConstOf`,
// `NameWith`) or in `Pass`, and the scratch beside it; a struct of the three would be made for each text.
// The fold over the first `i` bytes: from the end of the block before.
fn fold_to(b: &[u8], scratch: &[u32], at: u32, i: usize) -> u32
    ensures { FoldsTo b.now at scratch.now i result }
{
    let passed = i / BLOCK;
    if passed == 0 {
        return fold_bytes(part(b, 0, i));
    }
    let h = get(scratch, (at as usize) + (passed - 1));
    fold_on(part(b, passed * BLOCK, i % BLOCK), h)
}

// The fold over a front, `start`, and the `n` bytes of `b` from `i` on behind it, where they are there. The front takes the place of the
// bytes before `i`, so that no other power is needed.
fn fold_part(b: &[u8], scratch: &[u32], at: u32, i: u32, n: u32, start: u32) -> u32
    requires { i + n ≤ length b.now }
    ensures { let bytes = b.now in ByEnds bytes at scratch.now (fold_hash start (take n (drop i bytes))) result }
{
    let p = fold_to(b, scratch, at, i as usize);
    let e = fold_to(b, scratch, at, (i as usize) + (n as usize));
    behind(e, p.wrapping_sub(start), power(n))
}

// The fold over a front, `start`, and text `t` behind it, a long one: by what is kept, where it is one of the sheet's and lies within the
// text bytes.
fn fold_long(sheet: &[u8], scratch: &[u32], at: u32, t: u32, start: u32) -> u32
    requires { long ≤ texts.text_length sheet.now t }
    ensures { let sheet = sheet.now in BySums sheet at scratch.now (fold_hash start (texts.text sheet t)) result }
{
    if text_count(sheet) <= t {
        return fold_on(text(sheet, t), start);
    }
    let i = text_start(sheet, t);
    let n = text_length(sheet, t);
    let b = text_bytes(sheet);
    if b.len() < (i as usize) + (n as usize) {
        return fold_on(text(sheet, t), start);
    }
    fold_part(b, scratch, at, i, n, start)
}

// The fold over a front, `start`, and text `t` behind it: by its bytes, or by what is kept.
pub fn fold_text(sheet: &[u8], scratch: &[u32], at: u32, t: u32, start: u32) -> u32
    ensures { let sheet = sheet.now in BySums sheet at scratch.now (fold_hash start (texts.text sheet t)) result }
{
    if text_length(sheet, t) < LONG {
        return fold_on(text(sheet, t), start);
    }
    fold_long(sheet, scratch, at, t, start)
}

// The hash of text `t`.
pub fn hash_text(sheet: &[u8], scratch: &[u32], at: u32, t: u32) -> u32
    ensures { let sheet = sheet.now in BySums sheet at scratch.now (bytes_hash (texts.text sheet t)) result }
{
    spread_out(fold_text(sheet, scratch, at, t, 0))
}
