// The bytes of a name with its namespace, the separator and `!`, as pieces that stand in the sheet: they are compared where they are.
#![tactic(auto)]

ghost use Rattle.std.specs.Prelude.{◌≡◌, ◌+◌, ◌^◌, ◌≤◌, ◌<◌, ◌++◌, length};
ghost use Rattle.sheet.specs.Text as texts;
ghost use Rattle.text.specs.Same.{same};
ghost use Rattle.lowering.specs.Pools.{prefix};
ghost use Rattle.scratch_keys.specs.Keys as keys;
ghost use Rattle.scratch_keys.specs.Pieces.{joined, pieces, overlap, over, space_of, separator_of, bang_of};

use lowering::SEPARATOR;
use sheet::{text, text_length};
use text::same_bytes;
use words::part;

// Bytes `p`, from place `at` on, and `q`, from place `to` on, are the same where they lie over each other.
fn overlap_same(p: &[u8], at: usize, q: &[u8], to: usize) -> bool
    ensures { result ≡ overlap p.now at q.now to }
{
    let skip = to.saturating_sub(at);
    let from = at.saturating_sub(to);
    if p.len() <= skip {
        return true;
    }
    if q.len() <= from {
        return true;
    }
    same_bytes(part(p, skip, q.len() - from), part(q, from, p.len() - skip))
}

// Text `t`, and that it has fewer than 2^32 bytes.
// Kept: it is cut to its length once more. A word of the sheet is known to be below 2^32 where it is read.
fn short_text(sheet: &[u8], t: u32) -> &[u8]
    ensures { (result.now ≡ texts.text sheet.now t) × (length result.now < 2 ^ 32) }
{
    part(text(sheet, t), 0, text_length(sheet, t) as usize)
}

// What a namespace puts before a name, in two pieces: its text (it is given as text plus 1, or 0 for none), and the separator.
fn space_of(sheet: &[u8], namespace: u32) -> &[u8]
    ensures { (result.now ≡ space_of sheet.now namespace) × (length result.now < 2 ^ 32) }
{
    if namespace == 0 {
        return &[];
    }
    short_text(sheet, namespace - 1)
}

#[tactic(auto, unfolding(crate::specs::Pieces::separator_of))]
fn separator_of(namespace: u32) -> &'static [u8]
    ensures { (result.now ≡ separator_of namespace) × (length result.now ≤ 2) }
{
    if namespace == 0 {
        return &[];
    }
    &SEPARATOR
}

// `!`, or nothing.
#[tactic(auto, unfolding(crate::specs::Pieces::bang_of))]
fn bang_of(marked: bool) -> &'static [u8]
    ensures { (result.now ≡ bang_of marked) × (length result.now ≤ 1) }
{
    if marked {
        return b"!";
    }
    b""
}

// The bytes of a name as pieces.
#[derive(Clone, Copy)]
pub struct Joined<'a> {
    space: &'a [u8],
    separator: &'a [u8],
    text: &'a [u8],
    bang: &'a [u8],
    ghost near: { length space.now + length separator.now + length text.now + length bang.now < 2 ^ 63 },
}

impl<'a> Joined<'a> {
    // Text `t`, with `!` where it is marked, in a namespace.
    pub fn new(sheet: &'a [u8], namespace: u32, t: u32, marked: bool) -> Joined<'a>
        ensures { let it = result in
            joined (pieces it.space.now it.separator.now it.text.now it.bang.now)
            ≡ prefix sheet.now namespace ++ keys.marked (texts.text sheet.now t) marked }
    {
        Joined {
            space: space_of(sheet, namespace),
            separator: separator_of(namespace),
            text: short_text(sheet, t),
            bang: bang_of(marked),
        }
    }

    // How many bytes it has.
    fn len(&self) -> usize
        ensures { let it = self.now in
            result ≡ length (joined (pieces it.space.now it.separator.now it.text.now it.bang.now)) }
    {
        self.space.len() + self.separator.len() + self.text.len() + self.bang.len()
    }

    // Bytes `p` are what stands in it from place `at` on.
    fn has(&self, p: &[u8], at: usize) -> bool
        ensures { let it = self.now in
            result ≡ over p.now at 0 (pieces it.space.now it.separator.now it.text.now it.bang.now) }
    {
        if !overlap_same(p, at, self.space, 0) {
            return false;
        }
        let separator = self.space.len();
        if !overlap_same(p, at, self.separator, separator) {
            return false;
        }
        let text = separator + self.separator.len();
        if !overlap_same(p, at, self.text, text) {
            return false;
        }
        overlap_same(p, at, self.bang, text + self.text.len())
    }

    // Both have the same bytes: each piece of the one stands in the other.
    pub fn same(&self, other: &Joined) -> bool
        ensures { let it = self.now in let that = other.now in
            result ≡ same (joined (pieces it.space.now it.separator.now it.text.now it.bang.now))
            (joined (pieces that.space.now that.separator.now that.text.now that.bang.now)) }
    {
        if self.len() != other.len() {
            return false;
        }
        if !other.has(self.space, 0) {
            return false;
        }
        let separator = self.space.len();
        if !other.has(self.separator, separator) {
            return false;
        }
        let text = separator + self.separator.len();
        if !other.has(self.text, text) {
            return false;
        }
        other.has(self.bang, text + self.text.len())
    }
}
