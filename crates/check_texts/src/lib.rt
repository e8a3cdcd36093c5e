// Refusal 3 of a sheet: every text lies within the text bytes and is well-formed UTF-8.
// Where all the text bytes are ASCII, each text only has to lie within them. Else each text is read, if their lengths come to no more than
// eight times the text bytes. Longer texts overlap. So that the bytes are not read once for each text, they are taken in stretches of
// 16,384, from the last to the first, and each block of 64 bytes of a stretch gets a mark: a place at the block's end, and how far whole
// characters stand from there on. A text that starts in the stretch is read to the end of its first block, and goes on by its mark.
#![tactic(auto)]

ghost use Rattle.std.specs.Prelude.{◌≡◌, true, not, ◌+◌, ◌*◌, ◌^◌, ◌≤◌, ◌<◌, length};
ghost use Rattle.words.specs.Count.{all_below};
ghost use Rattle.text.specs.Utf8.{utf8, within};
ghost use Rattle.sheet.specs.Sections.{text_count};
ghost use Rattle.sheet.specs.Text.{text_start, text_length};
ghost use Rattle.check_texts.specs.Texts.{text_ok, texts_ok};
ghost use Rattle.check_texts.specs.Plain as ascii;
ghost use Rattle.check_texts.specs.Marks.{Characters, Reading, blocks, stretch, Mark, Holds, Marks, Due, AllDue};
ghost use Rattle.check_texts.specs.Read.{Read};

use sheet::{byte_count, bytes_at, lengths_at, text, text_count};
use text::char_len;
use words::{part, word_at};

// All bytes are ASCII, if it says so.
fn plain(b: &[u8]) -> bool
    ensures { result ≡ true → ascii.PlainTo b.now (length b.now) }
{
    b.is_ascii()
}

// bytes of a block, and the number of blocks and of bytes of a stretch
const BLOCK: usize = 64;

const BLOCKS: usize = 256;

const STRETCH: usize = 16384;

// Reads characters from `i` on until `stop` is reached or passed, and answers where that is; before `stop` only where no character
// starts.
// Kept: `while`, since a step is as long as the character that is read; that an iterator would give the places takes a type of its own.
fn run(sheet: &[u8], i: usize, stop: usize) -> usize
    requires { (i ≤ length sheet.now) × (stop ≤ length sheet.now) }
    ensures { Reading sheet.now i stop result }
{
    let mut r = i;
    while r < stop {
        if sheet[r] < 0x80 {
            r += 1;
        } else {
            match char_len(sheet, r) {
                Some(w) => r += w,
                None => return r,
            }
        }
    }
    r
}

// No tail byte of a character.
fn no_tail(x: u8) -> bool
    ensures { result ≡ not (within 0x80 0xBF x) }
{
    (x < 0x80) | (0xBF < x)
}

// A place at or after `p` for reading to start again: the first byte that is no tail byte, if it is one of the next three.
fn restart(b: &[u8], p: usize) -> usize
    requires { p ≤ length b.now }
    ensures { (p ≤ result) × (result ≤ length b.now) }
{
    let last = b.len().min(p + 3);
    b[p..last]
        .iter()
        .position(|x| no_tail(*x))
        .map_or(last, |k| p + k)
}

// Two places between which there are whole characters.
// Kept: that there are (`Characters`) is a premise of those that go on from them. As a ghost fact it would name the bytes, which would then
// be a field, though each of those has them.
#[derive(Clone, Copy)]
struct Far {
    from: usize,
    to: usize,
}

// The end of the bytes, twice.
fn far_end(b: &[u8]) -> Far
    ensures { Characters b.now result.from result.to }
{
    let n = b.len();
    Far { from: n, to: n }
}

// The places from byte `e` on, where those behind it are known.
fn far_from(b: &[u8], e: usize, f: Far) -> Far
    requires { Characters b.now f.from f.to }
    ensures { Characters b.now result.from result.to }
{
    if b.len() < e {
        return f;
    }
    let q = restart(b, e);
    let r = run(b, q, f.from);
    if r == f.from {
        return Far { from: q, to: f.to };
    }
    Far { from: q, to: r }
}

// The mark of a run from `p` to `far`, for the block with end `e`. Only a start at `e` or at one of the next three bytes is kept:
// other runs have the mark 0.
// Kept: one word for both places, and 0 for none. The marks of a stretch lie on the stack, where there is no heap: 1 KiB as words, and
// 6 KiB as `Option<Far>`.
fn mark(e: usize, p: usize, far: usize) -> u32
    ensures { Mark e p far result }
{
    if p < e {
        return 0;
    }
    let from = p - e;
    if 4 <= from {
        return 0;
    }
    if 0x10000000 <= far {
        return 0;
    }
    (4 * far + from) as u32
}

// The marks of the stretch that starts at `base`, from its last block to its first; `from` is known from the stretch behind it.
// Kept: by index. Tried, `marks.iter_mut().enumerate().rev()`: of that loop the invariant has the iterator and not the marks, so it cannot
// say that those of the blocks passed are true.
fn keep(b: &[u8], base: usize, from: Far, marks: &mut [u32; BLOCKS]) -> Far
    requires base_bound { (base < 2 ^ 33) × (length marks.old ≡ blocks) }
    requires characters { Characters b.now from.from from.to }
    ensures { Characters b.now result.from result.to × Marks b.now base 0 marks.new }
{
    let mut f = from;
    for j in (0..BLOCKS).rev() {
        let e = base + (j + 1) * BLOCK;
        f = far_from(b, e, f);
        marks[j] = mark(e, f.from, f.to);
    }
    f
}

// There are whole characters from `i` to `end`, if it says so: `v` is the mark of the block with end `e`.
fn leaps(b: &[u8], e: usize, v: usize, i: usize, end: usize) -> bool
    requires e_bound { (e < 2 ^ 34) × (end ≤ length b.now) }
    requires holds { Holds b.now e v }
    ensures { result ≡ true → Characters b.now i end }
{
    if i == end {
        return true;
    }
    if e + v % 4 != i {
        return false;
    }
    if end < i {
        return false;
    }
    let far = v / 4;
    if far < end {
        return false;
    }
    if b.len() < far {
        return false;
    }
    if far == end {
        return true;
    }
    no_tail(b[end])
}

// A mark as a number.
// Kept: no `usize::from`, which Rust has not for a u32; of a parameter the range is known, of an element of the table it is not.
fn wide(v: u32) -> usize
    ensures { result ≡ v }
{
    v as usize
}

// Whether `q` is well-formed.
// Kept: not std's `str::from_utf8`. `run` stands here for the marks anyway, and promises what `utf8` says of the bytes; std answers by a
// definition of its own (`IsUtf8`), which a law would have to show equal to `utf8`.
fn read_whole(q: &[u8]) -> bool
    ensures { result ≡ utf8 q.now }
{
    let n = q.len();
    run(q, 0, n) == n
}

// The texts of a sheet: how many there are, where their starts and their lengths stand, in words, and their bytes. All this is read once,
// before the loops over the texts.
#[derive(Clone, Copy)]
struct Texts<'a> {
    sheet: &'a [u8],
    count: u32,
    starts: usize,
    lengths: usize,
    size: usize,
    bytes: &'a [u8],
    ghost read: { Read sheet.now count starts lengths size bytes.now },
}

impl<'a> Texts<'a> {
    fn of(sheet: &'a [u8]) -> Texts<'a>
        ensures { result.sheet.now ≡ sheet.now }
    {
        let count = text_count(sheet);
        let lengths = lengths_at(sheet);
        let size = byte_count(sheet) as usize;
        Texts {
            sheet,
            count,
            starts: lengths - (count as usize),
            lengths,
            size,
            bytes: part(sheet, 4 * bytes_at(sheet), size),
        }
    }

    // Where text `t` starts among the text bytes, and its length.
    // Kept: a function for each. It is one read under the name that its definition has.
    fn start(&self, t: u32) -> u32
        ensures { result ≡ text_start self.now.sheet.now t }
    {
        word_at(self.sheet, self.starts + (t as usize))
    }

    fn length(&self, t: u32) -> u32
        ensures { result ≡ text_length self.now.sheet.now t }
    {
        word_at(self.sheet, self.lengths + (t as usize))
    }

    // Text `t` lies within the text bytes.
    fn inside(&self, t: u32) -> bool
        ensures { result ≡ ascii.inside self.now.sheet.now t }
    {
        let start = self.start(t) as usize;
        let len = self.length(t) as usize;
        start + len <= self.size
    }

    // Every text lies within the text bytes.
    // Kept: `all_inside` and `each_ok` are one call of `all` each; a function over the test would be that call under another name.
    fn all_inside(&self) -> bool
        ensures { result ≡ all_below (text_count self.now.sheet.now) (ascii.inside self.now.sheet.now) }
    {
        (0..self.count).all(|t| self.inside(t))
    }

    // Text `t` is in its place and well-formed: all of it is read.
    fn read_ok(&self, t: u32) -> bool
        ensures { result ≡ text_ok self.now.sheet.now t }
    {
        if self.inside(t) {
            return read_whole(text(self.sheet, t));
        }
        false
    }

    // Nothing of refusal 3, by marks: stretch by stretch, from the last to the first.
    fn marked_ok(&self) -> bool
        requires { all_below (text_count self.now.sheet.now) (ascii.inside self.now.sheet.now) ≡ true }
        ensures { result ≡ texts_ok self.now.sheet.now }
    {
        let mut marks: [u32; BLOCKS] = [0; BLOCKS];
        let b = self.bytes;
        let mut f = far_end(b);
        for k in (0..self.size / STRETCH + 1).rev() {
            let base = k * STRETCH;
            f = keep(b, base, f, &mut marks);
            let stretch = Stretch {
                texts: *self,
                base,
                marks: &marks,
            };
            if !stretch.all_ok() {
                return false;
            }
        }
        true
    }

    // Nothing of refusal 3, text by text.
    fn each_ok(&self) -> bool
        ensures { result ≡ texts_ok self.now.sheet.now }
    {
        (0..self.count).all(|t| self.read_ok(t))
    }

    // The lengths of all texts together.
    // Kept: not `.map(..).sum()`, which asks that the sum of what the chain gives is below 2^64: a law over that list would show what the
    // loop's invariant says in one line.
    fn total(&self) -> u64 {
        let mut sum: u64 = 0;
        for t in 0..self.count {
            sum += u64::from(self.length(t));
        }
        sum
    }

    // Nothing of refusal 3, where each text lies within the text bytes.
    fn inside_ok(&self) -> bool
        requires { all_below (text_count self.now.sheet.now) (ascii.inside self.now.sheet.now) ≡ true }
        ensures { result ≡ texts_ok self.now.sheet.now }
    {
        if plain(self.bytes) {
            return true;
        }
        if self.total() <= 8 * (self.size as u64) {
            return self.each_ok();
        }
        self.marked_ok()
    }
}

// The stretch of the text bytes that starts at `base`, with the marks of its blocks.
#[derive(Clone, Copy)]
struct Stretch<'a> {
    texts: Texts<'a>,
    base: usize,
    marks: &'a [u32; BLOCKS],
    ghost near: { base < 2 ^ 33 },
    ghost marked: { Marks texts.bytes.now base 0 marks.now },
}

impl<'a> Stretch<'a> {
    // There are whole characters from `start` to `end`, if it says so. The text is read up to the end of its first block, and goes on by
    // the block's mark.
    fn whole(&self, start: usize, end: usize) -> bool
        requires { (start ≤ end) × (end ≤ length self.now.texts.bytes.now) }
        ensures { result ≡ true → Characters self.now.texts.bytes.now start end }
    {
        let b = self.texts.bytes;
        if start < self.base {
            return false;
        }
        let k = (start - self.base) / BLOCK;
        if BLOCKS <= k {
            return false;
        }
        let e = self.base + (k + 1) * BLOCK;
        let i = run(b, start, e.min(end));
        leaps(b, e, wide(self.marks[k]), i, end)
    }

    // Text `t` is right, if it says so.
    fn known_ok(&self, t: u32) -> bool
        ensures { result ≡ true → text_ok self.now.texts.sheet.now t ≡ true }
    {
        let start = self.texts.start(t) as usize;
        let end = start + (self.texts.length(t) as usize);
        if self.texts.bytes.len() < end {
            return false;
        }
        self.whole(start, end)
    }

    // Text `t` is right, if it starts in the stretch.
    fn due_ok(&self, t: u32) -> bool
        ensures { Due self.now.texts.sheet.now t self.now.base (self.now.base + stretch) result }
    {
        let start = self.texts.start(t) as usize;
        if start < self.base {
            return true;
        }
        if self.base + STRETCH <= start {
            return true;
        }
        if self.known_ok(t) {
            return true;
        }
        self.texts.read_ok(t)
    }

    // Every text that starts in the stretch is right.
    fn all_ok(&self) -> bool
        ensures { AllDue self.now.texts.sheet.now self.now.base (self.now.base + stretch) result }
    {
        (0..self.texts.count).all(|t| self.due_ok(t))
    }
}

// Nothing of refusal 3.
pub fn texts_ok(sheet: &[u8]) -> bool
    ensures { result ≡ texts_ok sheet.now }
{
    let texts = Texts::of(sheet);
    if texts.all_inside() {
        return texts.inside_ok();
    }
    false
}
