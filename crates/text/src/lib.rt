// Texts as byte strings: equality, the four keywords, and well-formed UTF-8.
#![tactic(auto)]

ghost use Rattle.std.specs.Prelude.{◌≡◌, ◌+◌, ◌≤◌, ◌<◌, length, drop, unwrap_or, IfSome};
ghost use Rattle.text.specs.Same.{same};
ghost use Rattle.text.specs.Eight.{four_at, eight_at, block_same, Agree};
ghost use Rattle.text.specs.Keyword.{is_eval, is_fn, is_call, is_curry};
ghost use Rattle.text.specs.Char.{char_length};
ghost use Rattle.text.specs.Leads.{Leads};

// Four bytes of `s` from `i` on as a number.
fn four(s: &[u8], i: usize) -> u32
    requires { i + 4 ≤ length s.now }
    ensures { result ≡ four_at s.now i }
{
    u32::from_le_bytes([s[i], s[i + 1], s[i + 2], s[i + 3]])
}

// Eight bytes of `s` from `i` on as a number.
// Kept: a function beside `four`. One over a const number of bytes would need `from_le_bytes` of two types, u32 and u64, so a trait for one
// call each; and the bytes by themselves, since an array that a loop or `try_into` makes of a slice is proved by a law of its own.
fn eight(s: &[u8], i: usize) -> u64
    requires { i + 8 ≤ length s.now }
    ensures { result ≡ eight_at s.now i }
{
    u64::from_le_bytes([
        s[i],
        s[i + 1],
        s[i + 2],
        s[i + 3],
        s[i + 4],
        s[i + 5],
        s[i + 6],
        s[i + 7],
    ])
}

// The 32 bytes from `i` on are the same.
fn same_block(a: &[u8], b: &[u8], i: usize) -> bool
    requires { (i + 32 ≤ length a.now) × (length a.now ≡ length b.now) }
    ensures { result ≡ block_same a.now b.now i }
{
    (eight(a, i) == eight(b, i))
        & (eight(a, i + 8) == eight(b, i + 8))
        & (eight(a, i + 16) == eight(b, i + 16))
        & (eight(a, i + 24) == eight(b, i + 24))
}

// A number of bytes at the start that are the same, 32 at a time: all but the last 32 or fewer, or those before 32 that differ.
fn same_start(a: &[u8], b: &[u8]) -> usize
    requires { length a.now ≡ length b.now }
    ensures { (result ≤ length a.now) × Agree a.now b.now result }
{
    let n = a.len();
    let mut i = 0;
    while 32 < n - i {
        if same_block(a, b, i) {
            i += 32;
        } else {
            return i;
        }
    }
    i
}

// The same bytes, of two strings of one length, more than 8. Some of the last eight may be compared twice.
fn same_long(a: &[u8], b: &[u8]) -> bool
    requires { (8 < length a.now) × (length a.now ≡ length b.now) }
    ensures { result ≡ same a.now b.now }
{
    let n = a.len();
    let mut i = same_start(a, b);
    while 8 < n - i {
        if eight(a, i) == eight(b, i) {
            i += 8;
        } else {
            return false;
        }
    }
    eight(a, n - 8) == eight(b, n - 8)
}

// The same bytes, of two strings of one length, 4 to 8: the first four and the last four.
fn same_few(a: &[u8], b: &[u8]) -> bool
    requires { (4 ≤ length a.now) × (length a.now ≤ 8) × (length a.now ≡ length b.now) }
    ensures { result ≡ same a.now b.now }
{
    let last = a.len() - 4;
    (four(a, 0) == four(b, 0)) & (four(a, last) == four(b, last))
}

// The same bytes, of two strings of one length, for those below 4 bytes.
fn same_short(a: &[u8], b: &[u8]) -> bool
    requires { length a.now ≡ length b.now }
    ensures { result ≡ same a.now b.now }
{
    a == b
}

// Whether `a` and `b` are the same bytes.
// Kept: not `a == b` at each length. That was tried, and takes 1.2 to 1.7 times as long at 4 to 16 bytes; comparing names decides the
// lowering's time, which is at its bar. For the same reason the functions above read four, eight and 32 bytes at a time, at places that
// are counted by hand: the last of them lie over those before, as no chunks of a slice do.
// Kept: `while` in `same_start` and `same_long`. `for` over the number of blocks was tried and proves, and takes 1.3 to 1.6 times as long
// from 9 bytes on.
// Kept: two slices, and no struct of two slices of one length for the five functions above. It would be made here alone, and opened again
// in each of them, where both slices are indexed.
pub fn same_bytes(a: &[u8], b: &[u8]) -> bool
    ensures { result ≡ same a.now b.now }
{
    let n = a.len();
    if n != b.len() {
        return false;
    }
    if n < 4 {
        return same_short(a, b);
    }
    if n <= 8 {
        return same_few(a, b);
    }
    same_long(a, b)
}

// The four keywords.
// Kept: a function for each. They are one call of `same_bytes` under the name that the keyword's definition has; one function of a keyword
// would say at each call what the names say now.

// Whether `name` is the keyword `eval`.
pub fn is_eval(name: &[u8]) -> bool
    ensures { result ≡ is_eval name.now }
{
    same_bytes(name, b"eval")
}

// Whether `name` is the keyword `Fn`.
pub fn is_fn(name: &[u8]) -> bool
    ensures { result ≡ is_fn name.now }
{
    same_bytes(name, b"Fn")
}

// Whether `name` is the keyword `call`.
pub fn is_call(name: &[u8]) -> bool
    ensures { result ≡ is_call name.now }
{
    same_bytes(name, b"call")
}

// Whether `name` is the keyword `curry`.
pub fn is_curry(name: &[u8]) -> bool
    ensures { result ≡ is_curry name.now }
{
    same_bytes(name, b"curry")
}

// What a first byte asks for: the number of tail bytes, and the least and the greatest value of the first of them.
#[derive(Clone, Copy)]
struct Lead {
    tails: usize,
    low: u8,
    high: u8,
}

// The table of RFC 3629. A byte that starts no character asks for one from BF to 80, which there is not.
fn asked(b: u8) -> Lead
    ensures { Leads b result.tails result.low result.high }
{
    let (tails, low, high) = match b {
        0x00..=0x7F => (0, 0x80, 0xBF),
        0x80..=0xC1 => (1, 0xBF, 0x80),
        0xC2..=0xDF => (1, 0x80, 0xBF),
        0xE0 => (2, 0xA0, 0xBF),
        0xE1..=0xEC => (2, 0x80, 0xBF),
        0xED => (2, 0x80, 0x9F),
        0xEE..=0xEF => (2, 0x80, 0xBF),
        0xF0 => (3, 0x90, 0xBF),
        0xF1..=0xF3 => (3, 0x80, 0xBF),
        0xF4 => (3, 0x80, 0x8F),
        0xF5..=0xFF => (1, 0xBF, 0x80),
    };
    Lead { tails, low, high }
}

// The length of the character that starts at byte `i`, if one does.
// Kept: not std's `str::from_utf8`, which answers for a whole string. A sheet's texts overlap, and where they do check_texts needs the
// length of each character to go through them once; `char_length` is the table of RFC 3629, by itself.
pub fn char_len(s: &[u8], i: usize) -> Option<usize>
    ensures length { unwrap_or result 0 ≡ char_length (drop i s.now) }
    ensures some { IfSome result (λ n. 0 < n) }
{
    if s.len() <= i {
        return None;
    }
    let lead = asked(s[i]);
    let n = lead.tails;
    if s.len() - i <= n {
        return None;
    }
    let mut low = lead.low;
    let mut high = lead.high;
    for b in &s[i + 1..i + 1 + n] {
        if *b < low {
            return None;
        }
        if high < *b {
            return None;
        }
        low = 0x80;
        high = 0xBF;
    }
    Some(n + 1)
}
