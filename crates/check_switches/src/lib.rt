// Refusals 6 and 7, of a Switch: too many entries; two cases of equal kind and value.
#![tactic(auto)]

ghost use Rattle.std.specs.Prelude.{◌≡◌, true, false, ℕ, ◌<◌, length, get_or};
ghost use Rattle.std.specs.List.{list_all};
ghost use Rattle.sheet.specs.Walk as walks;
ghost use Rattle.sheet.specs.Rest as left;
ghost use Rattle.check_switches.specs.Switch as switches;
ghost use Rattle.check_switches.specs.Key as keys;

use sheet::kinds::{STRING, SWITCH};
use sheet::limits::MAX_ENTRIES;
use sheet::{Siblings, child, count, field_a, field_b, kind, next, skip};
use text::same_bytes;
use words::{byte, part, word_at};

// Node 0 is a Switch.
fn is_switch(sheet: &[u8]) -> bool
    ensures { result ≡ switches.is_switch sheet.now }
{
    kind(sheet, 0) == SWITCH
}

// The first Case, if there is one, of a Switch whose counts are within their limits.
pub fn first_case(sheet: &[u8]) -> u32
    ensures { result ≡ switches.first_case sheet.now }
{
    let blocks = field_a(sheet, 0);
    let j = skip(sheet, blocks, child(0));
    next(sheet, skip(sheet, blocks, j))
}

// Case `j` has few enough Refs.
fn refs_ok(sheet: &[u8], j: u32) -> bool
    ensures { result ≡ switches.refs_ok sheet.now j }
{
    count(sheet, j) <= 1 + MAX_ENTRIES
}

// The blocks, cases and ranges are few enough.
fn counts_ok(sheet: &[u8]) -> bool
    ensures { result ≡ switches.counts_ok sheet.now }
{
    let blocks = field_a(sheet, 0);
    let cases = field_b(sheet, 0);
    let others = 1 + 2 * (blocks as u64) + (cases as u64);
    let few = (count(sheet, 0) as u64) <= others + (MAX_ENTRIES as u64);
    (blocks <= MAX_ENTRIES) & (cases <= MAX_ENTRIES) & few
}

// Each of `m` Cases from node `at` on has few enough Refs.
fn all_refs_ok(sheet: &[u8], m: u32, at: u32) -> bool
    ensures { result ≡ walks.siblings (switches.refs_ok sheet.now) sheet.now m at }
{
    Siblings::new(sheet, m, at).all(|j| refs_ok(sheet, j))
}

// Nothing of refusal 6.
pub fn entries_ok(sheet: &[u8]) -> bool
    ensures { result ≡ switches.entries_ok sheet.now }
{
    if is_switch(sheet) {
        if counts_ok(sheet) {
            return all_refs_ok(sheet, field_b(sheet, 0), first_case(sheet));
        }
        return false;
    }
    true
}

// Nodes `v` and `w` have equal kind and value.
// Kept: beside `same_const` of scratch_index. The definitions are two (`same_value` of refusal 7, `same_const_of` of the pools). For one
// function `same_text` would have to come down here from expr_chains, and each pair of cases would be asked first whether its numbers
// are equal, which they hardly are.
fn same_value(sheet: &[u8], v: u32, w: u32) -> bool
    ensures { result ≡ switches.same_value sheet.now v w }
{
    let k = kind(sheet, v);
    if k == kind(sheet, w) {
        let a = field_a(sheet, v);
        let b = field_a(sheet, w);
        if k == STRING {
            return same_bytes(sheet::text(sheet, a), sheet::text(sheet, b));
        }
        return (a == b) & (field_b(sheet, v) == field_b(sheet, w));
    }
    false
}

// The Cases `p` and `q` differ.
fn apart(sheet: &[u8], p: u32, q: u32) -> bool
    ensures { result ≡ switches.apart sheet.now p q }
{
    !same_value(sheet, child(p), child(q))
}

// The Case `p` differs from each of `rest`.
fn apart_from(sheet: &[u8], p: u32, mut rest: Siblings<'_>) -> bool
    ensures { result ≡ list_all (switches.apart sheet.now p) (left.rest rest.entry) }
{
    rest.all(|q| apart(sheet, p, q))
}

// `m` Cases from node `at` on differ: each is compared with all behind it.
// Kept: `while let`, since each turn hands on the iterator as it stands, and a `for` would own it, or hold its loan.
fn each_apart(sheet: &[u8], m: u32, at: u32) -> bool
    ensures { result ≡ switches.distinct sheet.now m at }
{
    let mut rest = Siblings::new(sheet, m, at);
    while let Some(p) = rest.next() {
        if !apart_from(sheet, p, rest) {
            return false;
        }
    }
    true
}

// A number that equal texts have in common: the first four bytes and the last four, or the three that there are.
// Kept: two words joined by hand, here and in `value_key`: std joins bytes, not words, as at `from_words` of switch_split.
fn text_key(x: &[u8]) -> u64
    ensures { result ≡ keys.text_key x.now }
{
    let n = x.len();
    if n < 4 {
        return u64::from(u32::from_le_bytes([byte(x, 0), byte(x, 1), byte(x, 2), 0]));
    }
    (word_at(x, 0) as u64) + 4294967296 * (word_at(part(x, n - 4, 4), 0) as u64)
}

// A number that equal values have in common.
fn value_key(sheet: &[u8], v: u32) -> u64
    ensures { result ≡ keys.value_key sheet.now v }
{
    let a = field_a(sheet, v);
    if kind(sheet, v) == STRING {
        return text_key(sheet::text(sheet, a));
    }
    (a as u64) + 4294967296 * (field_b(sheet, v) as u64)
}

// Whether `key` is among `k`.
// Kept: no `contains`. That was tried: the whole check of a switch of 64 cases takes 1.03 to 1.12 times what it took with the loops of
// before, and 0.89 times so; the bar is that no sheet's check gets slower. It stops at the first that is equal, but mostly none is, and a
// loop to the end tests several at a time.
fn among(k: &[u64], key: u64) -> bool
    ensures { result ≡ false → (i : ℕ) → i < length k.now → get_or k.now i 0 ≡ key → ⊥ }
{
    let mut found = false;
    for x in k {
        found |= *x == key;
    }
    found
}

// Some Cases, not too few and not too many, from node `at` on differ already by their numbers.
// Kept: sheet, count and first Case apart, here and in `distinct`, `each_apart` and `all_refs_ok`. `distinct` hands the same three on
// twice; as a `Siblings` its contract would say them by its fields, and be longer. The keys lie in an array, `n` of them in front: there
// is no heap.
fn keys_apart(sheet: &[u8], m: u32, at: u32) -> bool
    ensures { result ≡ true → switches.distinct sheet.now m at ≡ true }
{
    if m < 6 {
        return false;
    }
    if 64 < m {
        return false;
    }
    let mut k = [0u64; 64];
    let cases = Siblings::new(sheet, m, at);
    for (n, j) in cases.enumerate() {
        let key = value_key(sheet, child(j));
        if among(&k[..n], key) {
            return false;
        }
        k[n] = key;
    }
    true
}

// `m` Cases from node `at` on differ, each from each.
fn distinct(sheet: &[u8], m: u32, at: u32) -> bool
    ensures { result ≡ switches.distinct sheet.now m at }
{
    if keys_apart(sheet, m, at) {
        return true;
    }
    each_apart(sheet, m, at)
}

// Nothing of refusal 7.
pub fn cases_ok(sheet: &[u8]) -> bool
    ensures { result ≡ switches.cases_ok sheet.now }
{
    if is_switch(sheet) {
        return distinct(sheet, field_b(sheet, 0), first_case(sheet));
    }
    true
}
