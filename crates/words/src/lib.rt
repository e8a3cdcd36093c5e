// Bytes and little-endian 32-bit words of a byte string. Every index is answered: a byte past the end, and a word that is not
// there whole, reads as 0.
#![tactic(auto)]

ghost use Rattle.std.specs.Prelude.{◌≡◌, ◌+◌, ◌*◌, ◌<◌, ◌≤◌, ℕ, [], get_or, length, take, drop};
ghost use Rattle.words.specs.Word.{byte_of, from_bytes, front, word};

// Byte `i` of `s`, 0 past the end.
// Kept: a function beside `get` of crate scratch and `word_of` of crate image_read, which read the scratch and an image. Each is one
// call of std's `get` under the name that its definition has (`byte_of`, `get_or`, `word`), and contracts name it; one generic function
// would bring a bound `Copy` and a parameter for what stands past the end, and is the same line.
pub fn byte(s: &[u8], i: usize) -> u8
    ensures { result ≡ byte_of s.now i }
{
    s.get(i).copied().unwrap_or(0)
}

// A word of which the string has all four bytes.
// Kept: beside `four` of crate text, which reads at any byte, and stands on no other crate of code. Each promises the word of its own
// definition (`word`, `four_at`).
pub fn whole(s: &[u8], i: usize) -> u32
    requires { 4 * i + 3 < length s.now }
    ensures { result ≡ word s.now i }
{
    let at = 4 * i;
    u32::from_le_bytes([s[at], s[at + 1], s[at + 2], s[at + 3]])
}

// Word `i` of `s`, 0 where the string does not have it whole.
pub fn word_at(s: &[u8], i: usize) -> u32
    ensures { result ≡ word s.now i }
{
    if i < s.len() / 4 {
        return whole(s, i);
    }
    0
}

// The `len` bytes of `s` from `at` on, or as many of them as there are.
// Kept: three cases by hand. Tried, both ends by `min`: the check of a sheet takes up to 1.2 times as long.
pub fn part(s: &[u8], at: usize, len: usize) -> &[u8]
    ensures { result.now ≡ take len (drop at s.now) }
{
    let n = s.len();
    if n <= at {
        return &s[n..];
    }
    if len <= n - at {
        let end = at + len;
        return &s[at..end];
    }
    &s[at..]
}

// The number that the four bytes of a word stand for.
pub fn number(bytes: [u8; 4]) -> u32
    ensures { result ≡ front bytes }
{
    u32::from_le_bytes(bytes)
}

// The `n` words of `s` from word `at` on, or as many of them as it has whole, with the four bytes of each: for a loop over them, which
// then asks of none whether the string has it.
pub fn words_from(s: &[u8], at: usize, n: usize) -> &[[u8; 4]]
    requires { at + n < 4611686018427387904 }
    ensures few { length result.now ≤ n }
    ensures each { (i : ℕ) → i < n → front (get_or result.now i []) ≡ word s.now (at + i) }
{
    part(s, 4 * at, 4 * n).as_chunks::<4>().0
}
