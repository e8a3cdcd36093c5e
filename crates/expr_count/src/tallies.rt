// Tallies: counts that are cut off at a bound, so that no sum overflows.
ghost use Rattle.std.specs.Prelude.{◌≡◌, ◌+◌, ◌*◌, min};
ghost use Rattle.expr_count.specs.Limits.{cap};
ghost use Rattle.expr_count.specs.Tally as tallies;

// where counts are cut off
const CAP: u64 = 16777216;

// How many instructions a lowering gives, how many it emits (those that are taken back included), and whether it reaches an `eval`.
// Kept: no ghost fact that a sum is at most `cap`. `instructions` gives any word.
#[derive(Clone, Copy)]
pub struct Tally {
    pub len: u64,
    pub emitted: u64,
    pub defeated: bool,
}

// A sum, cut off.
fn add(a: u64, b: u64) -> u64
    ensures { result ≡ min (a + b) cap }
{
    a.saturating_add(b).min(CAP)
}

// `k` instructions.
fn emitted(k: u64) -> Tally
    ensures { result ≡ tallies.instructions k }
{
    Tally {
        len: k,
        emitted: k,
        defeated: false,
    }
}

// `n` instructions.
pub fn instructions(n: u32) -> Tally
    ensures { result ≡ tallies.instructions n }
{
    emitted(u64::from(n))
}

// `n` instructions, and `gap` more for each of `m`.
pub(crate) fn spaced(n: u32, gap: u32, m: u32) -> Tally
    ensures { result ≡ tallies.instructions (n + gap * m) }
{
    emitted(u64::from(n) + u64::from(gap) * u64::from(m))
}

// No instruction.
pub fn nothing() -> Tally
    ensures { result ≡ tallies.nothing }
{
    instructions(0)
}

// The residual that an `eval` stays.
pub(crate) fn evaluation() -> Tally
    ensures { result ≡ tallies.evaluation }
{
    Tally {
        len: 1,
        emitted: 1,
        defeated: true,
    }
}

// Both.
pub fn plus(a: Tally, b: Tally) -> Tally
    ensures { result ≡ tallies.capped (tallies.plus a b) }
{
    Tally {
        len: add(a.len, b.len),
        emitted: add(a.emitted, b.emitted),
        defeated: a.defeated | b.defeated,
    }
}

// Code that is taken back stays emitted.
pub(crate) fn taken_back(a: Tally) -> Tally
    ensures { result ≡ tallies.taken_back a }
{
    Tally {
        len: 0,
        emitted: a.emitted,
        defeated: a.defeated,
    }
}
