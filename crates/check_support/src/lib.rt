// Refusal 8: a kind that is known only to be refused; an FnCall `curry` with over one argument.
#![tactic(auto)]

ghost use Rattle.std.specs.Prelude.{◌≡◌};
ghost use Rattle.check_support.specs.Support as support;

use sheet::kinds::{FN_CALL, LAST_KIND, MAP};
use sheet::{count, field_a, kind, node_count};
use text::is_curry;

// Map, block, DynamicConstant.
fn refused_kind(k: u32) -> bool
    ensures { result ≡ support.refused_kind k }
{
    (MAP <= k) & (k <= LAST_KIND)
}

// Node `n` is an FnCall `curry` with over one argument.
// Kept: by the node's number, as the definition has it; check_pass asks the same of a `Node` (`call_ok`). One function for both would be of
// a `Node`: eight words would be read here for three, and the question of the text would stand apart (`inline(never)`) as there.
fn long_curry(sheet: &[u8], n: u32) -> bool
    ensures { result ≡ support.long_curry sheet.now n }
{
    let k = kind(sheet, n);
    let m = count(sheet, n);
    if (k == FN_CALL) & (1 < m) {
        return is_curry(sheet::text(sheet, field_a(sheet, n)));
    }
    false
}

// Node `n` can be lowered.
fn supported(sheet: &[u8], n: u32) -> bool
    ensures { result ≡ support.supported sheet.now n }
{
    let refused = refused_kind(kind(sheet, n));
    let long = long_curry(sheet, n);
    (!refused) & (!long)
}

// Nothing of refusal 8.
pub fn supported_ok(sheet: &[u8]) -> bool
    ensures { result ≡ support.supported_ok sheet.now }
{
    (0..node_count(sheet)).all(|n| supported(sheet, n))
}
