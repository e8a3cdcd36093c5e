// Refusal 5: depth of the tree above its limit. At most as many levels of calls as the limit has.
#![tactic(auto)]

ghost use Rattle.std.specs.Prelude.{◌≡◌};
ghost use Rattle.check_depth.specs.Depth as depths;

use sheet::limits::MAX_DEPTH;
use sheet::{Siblings, child, count};

// The subtree of node `n` has at most `left` levels.
fn within(left: u32, sheet: &[u8], n: u32) -> bool
    ensures { result ≡ depths.within left sheet.now n }
{
    if left == 0 {
        return false;
    }
    let m = count(sheet, n);
    if m == 0 {
        return true;
    }
    for j in Siblings::new(sheet, m, child(n)) {
        if !within(left - 1, sheet, j) {
            return false;
        }
    }
    true
}

// Nothing of refusal 5.
pub fn depth_ok(sheet: &[u8]) -> bool
    ensures { result ≡ depths.depth_ok sheet.now }
{
    within(MAX_DEPTH, sheet, 0)
}
