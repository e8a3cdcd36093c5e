// Ranges of numbers asked for their maximum, each in as many steps as a tree over the numbers is high.
#![tactic(auto)]

ghost use Rattle.std.specs.Prelude.{◌≡◌, ◌/◌, ◌≤◌, length};
ghost use Rattle.image_maxima.specs.Tree.{Tree, Built, leaves_up_to};

// The tree over the leaves that stand in the second half of `t`, which is kept.
// Kept: a tree in one slice, number k above 2 k and 2 k + 1: it lies in the lent scratch, and there is no heap. By index, since each turn
// reads two numbers and writes a third.
pub fn build(t: &mut [u32])
    ensures { Built t.old t.new (length t.old / 2) }
{
    for k in (1..t.len() / 2).rev() {
        t[k] = t[2 * k].max(t[2 * k + 1]);
    }
}

// Whether leaves `a` to `b` - 1 are at most `x`. Both ends of a level are tested, what lies between by the level above.
pub fn all_at_most(t: &[u32], a: usize, b: usize, x: u32) -> bool
    ensures { let size = length t.now / 2 in (Tree t.now size → b ≤ size → result ≡ leaves_up_to t.now size a b x) }
{
    let size = t.len() / 2;
    if size < b {
        return false;
    }
    if b <= a {
        return true;
    }
    // Kept: the loop counts no index. Both ends are halved together, level by level, so there is no range or item to go over.
    let mut l = a + size;
    let mut r = b + size;
    while l < r {
        if x < t[l] {
            return false;
        }
        if x < t[r - 1] {
            return false;
        }
        l = (l + 1) / 2;
        r = r / 2;
    }
    true
}
