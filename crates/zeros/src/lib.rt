// Lent words set to 0.
#![tactic(auto)]

ghost use Rattle.zeros.specs.Zeros.{Zeroed};

// Every word of `out` becomes 0.
pub fn zero(out: &mut [u32])
    ensures { Zeroed out.old out.new }
{
    out.fill(0);
}
