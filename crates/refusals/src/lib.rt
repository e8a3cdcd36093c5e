// Why something is refused: the refusals of documents 01 and 02, in one type.
#![tactic(auto)]

ghost use Rattle.std.specs.Prelude.{◌≡◌, Some};
ghost use Rattle.refusals.specs.Refusal.{refusal_number, refusal_text, number_of};

use std::error::Error;
use std::fmt;

// The cause: in the sheet (Size to Unsupported), of its lowering (Eval, Emitted), in a lent buffer (ScratchShort,
// ImageLong), in a lent image (IllMade). They stand in the order in which they are asked. Each has the number of its refusal; 0 is no
// refusal. Where 1 to 8, 1 to 10, 1 to 11 or 1 to 12 is said of refusals, here and elsewhere, 14 (EmptyName) is among them.
#[derive(Clone, Copy, Debug, PartialEq, Eq)]
pub enum Refusal {
    Size = 1,
    Shape = 2,
    Text = 3,
    Number = 4,
    EmptyName = 14,
    Depth = 5,
    Arms = 6,
    Twice = 7,
    Unsupported = 8,
    Eval = 9,
    Emitted = 10,
    ScratchShort = 11,
    ImageLong = 12,
    IllMade = 13,
}

impl From<Refusal> for u32 {
    ghost from_gives = { λ r n. n ≡ refusal_number r };

    fn from(r: Refusal) -> u32 {
        r as u32
    }
}

impl fmt::Display for Refusal {
    ghost output = { λ r. Some (refusal_text r) };

    fn fmt<W: fmt::Write>(&self, f: &mut fmt::Formatter<W>) -> fmt::Result {
        write!(f, "refused {}", u32::from(*self))
    }
}

impl Error for Refusal {}

// The number of an answer: 0, or that of its refusal.
// Kept: a number, and 0 for no refusal: the C interface has no Result.
pub fn number<T>(answer: &Result<T, Refusal>) -> u32
    ensures { result ≡ number_of answer.now }
{
    match answer {
        Ok(_) => 0,
        Err(r) => u32::from(*r),
    }
}
