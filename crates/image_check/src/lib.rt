// The check of an image and its sheet: whether the image is well made. It reads both, and writes to the lent scratch only.
#![tactic(auto)]

ghost use Rattle.std.specs.Prelude.{◌≡◌, length, Ok};
ghost use Rattle.checks.specs.Checked.{checked};
ghost use Rattle.image_rule.specs.Test.{well_made};
ghost use Rattle.image_check.specs.Answer.{Answers};
ghost use Rattle.image_check.specs.Sizes.{sizes_agree};

use checks::check;
use image_depths::depths_right;
use image_fields::fields_right;
use image_read::Image;
use image_spans::{operands_right, targets_right};
use lowering::SIZES;
use refusals::Refusal;
use zeros::zero;

// The twelve sizes are there, and the length is what they say.
fn sizes_agree(image: &[u32]) -> bool
    ensures { result ≡ sizes_agree image.now }
{
    (SIZES <= image.len()) & (image.len() == Image::of(image).end())
}

// Whether the image `image` is well made for the sheet `sheet`, found in a scratch of as many words. Each test may rely on those before it.
// Kept: sheet, image and scratch apart, here and below, as in to_image, where it was tried. Of a field whose words were lent they are not
// known behind the loan, and here the scratch is lent part by part.
fn well_made(sheet: &[u8], image: &[u32], scratch: &mut [u32]) -> bool
    ensures { let image = image.now in
        (length scratch.old ≡ length image → result ≡ well_made sheet.now image) }
{
    sizes_agree(image)
        && fields_right(sheet, image)
        && operands_right(image, scratch)
        && targets_right(image, scratch)
        && depths_right(image, scratch)
}

// An image beside an accepted sheet: 11 for a scratch that has fewer words than the image, 13, or nothing. The scratch is
// kept under 11, and zeroed else.
fn judge(sheet: &[u8], image: &[u32], scratch: &mut [u32]) -> Result<(), Refusal>
    ensures { let sheet = sheet.now in (checked sheet ≡ Ok tt → Answers sheet image.now scratch.old result scratch.new) }
{
    let m = image.len();
    // Kept: no `get_mut(..m)`. Tried: std's contract of it does not say what the slice ends as, not even where it has no such part, and
    // under 11 the scratch has to be as it was.
    let Some((part, _)) = scratch.split_at_mut_checked(m) else {
        return Err(Refusal::ScratchShort);
    };
    let made = well_made(sheet, image, part);
    zero(scratch);
    if made {
        return Ok(());
    }
    Err(Refusal::IllMade)
}

// Accepts an image that is well made; else the first that fits of the sheet's refusals 1 to 8 (14 among them), 11 and 13. The scratch is
// kept under these of the sheet and under 11, and zeroed else.
pub fn check_image(sheet: &[u8], image: &[u32], scratch: &mut [u32]) -> Result<(), Refusal>
    ensures { Answers sheet.now image.now scratch.old result scratch.new }
{
    check(sheet)?;
    judge(sheet, image, scratch)
}
