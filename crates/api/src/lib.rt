// What programs in other languages link: numbers and slices only.
// Kept: a refusal by its number, 0 where there is none, and words that are 0 under a refusal. The C interface has no Result.
#![tactic(auto)]

ghost use Rattle.std.specs.Prelude.{◌≡◌};
ghost use Rattle.checks.specs.Checked.{verdict_number, checked};
ghost use Rattle.api.specs.Given.{Given};
ghost use Rattle.api.specs.Asked.{Asked};
ghost use Rattle.api.specs.Judged.{Judged};

use checks::check;
use image_check::check_image;
use needs::needs;
use refusals::number;
use to_image::lower;

// The number of the first refusal among 1 to 8 (14 among them) that fits the bytes of `sheet`, or 0.
#[unsafe(no_mangle)]
pub extern "C" fn sheet_check(sheet: &[u8]) -> u32
    ensures { result ≡ verdict_number (checked sheet.now) }
{
    number(&check(sheet))
}

// What `sheet` needs before buffers are lent: 0, and `words` gets the words of scratch that its lowering asks for; or the number of the
// first refusal among 1 to 10 (14 among them) that fits, and `words` gets 0.
#[unsafe(no_mangle)]
pub extern "C" fn sheet_needs(sheet: &[u8], words: &mut u64) -> u32
    ensures { Asked sheet.now result words.new }
{
    let need = needs(sheet);
    *words = need.unwrap_or(0);
    number(&need)
}

// Lowers `sheet` into `image`: 0, or the number of the first refusal among 1 to 12 (14 among them) that fits. `words` gets the image's
// word count, 0 under a refusal.
#[unsafe(no_mangle)]
pub extern "C" fn sheet_lower(
    sheet: &[u8],
    image: &mut [u32],
    scratch: &mut [u32],
    words: &mut u64,
) -> u32
    ensures { Given sheet.now image.old scratch.old result words.new image.new
        scratch.new }
{
    let a = lower(sheet, image, scratch);
    *words = a.unwrap_or(0) as u64;
    number(&a)
}

// Whether `image`, exactly its words, is well made for `sheet`: 0, or the first that fits of the sheet's refusals 1 to 8 (14 among them),
// 11 for a scratch shorter than the image, and 13.
#[unsafe(no_mangle)]
pub extern "C" fn sheet_check_image(sheet: &[u8], image: &[u32], scratch: &mut [u32]) -> u32
    ensures { Judged sheet.now image.now scratch.old result scratch.new }
{
    number(&check_image(sheet, image, scratch))
}
