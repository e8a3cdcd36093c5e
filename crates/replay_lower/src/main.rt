// Replays lowerings of the oracle. Standard input holds the count of records, then each record: the image's room in words, the scratch's
// room, the expected number, the word count, that many image words, the sheet's length in bytes, and the sheet padded with zeros to a word.
// Compares the answer, every word of the image's room, every word of the scratch, and what the sheet is said to need. Prints how many
// records were the same, and how many were not.
#![tactic(auto)]

ghost use Rattle.std.specs.Prelude.{length, get_or, eqb, ◌/◌, ◌≡◌};
ghost use Rattle.words.specs.Count.{all_below};
ghost use Rattle.replay_lower.specs.Left as left;

use needs::needs;
use refusals::{Refusal, number};
use replay_records::{agreeing, fill, left_as, noise, put_noise, read_sheet, replay};
use std::io;
use std::io::{Read, writer};
use to_image::lower;
use words::word_at;

// The answer has this number and this word count.
fn answered(a: Result<usize, Refusal>, expected: u32, count: usize) -> bool
    ensures { result ≡ left.answered a expected count }
{
    (number(&a) == expected) & (a.unwrap_or(0) == count)
}

// With `room` words of scratch the need of the sheet foretells this number.
fn foretold(need: Result<u64, Refusal>, room: usize, expected: u32) -> bool
    ensures { result ≡ left.foretold need room expected }
{
    match need {
        Ok(words) => {
            (((room as u64) < words) & (expected == u32::from(Refusal::ScratchShort)))
                | ((words <= (room as u64))
                    & ((expected == 0) | (expected == u32::from(Refusal::ImageLong))))
        }
        Err(by) => u32::from(by) == expected,
    }
}

// Word `i` of the image's room after a lowering: one of the wanted words, or what was there.
fn image_word(wanted: &[u8], i: usize) -> u32
    ensures { result ≡ left.image_word wanted.now (length wanted.now / 4) i }
{
    let count = wanted.len() / 4;
    if i < count {
        return word_at(wanted, i);
    }
    noise(i)
}

// Each word of the image's room is as it must be.
// Kept: `left_as` has this line too; what differs is the closure, and that is all that a generic one would be handed.
fn image_same(image: &[u32], wanted: &[u8]) -> bool
    ensures { result ≡ all_below (length image.now)
        (λ i. eqb (get_or image.now i 0) (left.image_word wanted.now (length wanted.now / 4) i)) }
{
    image
        .iter()
        .enumerate()
        .all(|(i, w)| *w == image_word(wanted, i))
}

// What a record wants: words of room for the image and for the scratch, the number of the answer, and the words of the image in bytes.
// Kept: the number is a word of the record, 0 for no refusal. As a `Result` it would be made by a table of the 14 numbers, with a case for
// each other word, and `answered` and `foretold` would compare that with numbers again.
#[derive(Clone, Copy)]
struct Wanted<'a> {
    image: usize,
    scratch: usize,
    number: u32,
    words: &'a [u8],
}

// The lowering of `sheet` answers and leaves what it must, and the need of `sheet` foretells the number.
fn lowers(sheet: &[u8], image: &mut [u32], scratch: &mut [u32], wanted: Wanted) -> bool {
    put_noise(image);
    put_noise(scratch);
    let number = wanted.number;
    let count = wanted.words.len() / 4;
    let answer = answered(lower(sheet, image, scratch), number, count);
    let words = image_same(&image[..], wanted.words);
    let rest = left_as(
        &scratch[..],
        (number == 0) | (number == u32::from(Refusal::ImageLong)),
    );
    let need = foretold(needs(sheet), scratch.len(), number);
    answer & words & rest & need
}

// The same in buffers of the size that is wanted, where there is room for them.
// Kept: beside that of replay_image, where it is said why. Image and scratch are two buffers, as the C interface has them.
fn agrees(sheet: &[u8], wanted: Wanted) -> bool {
    let mut image = [0u32; 20480];
    let mut scratch = [0u32; 20480];
    let Some(image) = image.get_mut(..wanted.image) else {
        return false;
    };
    let Some(scratch) = scratch.get_mut(..wanted.scratch) else {
        return false;
    };
    lowers(sheet, image, scratch, wanted)
}

// Reads the sheet of a record, behind what is wanted, and compares.
// Kept: here and below a head and what is behind it are read into two buffers. How long the second part is stands in the first.
fn compare_sheet<R: Read>(reader: &mut R, wanted: Wanted) -> io::Result<bool> {
    let mut size = [0u8; 4];
    let mut sheet = [0u8; 65536];
    let Some(size) = fill(reader, &mut size, 4)? else {
        return Ok(false);
    };
    let Some(sheet) = read_sheet(reader, &mut sheet, word_at(size, 0))? else {
        return Ok(false);
    };
    Ok(agrees(sheet, wanted))
}

// Reads a record and compares. A record that is cut off, or too long, does not agree.
fn compare_one<R: Read>(reader: &mut R) -> io::Result<bool> {
    let mut head = [0u8; 16];
    let mut words = [0u8; 65536];
    let Some(head) = fill(reader, &mut head, 16)? else {
        return Ok(false);
    };
    let Some(words) = fill(reader, &mut words, 4 * word_at(head, 3) as usize)? else {
        return Ok(false);
    };
    let wanted = Wanted {
        image: word_at(head, 0) as usize,
        scratch: word_at(head, 1) as usize,
        number: word_at(head, 2),
        words,
    };
    compare_sheet(reader, wanted)
}

fn main(rt: HostRuntime) -> io::Result<()> {
    replay(&mut rt.reader(), &mut writer(&rt), |reader, most| {
        agreeing(reader, most, compare_one)
    })
}
