// Replays image checks of the oracle. Standard input holds the count of sheets, then for each: its length in bytes, the count of its
// records, the sheet padded with zeros to a word, and the records. A record is the image's length in words, the scratch's, the expected
// number, and the image. Compares the number and every word of the scratch. Prints how many records were the same, and how many were not.
#![tactic(auto)]

ghost use Rattle.std.specs.Prelude.{◌≡◌, ◌≤◌, ◌<◌, ◌^◌, IfOk};

use image_check::check_image;
use refusals::Refusal;
use replay_records::{Counted, agreeing, fill, left_as, put_noise, read_sheet, replay};
use std::io;
use std::io::{Read, writer};
use words::word_at;

// Words of room for the image or the scratch of a record.
const ROOM: usize = 8192;

// The words that `bytes` hold, and zeros behind them.
fn put_words(image: &mut [u32], bytes: &[u8]) {
    for (i, word) in image.iter_mut().enumerate() {
        *word = word_at(bytes, i);
    }
}

// The check of `image` beside `sheet` answers and leaves what it must.
// Kept: the number that is expected is a word of the record, 0 where there is no refusal, as in `replay_lower`.
fn checks_as(sheet: &[u8], image: &[u32], scratch: &mut [u32], number: u32) -> bool {
    put_noise(scratch);
    let answer = refusals::number(&check_image(sheet, image, scratch)) == number;
    let rest = left_as(
        &scratch[..],
        (number == 0) | (number == u32::from(Refusal::IllMade)),
    );
    answer & rest
}

// The same of the image whose words `bytes` hold, with `y` words of scratch, where there is room for them.
// Kept: replay_lower has an `agrees` too. One function would take the size as a const parameter and the work as a closure of both slices,
// for four lines in each. Image and scratch are two buffers, as the C interface has them.
fn agrees(sheet: &[u8], bytes: &[u8], y: usize, number: u32) -> bool {
    let mut image = [0u32; ROOM];
    let mut scratch = [0u32; ROOM];
    let Some(image) = image.get_mut(..bytes.len() / 4) else {
        return false;
    };
    let Some(scratch) = scratch.get_mut(..y) else {
        return false;
    };
    put_words(image, bytes);
    checks_as(sheet, image, scratch, number)
}

// Reads a record of `sheet` and compares. A record that is cut off, or too long, does not agree.
// Kept: the head and the image are read into two buffers. How long the second part is stands in the first.
fn compare_one<R: Read>(reader: &mut R, sheet: &[u8]) -> io::Result<bool> {
    let mut head = [0u8; 12];
    let mut bytes = [0u8; 65536];
    let Some(head) = fill(reader, &mut head, 12)? else {
        return Ok(false);
    };
    let n = word_at(head, 0) as usize;
    let y = word_at(head, 1) as usize;
    let Some(bytes) = fill(reader, &mut bytes, 4 * n)? else {
        return Ok(false);
    };
    Ok(agrees(sheet, bytes, y, word_at(head, 2)))
}

// How many of `most` records agree, of the next sheet, of `size` bytes; none where it is not there whole.
fn of_sheet<R: Read>(reader: &mut R, size: u32, most: u32) -> io::Result<Counted>
    ensures same { IfOk result (λ counted. counted.same ≤ most) }
    ensures most { IfOk result (λ counted. counted.most ≡ most) }
{
    let mut sheet = [0u8; 65536];
    let Some(sheet) = read_sheet(reader, &mut sheet, size)? else {
        return Ok(Counted {
            same: 0,
            most: u64::from(most),
        });
    };
    agreeing(reader, most, |reader| compare_one(reader, sheet))
}

// What of the next sheet agrees. A sheet that is missing counts as one record that does not agree.
fn next_sheet<R: Read>(reader: &mut R) -> io::Result<Counted>
    ensures same { IfOk result (λ counted. counted.same < 2 ^ 32) }
    ensures most { IfOk result (λ counted. counted.most < 2 ^ 32) }
{
    let mut head = [0u8; 8];
    let Some(head) = fill(reader, &mut head, 8)? else {
        return Ok(Counted { same: 0, most: 1 });
    };
    of_sheet(reader, word_at(head, 0), word_at(head, 1))
}

// The records of all sheets.
fn of_sheets<R: Read>(reader: &mut R, sheets: u32) -> io::Result<Counted> {
    let mut same = 0;
    let mut most = 0;
    for _ in 0..sheets {
        let next = next_sheet(reader)?;
        same += next.same;
        most += next.most;
    }
    Ok(Counted { same, most })
}

fn main(rt: HostRuntime) -> io::Result<()> {
    replay(&mut rt.reader(), &mut writer(&rt), of_sheets)
}
