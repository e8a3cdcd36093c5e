// Replays answers of the oracle. Standard input holds the count of records, then each record: the expected number, the sheet's length in
// bytes, and the sheet padded with zeros to a word. Prints how many answers were the same, and how many were not.
#![tactic(auto)]

use checks::check;
use refusals::number;
use replay_records::{agreeing, fill, read_sheet, replay};
use std::io;
use std::io::{Read, writer};
use words::word_at;

// The records that are read, and room for a sheet: one for all records, since to clear it anew takes as long as to check a small sheet.
#[derive(Drop)]
struct Records<'a, R> {
    reader: &'a mut R,
    sheet: [u8; 65536],
}

// Reads a record and compares. A record that is cut off, or too long, does not agree.
// Kept: the head has a buffer of its own, since how long the sheet is stands in it. The number that is expected is a word of the record, 0
// for no refusal: as a `Result` it would be made by a table of the 14 numbers, with a case for each other word, to be compared once.
fn compare_one<R: Read>(records: &mut Records<R>) -> io::Result<bool> {
    let mut head = [0u8; 8];
    let Some(head) = fill(records.reader, &mut head, 8)? else {
        return Ok(false);
    };
    let Some(sheet) = read_sheet(records.reader, &mut records.sheet, word_at(head, 1))? else {
        return Ok(false);
    };
    Ok(number(&check(sheet)) == word_at(head, 0))
}

// Kept: replay_lower has these lines too. What both share is `replay` and `agreeing`; a `main` is its program's own.
fn main(rt: HostRuntime) -> io::Result<()> {
    replay(&mut rt.reader(), &mut writer(&rt), |reader, most| {
        let mut records = Records {
            reader,
            sheet: [0; 65536],
        };
        agreeing(&mut records, most, compare_one)
    })
}
