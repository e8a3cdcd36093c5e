// The program `lower`, for each crate that runs it on a sheet of its own: `run` reads a sheet from standard input and prints
// the words of its image, or `refused` and the number. The image and the scratch have 16,384 words each. An input of over
// 65,536 bytes is refused with 1.
#![tactic(auto)]

ghost use Rattle.std.specs.Prelude.{List, IfSome, OnOk};
ghost use Rattle.std.specs.Io.KnownBytes.{Appends};
ghost use Rattle.std.specs.List.{flat_map};
ghost use Rattle.lower_io.specs.Said.{word_text, words_text, said};

use input::read_whole;
use refusals::Refusal;
use std::io;
use std::io::{Read, Write, writer};
use to_image::lower;

// Writes the words, with a blank before each.
fn put_rest<W: Write>(writer: &mut W, words: &[u32]) -> io::Result<()>
    ensures { OnOk result (Appends (W.contents writer.old) (W.contents writer.new) (flat_map word_text words.now)) }
{
    for word in words {
        write!(writer, " {word}")?;
    }
    Ok(())
}

// Writes a line of the words, parted by blanks.
// Kept: written one by one. Display would need a type of its own around the slice, for this one line.
fn put_words<W: Write>(writer: &mut W, words: &[u32]) -> io::Result<()>
    ensures { OnOk result (Appends (W.contents writer.old) (W.contents writer.new) (words_text words.now)) }
{
    let Some((first, rest)) = words.split_first() else {
        return writeln!(writer);
    };
    write!(writer, "{first}")?;
    put_rest(writer, rest)?;
    writeln!(writer)
}

// Lowers the sheet that the reader holds, and writes the answer.
// Kept: image and scratch are two buffers, as the C interface has them. A `Result` of std has no Display, and its two cases are written by
// two types.
// Kept: sheetcheck has these lines too. What both share is `read_whole`; what is written differs.
pub fn answer<R: Read, W: Write>(reader: &mut R, writer: &mut W) -> io::Result<()>
    ensures { OnOk result (IfSome (R.remaining reader.old) (λ input.
        Appends (W.contents writer.old) (W.contents writer.new) (said input))) }
{
    let mut sheet = [0u8; 65536];
    let Some(sheet) = read_whole(reader, &mut sheet)? else {
        return writeln!(writer, "{}", Refusal::Size);
    };
    let mut image = [0u32; 16384];
    let mut scratch = [0u32; 16384];
    match lower(sheet, &mut image, &mut scratch) {
        Ok(words) => put_words(writer, &image[..words]),
        Err(by) => writeln!(writer, "{by}"),
    }
}

// What the program does, with the runtime that it is given.
// No clause: std says of no runtime what it reads and prints. `answer` says it of any reader and writer.
pub fn run(rt: &(impl Input + Print)) -> io::Result<()> {
    answer(&mut rt.reader(), &mut writer(rt))
}
