// Reads a sheet from standard input and prints `accepted`, or `refused` and the number. A sheet of over 65,536 bytes is refused with 1.
#![tactic(auto)]

ghost use Rattle.std.specs.Prelude.{IfSome, OnOk};
ghost use Rattle.std.specs.Io.KnownBytes.{Appends};
ghost use Rattle.sheetcheck.specs.Said.{said};

use checks::check;
use input::read_whole;
use refusals::Refusal;
use std::io;
use std::io::{Read, Write, writer};

// Checks the sheet that the reader holds, and writes the answer.
// Kept: a `Result` of std has no Display; the refusal has one.
// Kept: lower_io has these lines too. What both share is `read_whole`; what is written differs.
fn answer<R: Read, W: Write>(reader: &mut R, writer: &mut W) -> io::Result<()>
    ensures { OnOk result (IfSome (R.remaining reader.old) (λ input.
        Appends (W.contents writer.old) (W.contents writer.new) (said input))) }
{
    let mut sheet = [0u8; 65536];
    let Some(sheet) = read_whole(reader, &mut sheet)? else {
        return writeln!(writer, "{}", Refusal::Size);
    };
    match check(sheet) {
        Ok(()) => writeln!(writer, "accepted"),
        Err(by) => writeln!(writer, "{by}"),
    }
}

fn main(rt: HostRuntime) -> io::Result<()> {
    answer(&mut rt.reader(), &mut writer(&rt))
}
