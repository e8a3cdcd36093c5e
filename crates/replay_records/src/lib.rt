// What the programs that replay answers of the oracle share: a replay, with how many records agree; reading a record; noise in lent
// buffers, and what is left there.
#![tactic(auto)]

ghost use Rattle.std.specs.Prelude.{Some, ◌-◌, ◌≤◌, ◌<◌, length, get_or, eqb, ◌≡◌, ℕ, IsNone, IfOk, IfErr, IfSome, OnOk, ◌⊎◌};
ghost use Rattle.std.specs.Io.KnownBytes.{Consumes};
ghost use Rattle.replay_records.specs.Agreed.{Agreed, Stopped};
ghost use Rattle.replay_records.specs.Replayed.{Replayed};
ghost use Rattle.replay_records.specs.Sheets.{SheetRead, padded};
ghost use Rattle.replay_records.specs.Counted.{counted_text};
ghost use Rattle.words.specs.Count.{all_below};
ghost use Rattle.replay_records.specs.Left as left;

use input::read_full;
use std::io::{Read, Write};
use std::{fmt, io};
use words::word_at;

// Reads `n` bytes to the start of `buf`: none where they are not there, or `buf` has no room for them.
pub fn fill<'a, R: Read>(
    reader: &mut R,
    buf: &'a mut [u8],
    n: usize,
) -> io::Result<Option<&'a [u8]>>
    ensures room { IfOk result (λ part. IfSome part (λ bytes. n ≤ length buf.old)) }
    ensures size { IfOk result (λ part. IfSome part (λ bytes. length bytes.now ≡ n)) }
    ensures bytes { IfOk result (λ part. IfSome part (λ bytes. Consumes (R.remaining reader.old) (R.remaining reader.new) bytes.now)) }
    ensures short { IfOk result (λ part. IsNone part → n ≤ length buf.old → IfSome (R.remaining reader.old) (λ left. length left < n)) }
{
    let Some(part) = buf.get_mut(..n) else {
        return Ok(None);
    };
    let got = read_full(reader, part)?;
    if got == n {
        return Ok(Some(part));
    }
    Ok(None)
}

// Reads a sheet of `n` bytes to the start of `buf`, with the bytes that pad it to a word: none where they are not there, or `buf` has no
// room for them.
pub fn read_sheet<'a, R: Read>(
    reader: &mut R,
    buf: &'a mut [u8],
    n: u32,
) -> io::Result<Option<&'a [u8]>>
    ensures room { IfOk result (λ part. IfSome part (λ sheet. padded n ≤ length buf.old)) }
    ensures bytes { IfOk result (λ part. IfSome part (λ sheet. SheetRead (R.remaining reader.old) (R.remaining reader.new) n sheet.now)) }
    ensures short { IfOk result (λ part. IsNone part → padded n ≤ length buf.old
        → IfSome (R.remaining reader.old) (λ left. length left < padded n)) }
{
    let n = n as usize;
    let Some(padded) = fill(reader, buf, n.next_multiple_of(4))? else {
        return Ok(None);
    };
    Ok(Some(&padded[..n]))
}

// How many records agree, of how many.
#[derive(Clone, Copy)]
pub struct Counted {
    pub same: u64,
    pub most: u64,
}

impl fmt::Display for Counted {
    ghost output = { λ counted. Some (counted_text counted) };

    fn fmt<W: fmt::Write>(&self, f: &mut fmt::Formatter<W>) -> fmt::Result {
        let same = self.same;
        let different = self.most.saturating_sub(same);
        write!(f, "same {same}\ndifferent {different}")
    }
}

// How many of the next `most` records agree, where `compare` reads one and says whether it does.
pub fn agreeing<R, F: Fn(&mut R) -> io::Result<bool>>(
    reader: &mut R,
    most: u32,
    compare: F,
) -> io::Result<Counted>
    requires { F.IsAlwaysCallable compare }
    ensures ok { IfOk result (λ counted. Agreed (F.post compare) reader.old most counted.same reader.new
        × (counted.most ≡ most)) }
    ensures bound { IfOk result (λ counted. counted.same ≤ most) }
    ensures err { IfErr result (λ e. Stopped (F.post compare) reader.old most e reader.new) }
{
    let mut same = 0;
    for _ in 0..most {
        if compare(reader)? {
            same += 1;
        }
    }
    Ok(Counted {
        same,
        most: u64::from(most),
    })
}

// What stands in word `i` of a buffer before it is lent.
pub fn noise(i: usize) -> u32
    ensures { result ≡ left.noise i }
{
    2863311530 - (i % 65536) as u32
}

// Fills a buffer that is to be lent.
pub fn put_noise(buf: &mut [u32])
    ensures { left.Noisy (length buf.old) buf.new }
{
    for (i, word) in buf.iter_mut().enumerate() {
        *word = noise(i);
    }
}

// Word `i` of a buffer that is zeroed, or is as it was.
fn word_left(zeroed: bool, i: usize) -> u32
    ensures { result ≡ left.word_left zeroed i }
{
    if zeroed { 0 } else { noise(i) }
}

// Word `i`, 0 past the end.
// Kept: a call of std's. image_read and scratch have the like; to import one of them for it would be no plainer.
pub fn word(words: &[u32], i: usize) -> u32
    ensures { result ≡ get_or words.now i 0 }
{
    words.get(i).copied().unwrap_or(0)
}

// Each word of `buf` is as it must be.
pub fn left_as(buf: &[u32], zeroed: bool) -> bool
    ensures { result ≡ all_below (length buf.now) (λ i. eqb (get_or buf.now i 0) (left.word_left zeroed i)) }
{
    buf.iter()
        .enumerate()
        .all(|(i, w)| *w == word_left(zeroed, i))
}

// Replays what the reader holds: how many records there are, then the records, which `compare` reads and counts, and a line of the result.
// Where not even the number of records is there, nothing is written.
pub fn replay<R: Read, W: Write, F: FnOnce(&mut R, u32) -> io::Result<Counted>>(
    reader: &mut R,
    writer: &mut W,
    compare: F,
) -> io::Result<()>
    requires { F.IsAlwaysCallable compare }
    ensures { OnOk result (((writer.new ≡ writer.old) × IfSome (R.remaining reader.old) (λ left. length left < 4))
        ⊎ Replayed R.remaining W.contents (F.post compare) reader.old writer.old reader.new writer.new) }
{
    let mut head = [0u8; 4];
    let Some(head) = fill(reader, &mut head, 4)? else {
        return Ok(());
    };
    let counted = compare(reader, word_at(head, 0))?;
    writeln!(writer, "{counted}")
}
