// Bytes from a reader, as standard input: the programs read a whole sheet, or a record, into memory that they have.
#![tactic(auto)]

ghost use Rattle.std.specs.Prelude.{ℕ, ◌≤◌, ◌<◌, ◌≡◌, List, take, length, false, IfOk, IfSome, MatchOption};
ghost use Rattle.std.specs.Int.{from_bool};
ghost use Rattle.std.specs.Io.KnownBytes.{Consumes, IsAtEnd};

use std::io;
use std::io::Read;

// Reads until the buffer is full or the reader ends, and answers how many bytes there are now.
// Kept: a loop over `read`, which says by how many bytes it goes on. std's `read_exact` refuses a reader that ends before.
pub fn read_full<R: Read>(reader: &mut R, buf: &mut [u8]) -> io::Result<usize>
    ensures bound { IfOk result (λ n. n ≤ length buf.old) }
    ensures bytes { IfOk result (λ n. Consumes (R.remaining reader.old) (R.remaining reader.new) (take n buf.new)) }
    ensures end { IfOk result (λ n. n < length buf.old → IsAtEnd (R.remaining reader.new)) }
{
    let mut n = 0;
    while n < buf.len() {
        let got = reader.read(&mut buf[n..])?;
        if got == 0 {
            return Ok(n);
        }
        n += got;
    }
    Ok(n)
}

// Whether the reader has a byte left, which is read.
pub fn more<R: Read>(reader: &mut R) -> io::Result<bool>
    ensures byte { IfOk result (λ there. (byte : List ℕ) × Consumes (R.remaining reader.old) (R.remaining reader.new) byte
        × (length byte ≡ from_bool there)) }
    ensures end { IfOk result (λ there. there ≡ false → IsAtEnd (R.remaining reader.new)) }
{
    let mut one = [0u8; 1];
    let n = read_full(reader, &mut one)?;
    Ok(n != 0)
}

// All that the reader has left, where `buf` has room for it: none where it is longer.
pub fn read_whole<'a, R: Read>(reader: &mut R, buf: &'a mut [u8]) -> io::Result<Option<&'a [u8]>>
    ensures room { IfOk result (λ whole. IfSome whole (λ bytes. length bytes.now ≤ length buf.old)) }
    ensures bytes { IfOk result (λ whole. IfSome (R.remaining reader.old)
        (λ left. MatchOption whole (length buf.old < length left) (λ bytes. bytes.now ≡ left))) }
    ensures end { IfOk result (λ whole. IfSome whole (λ bytes. IsAtEnd (R.remaining reader.new))) }
{
    let n = read_full(reader, buf)?;
    if more(reader)? {
        return Ok(None);
    }
    Ok(Some(&buf[..n]))
}
