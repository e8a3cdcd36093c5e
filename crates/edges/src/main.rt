// The edges of document 01: each sheet is made by `sheets`, lowered into buffers that hold noise, and answered by one line: the number, the
// word count, a checksum of the image's room and one of the scratch, and for an image its twelve sizes. `oracle edges` prints the same from
// its own sheets.
#![tactic(auto)]

ghost use Rattle.std.specs.Prelude.{◌≡◌};
ghost use Rattle.edges.specs.Sums as sums;

mod sheets;

use lowering::SIZES;
use needs::scratch_words;
use refusals::{Refusal, number};
use replay_records::{put_noise, word};
use sheet::node_count;
use sheets::Made;
use std::io;
use to_image::lower;

// The edges, in the order in which they are printed. With 262,143 instructions the scratch here is too short, so that 11 is the answer, and
// with one more it is 10. 65,535 elements emit 131,071, for which the scratch is too short: 11; 65,536 are kept as one residual. The first
// argument of `call` is the function pointer.
static EDGES: [(&str, Made); 16] = [
    ("depth 64", Made::Deep(63)),
    ("depth 65", Made::Deep(64)),
    ("ranges 64", Made::Ranges(64)),
    ("ranges 65", Made::Ranges(65)),
    (
        "emitted 262143",
        Made::Coalesce {
            units: 3,
            empty: 65534,
        },
    ),
    (
        "emitted 262144",
        Made::Coalesce {
            units: 2,
            empty: 65535,
        },
    ),
    ("elements 65535", Made::Array(65535)),
    ("elements 65536", Made::Array(65536)),
    ("arguments 255", Made::Call { name: "g", n: 255 }),
    ("arguments 256", Made::Call { name: "g", n: 256 }),
    (
        "arguments of call 256",
        Made::Call {
            name: "call",
            n: 256,
        },
    ),
    (
        "arguments of call 257",
        Made::Call {
            name: "call",
            n: 257,
        },
    ),
    (
        "arguments of a method 255",
        Made::Method { name: "g", n: 255 },
    ),
    (
        "arguments of a method 256",
        Made::Method { name: "g", n: 256 },
    ),
    (
        "arguments of the method call 255",
        Made::Method {
            name: "call",
            n: 255,
        },
    ),
    (
        "arguments of the method call 256",
        Made::Method {
            name: "call",
            n: 256,
        },
    ),
];

// A checksum with one word more.
fn mixed(sum: u32, word: u32) -> u32
    ensures { result ≡ sums.mixed sum word }
{
    ((31 * sum as u64 + word as u64) % 4294967291) as u32
}

// The checksum of all words.
fn checksum(words: &[u32]) -> u32
    ensures { result ≡ sums.checksum words.now }
{
    words.iter().fold(0, |sum, word| mixed(sum, *word))
}

// The twelve sizes of an image, as far as it goes.
// Kept: printed one by one. Display would need a type of its own around the slice, for this one line.
fn print_sizes(rt: &impl Print, image: &[u32]) -> io::Result<()> {
    print!(rt; ", sizes")?;
    for size in image.iter().take(SIZES) {
        print!(rt; " {size}")?;
    }
    Ok(())
}

// The line of an edge.
// Kept: no Display, since it is one print of five values that nothing else holds together.
fn print_answer(
    rt: &impl Print,
    label: &str,
    answer: Result<usize, Refusal>,
    image: &[u32],
    scratch: &[u32],
) -> io::Result<()> {
    let number = number(&answer);
    let count = answer.unwrap_or(0);
    let left = checksum(image);
    let used = checksum(scratch);
    print!(rt; "{label}: number {number}, words {count}, image {left}, scratch {used}")?;
    if answer.is_ok() {
        print_sizes(rt, image)?;
    }
    println!(rt;)
}

// Lowers `sheet` into buffers that hold noise, and prints the line of the edge. The answer is the word count, none under a refusal.
// Kept: image and scratch side by side. Tried as a struct of two `&mut`: the borrow checker does not cover parts of both at once.
fn edge(
    rt: &impl Print,
    label: &str,
    sheet: &[u8],
    image: &mut [u32],
    scratch: &mut [u32],
) -> io::Result<Option<usize>> {
    put_noise(image);
    put_noise(scratch);
    let answer = lower(sheet, image, scratch);
    print_answer(rt, label, answer, &image[..], &scratch[..])?;
    Ok(answer.ok())
}

// The same, where there is room for both buffers.
fn within(
    rt: &impl Print,
    label: &str,
    sheet: &[u8],
    image: Option<&mut [u32]>,
    scratch: Option<&mut [u32]>,
) -> io::Result<()> {
    if let Some(image) = image {
        if let Some(scratch) = scratch {
            edge(rt, label, sheet, image, scratch)?;
        }
    }
    Ok(())
}

// The buffers that a sheet asks for: an image that is exactly full with a scratch that is exactly enough; then each with one word less.
// Word 10 is what was emitted, where that is not capped.
fn rooms(
    rt: &impl Print,
    sheet: &mut [u8],
    image: &mut [u32],
    scratch: &mut [u32],
) -> io::Result<()> {
    let n = Made::Ranges(20).put(sheet);
    let Some(sheet) = sheet.get(..n) else {
        return Ok(());
    };
    let x = edge(rt, "ranges 20", sheet, image, scratch)?.unwrap_or(0);
    let y = scratch_words(word(image, 10), node_count(sheet)) as usize;
    let label = "image exactly full, scratch exactly enough";
    within(rt, label, sheet, image.get_mut(..x), scratch.get_mut(..y))?;
    let short = x.saturating_sub(1);
    let label = "image one word short";
    within(
        rt,
        label,
        sheet,
        image.get_mut(..short),
        scratch.get_mut(..y),
    )?;
    let short = y.saturating_sub(1);
    let label = "scratch one word short";
    within(
        rt,
        label,
        sheet,
        image.get_mut(..x),
        scratch.get_mut(..short),
    )
}

// All edges.
fn all(
    rt: &impl Print,
    sheet: &mut [u8],
    image: &mut [u32],
    scratch: &mut [u32],
) -> io::Result<()> {
    for (label, made) in EDGES.iter() {
        let n = made.put(sheet);
        if let Some(sheet) = sheet.get(..n) {
            edge(rt, label, sheet, image, scratch)?;
        }
    }
    rooms(rt, sheet, image, scratch)
}

// The same with room for the longest sheet, of 65,538 nodes, and for the scratch that 65,537 nodes and one instruction ask for.
fn run(
    rt: &impl Print,
    sheet: &mut [u8; 2359384],
    image: &mut [u32; 32768],
    scratch: &mut [u32; 1052704],
) -> io::Result<()> {
    all(rt, sheet, image, scratch)
}

fn main(rt: HostRuntime) -> io::Result<()> {
    let mut sheet = [0u8; 2359384];
    let mut image = [0u32; 32768];
    let mut scratch = [0u32; 1052704];
    run(&rt, &mut sheet, &mut image, &mut scratch)
}
