// The sheets of the edges. Node n has position n + 1.
ghost use Rattle.std.specs.Prelude.{◌+◌, ◌*◌, ◌<◌, ◌≤◌, ◌≡◌};
ghost use Rattle.edges.specs.Sums as sums;

use sheet::kinds::{
    ARRAY, COALESCE, DOT, FN_CALL, INT, INTERPOLATED, METHOD_CALL, RANGE, SWITCH, THIS, UNIT,
};
use sheet::limits::{HEADER_WORDS, NODE_WORDS};
use words::word_at;

// words of a node and of its position
const PLACED: usize = NODE_WORDS + 1;

// No sheet of the edges has more of anything, nor more ranges.
// Kept: the bound is asked of the private functions below, and `Made::put` cuts to it. A type for it would be taken apart in each.
const MOST: u32 = 100000;

const MOST_RANGES: u32 = 100;

// Word `i` of the sheet; nothing past its end.
fn put(sheet: &mut [u8], i: usize, w: u32) {
    if i < sheet.len() / 4 {
        sheet[4 * i..4 * i + 4].copy_from_slice(&w.to_le_bytes());
    }
}

// Node `n`, with no fields but `a` and `b`, and no namespace.
fn put_node(sheet: &mut [u8], n: u32, kind: u32, span: u32, count: u32, a: u32, b: u32) {
    let at = HEADER_WORDS + NODE_WORDS * n as usize;
    put(sheet, at, kind);
    put(sheet, at + 1, span);
    put(sheet, at + 2, count);
    put(sheet, at + 3, a);
    put(sheet, at + 4, b);
    put(sheet, at + 5, 0);
    put(sheet, at + 6, 0);
    put(sheet, at + 7, 0);
}

// The nodes from `from` up to `to`, without `to`, as leaves of a kind.
fn put_leaves(sheet: &mut [u8], from: u32, to: u32, kind: u32) {
    for n in from..to {
        put_node(sheet, n, kind, 1, 0, 0, 0);
    }
}

// The positions of `nodes` nodes.
fn put_positions(sheet: &mut [u8], nodes: u32) {
    let at = HEADER_WORDS + NODE_WORDS * nodes as usize;
    for n in 0..nodes {
        put(sheet, at + n as usize, n + 1);
    }
}

// The sizes and the positions of a sheet without locals.
fn put_frame(sheet: &mut [u8], nodes: u32, texts: u32, bytes: u32) {
    put(sheet, 0, nodes);
    put(sheet, 1, texts);
    put(sheet, 2, bytes);
    put(sheet, 3, 0);
    put_positions(sheet, nodes);
}

// A sheet with one text, of 1 to 4 bytes.
fn put_text(sheet: &mut [u8], nodes: u32, text: &str) {
    let bytes = text.len().min(4) as u32;
    put_frame(sheet, nodes, 1, bytes);
    let at = HEADER_WORDS + PLACED * nodes as usize;
    put(sheet, at, 0);
    put(sheet, at + 1, bytes);
    put(sheet, at + 2, word_at(text.as_bytes(), 0));
}

// The bytes of a sheet of so many nodes and texts of up to four bytes.
fn size(nodes: u32, texts: u32) -> usize
    ensures { result ≡ sums.sheet_bytes nodes texts }
{
    4 * (HEADER_WORDS + PLACED * nodes as usize + 3 * texts as usize)
}

// Arrays of one element within one another, as the nodes below `last`; what the last one holds is node `last`.
fn put_nested(sheet: &mut [u8], last: u32)
    requires { last ≤ 100000 }
{
    for n in 0..last {
        put_node(sheet, n, ARRAY, last + 1 - n, 1, 0, 0);
    }
}

// Arrays of one element within one another, and a Unit: a tree of depth `last` + 1.
fn deep(sheet: &mut [u8], last: u32) -> u32
    requires { last ≤ 100000 }
    ensures { result ≡ last + 1 }
{
    put_frame(sheet, last + 1, 0, 0);
    put_nested(sheet, last);
    put_node(sheet, last, UNIT, 1, 0, 0, 0);
    last + 1
}

// An array of `n` Units.
// Kept: `call` ends as this does, at another kind. A function of both ends would be longer than what it saves in both.
fn array(sheet: &mut [u8], n: u32) -> u32
    requires { n ≤ 100000 }
    ensures { result ≡ n + 1 }
{
    put_frame(sheet, n + 1, 0, 0);
    put_node(sheet, 0, ARRAY, n + 1, n, 0, 0);
    put_leaves(sheet, 1, n + 1, UNIT);
    n + 1
}

// A Coalesce of `units` Units and then `empty` empty interpolations. Each emits 1 or 2, and all but the last 2 more.
fn coalesce(sheet: &mut [u8], units: u32, empty: u32) -> u32
    requires units_bound { units ≤ 100000 }
    requires empty_bound { empty ≤ 100000 }
    ensures { result ≡ units + empty + 1 }
{
    let nodes = units + empty + 1;
    put_frame(sheet, nodes, 0, 0);
    put_node(sheet, 0, COALESCE, nodes, units + empty, 0, 0);
    put_leaves(sheet, 1, units + 1, UNIT);
    put_leaves(sheet, units + 1, nodes, INTERPOLATED);
    nodes
}

// A call of a function with `n` Units.
fn call(sheet: &mut [u8], name: &str, n: u32) -> u32
    requires { n ≤ 100000 }
    ensures { result ≡ n + 1 }
{
    put_text(sheet, n + 1, name);
    put_node(sheet, 0, FN_CALL, n + 1, n, 0, 0);
    put_leaves(sheet, 1, n + 1, UNIT);
    n + 1
}

// A call of a method of `this` with `n` Units.
fn method(sheet: &mut [u8], name: &str, n: u32) -> u32
    requires { n ≤ 100000 }
    ensures { result ≡ n + 3 }
{
    put_text(sheet, n + 3, name);
    put_node(sheet, 0, DOT, n + 3, 2, 0, 0);
    put_node(sheet, 1, THIS, 1, 0, 0, 0);
    put_node(sheet, 2, METHOD_CALL, n + 1, n, 0, 0);
    put_leaves(sheet, 3, n + 3, UNIT);
    n + 3
}

// Range `i`, at node `n`: from i to 200 - i, inclusive where i is odd.
fn put_range(sheet: &mut [u8], n: u32, i: u32)
    requires n_bound { n ≤ 100000 }
    requires i_bound { i ≤ 100 }
{
    put_node(sheet, n, RANGE, 3, 2, i % 2, 0);
    put_node(sheet, n + 1, INT, 1, 0, i, 0);
    put_node(sheet, n + 2, INT, 1, 0, 200 - i, 0);
}

// The `n` ranges, from node 4 on.
fn put_ranges(sheet: &mut [u8], n: u32)
    requires { n ≤ 100 }
{
    for i in 0..n {
        put_range(sheet, 3 * i + 4, i);
    }
}

// A switch on Unit with one block, whose guard is `this`, and `n` ranges of it within one another.
fn ranges(sheet: &mut [u8], n: u32) -> u32
    requires { n ≤ 100 }
    ensures { result ≡ 3 * n + 4 }
{
    let nodes = 3 * n + 4;
    put_frame(sheet, nodes, 0, 0);
    put_node(sheet, 0, SWITCH, nodes, n + 3, 1, 0);
    put_node(sheet, 1, UNIT, 1, 0, 0, 0);
    put_node(sheet, 2, THIS, 1, 0, 0, 0);
    put_node(sheet, 3, UNIT, 1, 0, 0, 0);
    put_ranges(sheet, n);
    nodes
}

// What a sheet of the edges holds.
#[derive(Clone, Copy)]
pub(crate) enum Made {
    Deep(u32),
    Array(u32),
    Coalesce { units: u32, empty: u32 },
    Call { name: &'static str, n: u32 },
    Method { name: &'static str, n: u32 },
    Ranges(u32),
}

impl Made {
    // Writes the sheet to the front of `sheet`, and answers how many bytes it has.
    // Kept: a row says its sheet as data, which maker and which numbers. In a table of closures or of `fn` each row would be a function
    // that says the same, and `rooms` makes one of its own.
    pub(crate) fn put(self, sheet: &mut [u8]) -> usize {
        match self {
            Made::Deep(last) => size(deep(sheet, last.min(MOST)), 0),
            Made::Array(n) => size(array(sheet, n.min(MOST)), 0),
            Made::Coalesce { units, empty } => {
                size(coalesce(sheet, units.min(MOST), empty.min(MOST)), 0)
            }
            Made::Call { name, n } => size(call(sheet, name, n.min(MOST)), 1),
            Made::Method { name, n } => size(method(sheet, name, n.min(MOST)), 1),
            Made::Ranges(n) => size(ranges(sheet, n.min(MOST_RANGES)), 0),
        }
    }
}
