// The sheet: its sizes, nodes, positions, texts and locals. Every number is answered, also one that the sheet does not have: what lies
// past the end reads as 0, and a text is cut to the sheet.
#![tactic(auto)]

ghost use Rattle.std.specs.Prelude.{◌≡◌, ◌+◌, ◌*◌, ◌<◌, ◌≤◌, length};
ghost use Rattle.sheet.specs.Sections.{node_count, text_count, byte_count, local_count, positions_at, starts_at, lengths_at, bytes_at};
ghost use Rattle.sheet.specs.Sections.{locals_at};
ghost use Rattle.sheet.specs.Node as nodes;
ghost use Rattle.sheet.specs.Text as texts;
ghost use Rattle.sheet.specs.Namespace as spaces;
ghost use Rattle.sheet.specs.Start as starts;
ghost use Rattle.sheet.specs.Walk as walks;
ghost use Rattle.sheet.specs.Rest.{rest};
ghost use Rattle.std.specs.Iterator.{YieldsFirst, at_most};

pub mod kinds;
pub mod limits;

use kinds::{COALESCE, DOT, FN_CALL, VARIABLE};
use limits::{HEADER_WORDS, NODE_WORDS};
use words::{part, word_at};

// The sizes.
// Kept: a function for each, whose contract names the definition's own reader; one over a number would be
// told apart again in each contract.
pub fn node_count(sheet: &[u8]) -> u32
    ensures { result ≡ node_count sheet.now }
{
    word_at(sheet, 0)
}

pub fn text_count(sheet: &[u8]) -> u32
    ensures { result ≡ text_count sheet.now }
{
    word_at(sheet, 1)
}

pub fn byte_count(sheet: &[u8]) -> u32
    ensures { result ≡ byte_count sheet.now }
{
    word_at(sheet, 2)
}

pub fn local_count(sheet: &[u8]) -> u32
    ensures { result ≡ local_count sheet.now }
{
    word_at(sheet, 3)
}

// Where the sections start, in words.
// Kept: a function for each. It is one sum under the name that its definition has; a struct of all the places would be summed whole where
// one of them is asked for.
fn positions_at(sheet: &[u8]) -> usize
    ensures { (result ≡ positions_at sheet.now) × (result < 40000000000) }
{
    HEADER_WORDS + NODE_WORDS * (node_count(sheet) as usize)
}

fn starts_at(sheet: &[u8]) -> usize
    ensures { (result ≡ starts_at sheet.now) × (result < 50000000000) }
{
    positions_at(sheet) + (node_count(sheet) as usize)
}

pub fn lengths_at(sheet: &[u8]) -> usize
    ensures { (result ≡ lengths_at sheet.now) × (result < 60000000000) }
{
    starts_at(sheet) + (text_count(sheet) as usize)
}

pub fn bytes_at(sheet: &[u8]) -> usize
    ensures { (result ≡ bytes_at sheet.now) × (result < 70000000000) }
{
    lengths_at(sheet) + (text_count(sheet) as usize)
}

// Kept: rounded up by hand, as the definition has it; `pad_ok` of check_sizes has the times with `div_ceil`.
pub fn locals_at(sheet: &[u8]) -> usize
    ensures { (result ≡ locals_at sheet.now) × (result < 80000000000) }
{
    bytes_at(sheet) + ((byte_count(sheet) as usize) + 3) / 4
}

// Which word of a node is which.
// Kept: numbers and no enum. `field` answers for every word, as its definition does, so an enum would be turned back into its number at
// its one use.
const KIND_AT: u32 = 0;

const SPAN_AT: u32 = 1;

const COUNT_AT: u32 = 2;

pub const A_AT: u32 = 3;

const B_AT: u32 = 4;

const C_AT: u32 = 5;

const NAMESPACE_AT: u32 = 6;

const NAMESPACE_POS_AT: u32 = 7;

// Word `f` of node `n`.
// Kept: `word_at` of crate words, and no reader over a slice of words: a sheet is bytes at any address, and need not end with a word.
pub fn field(sheet: &[u8], n: u32, f: u32) -> u32
    ensures { result ≡ nodes.field sheet.now n f }
{
    word_at(
        sheet,
        HEADER_WORDS + NODE_WORDS * (n as usize) + (f as usize),
    )
}

// The words of node `n`.
// Kept: a function for each. It is one read under the name that its definition has; `field` with a number at each call would say less.
pub fn kind(sheet: &[u8], n: u32) -> u32
    ensures { result ≡ nodes.kind sheet.now n }
{
    field(sheet, n, KIND_AT)
}

pub fn span(sheet: &[u8], n: u32) -> u32
    ensures { result ≡ nodes.span sheet.now n }
{
    field(sheet, n, SPAN_AT)
}

pub fn count(sheet: &[u8], n: u32) -> u32
    ensures { result ≡ nodes.count sheet.now n }
{
    field(sheet, n, COUNT_AT)
}

pub fn field_a(sheet: &[u8], n: u32) -> u32
    ensures { result ≡ nodes.field_a sheet.now n }
{
    field(sheet, n, A_AT)
}

pub fn field_b(sheet: &[u8], n: u32) -> u32
    ensures { result ≡ nodes.field_b sheet.now n }
{
    field(sheet, n, B_AT)
}

pub fn field_c(sheet: &[u8], n: u32) -> u32
    ensures { result ≡ nodes.field_c sheet.now n }
{
    field(sheet, n, C_AT)
}

// The namespace's text plus 1, or 0: the word that `namespace` goes by.
fn namespace_word(sheet: &[u8], n: u32) -> u32
    ensures { result ≡ nodes.namespace_word sheet.now n }
{
    field(sheet, n, NAMESPACE_AT)
}

pub fn namespace_pos(sheet: &[u8], n: u32) -> u32
    ensures { result ≡ nodes.namespace_pos sheet.now n }
{
    field(sheet, n, NAMESPACE_POS_AT)
}

// The words of a node.
#[derive(Clone, Copy)]
pub struct Node {
    pub kind: u32,
    pub span: u32,
    pub count: u32,
    pub a: u32,
    pub b: u32,
    pub c: u32,
    pub namespace: u32,
    pub namespace_pos: u32,
}

impl Node {
    // Node `n` of the sheet.
    pub fn read(sheet: &[u8], n: u32) -> Node
        ensures kind { result.kind ≡ nodes.kind sheet.now n }
        ensures span { result.span ≡ nodes.span sheet.now n }
        ensures count { result.count ≡ nodes.count sheet.now n }
        ensures a { result.a ≡ nodes.field_a sheet.now n }
        ensures b { result.b ≡ nodes.field_b sheet.now n }
        ensures c { result.c ≡ nodes.field_c sheet.now n }
        ensures namespace { result.namespace ≡ nodes.namespace_word sheet.now n }
        ensures namespace_pos { result.namespace_pos ≡ nodes.namespace_pos sheet.now n }
    {
        Node {
            kind: kind(sheet, n),
            span: span(sheet, n),
            count: count(sheet, n),
            a: field_a(sheet, n),
            b: field_b(sheet, n),
            c: field_c(sheet, n),
            namespace: namespace_word(sheet, n),
            namespace_pos: namespace_pos(sheet, n),
        }
    }
}

// The numbers of the sections behind the nodes.
// Kept: a function for each. It is one read under the name that its definition has; one function of the section would say at each call
// what the names say now.

// The position of node `n`.
pub fn position(sheet: &[u8], n: u32) -> u32
    ensures { result ≡ nodes.position sheet.now n }
{
    word_at(sheet, positions_at(sheet) + (n as usize))
}

// The text number of local `l`.
pub fn local_text(sheet: &[u8], l: u32) -> u32
    ensures { result ≡ nodes.local_text sheet.now l }
{
    word_at(sheet, locals_at(sheet) + (l as usize))
}

// The first child of node `n`, if it has one.
pub fn child(n: u32) -> u32
    ensures { result ≡ nodes.child n }
{
    n.wrapping_add(1)
}

// The sibling after node `n`.
pub fn next(sheet: &[u8], n: u32) -> u32
    ensures { result ≡ nodes.next sheet.now n }
{
    n.wrapping_add(span(sheet, n))
}

// Where text `t` starts among the text bytes, and its length: functions of their own, as `position` and `local_text`.
pub fn text_start(sheet: &[u8], t: u32) -> u32
    ensures { result ≡ texts.text_start sheet.now t }
{
    word_at(sheet, starts_at(sheet) + (t as usize))
}

pub fn text_length(sheet: &[u8], t: u32) -> u32
    ensures { result ≡ texts.text_length sheet.now t }
{
    word_at(sheet, lengths_at(sheet) + (t as usize))
}

// A kind that may have a namespace.
pub fn may_have(k: u32) -> bool
    ensures { result ≡ spaces.may_have k }
{
    (k == VARIABLE) | (k == FN_CALL)
}

// The namespace of node `n`: its text plus 1, or 0 for none; a text without bytes is none. Few nodes have one, so the word is asked first.
// Kept: the word, text plus 1 or 0: it is what an image's name has.
#[tactic(auto, unfolding(crate::specs::Namespace::namespace, crate::specs::Namespace::namespace_by))]
pub fn namespace(sheet: &[u8], n: u32) -> u32
    ensures { result ≡ spaces.namespace sheet.now n }
{
    let w = namespace_word(sheet, n);
    if w == 0 {
        return 0;
    }
    if may_have(kind(sheet, n)) {
        if text_length(sheet, w - 1) == 0 {
            return 0;
        }
        return w;
    }
    0
}

// Node `n` is a Variable with a namespace.
#[tactic(auto, unfolding(crate::specs::Namespace::qualified_variable))]
pub fn qualified_variable(sheet: &[u8], n: u32) -> bool
    ensures { result ≡ spaces.qualified_variable sheet.now n }
{
    (kind(sheet, n) == VARIABLE) & (namespace(sheet, n) != 0)
}

// The kind of node `n` as a call's receiver or a chain's root: 0 for a Variable with a namespace, which is a value there.
// Kept: 0 is no node's kind, so that a match on the kinds has no arm for it.
#[tactic(auto, unfolding(crate::specs::Namespace::role))]
pub fn role(sheet: &[u8], n: u32) -> u32
    ensures { result ≡ spaces.role sheet.now n }
{
    if qualified_variable(sheet, n) {
        return 0;
    }
    kind(sheet, n)
}

// Where node `n` starts, if it starts with itself.
#[tactic(auto, unfolding(crate::specs::Start::own_start))]
fn own_start(sheet: &[u8], n: u32) -> u32
    ensures { result ≡ starts.own_start sheet.now n }
{
    if qualified_variable(sheet, n) {
        return namespace_pos(sheet, n);
    }
    position(sheet, n)
}

// The start position of node `n`, going down through at most `left` first children.
fn start_within(left: u32, sheet: &[u8], n: u32) -> u32
    ensures { result ≡ starts.start_within left sheet.now n }
{
    let k = kind(sheet, n);
    if left == 0 {
        return own_start(sheet, n);
    }
    if (DOT <= k) & (k <= COALESCE) {
        return start_within(left - 1, sheet, child(n));
    }
    own_start(sheet, n)
}

// The start position of node `n`.
pub fn start_of(sheet: &[u8], n: u32) -> u32
    ensures { result ≡ starts.start_of sheet.now n }
{
    start_within(node_count(sheet), sheet, n)
}

// Text `t`, as its own part of the sheet.
pub fn text(sheet: &[u8], t: u32) -> &[u8]
    ensures { result.now ≡ texts.text sheet.now t }
{
    let at = 4 * bytes_at(sheet) + (text_start(sheet, t) as usize);
    let len = text_length(sheet, t) as usize;
    part(sheet, at, len)
}

// The siblings from a node on, as many as are left.
#[derive(Clone, Copy)]
pub struct Siblings<'a> {
    sheet: &'a [u8],
    left: u32,
    at: u32,
}

impl<'a> Iterator for Siblings<'a> {
    type Item = u32;

    ghost next_gives = { YieldsFirst rest };

    ghost remaining = { λ s. at_most s.left };

    fn next(&mut self) -> Option<u32> {
        if self.left == 0 {
            return None;
        }
        let node = self.at;
        self.left -= 1;
        self.at = next(self.sheet, node);
        Some(node)
    }
}

impl<'a> Siblings<'a> {
    // The `m` siblings from node `first` on.
    pub fn new(sheet: &'a [u8], m: u32, first: u32) -> Siblings<'a>
        ensures sheet { result.sheet.now ≡ sheet.now }
        ensures left { result.left ≡ m }
        ensures at { result.at ≡ first }
    {
        Siblings {
            sheet,
            left: m,
            at: first,
        }
    }
}

// The sibling `m` places after node `j`.
pub fn skip(sheet: &[u8], m: u32, j: u32) -> u32
    ensures { result ≡ walks.skip sheet.now m j }
{
    (0..m).fold(j, |at, _| next(sheet, at))
}
