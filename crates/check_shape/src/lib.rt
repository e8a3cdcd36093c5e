// Refusal 2: node kind, shape or field wrong.
#![tactic(auto)]

ghost use Rattle.std.specs.Prelude.{◌≡◌, ◌+◌, ◌*◌, ◌<◌, ◌≤◌, ◌&&◌, leb};
ghost use Rattle.sheet.specs.Sections.{node_count};
ghost use Rattle.sheet.specs.Node as nodes;
ghost use Rattle.check_shape.specs.Kinds as kinds;
ghost use Rattle.check_shape.specs.Shape as shape;
ghost use Rattle.check_shape.specs.Rows as rows;

use sheet::kinds::{BOOL, CASE, CHAR, COALESCE, INT, LAST_KIND, MAP, RANGE, REF, STRING, SWITCH};
use sheet::{Node, kind, may_have, node_count, span};

// any 32-bit word
pub const ANY: u32 = 0xffff_ffff;

// What a kind may hold: the least and the greatest count of children, and the greatest a, b and c.
#[derive(Clone, Copy)]
pub struct Bounds {
    pub least: u32,
    pub most: u32,
    pub a: u32,
    pub b: u32,
    pub c: u32,
}

impl Bounds {
    // The count and the fields of node `v` are within the bounds.
    pub fn hold(self, v: Node) -> bool
        ensures { result ≡ rows.holds self v.count v.a v.b v.c }
    {
        (self.least <= v.count)
            & (v.count <= self.most)
            & (v.a <= self.a)
            & (v.b <= self.b)
            & (v.c <= self.c)
    }
}

// No children and no fields.
const LEAF: Bounds = Bounds {
    least: 0,
    most: 0,
    a: 0,
    b: 0,
    c: 0,
};

// One field, any word.
const FIELD: Bounds = Bounds { a: ANY, ..LEAF };

// Two fields, any words.
const FIELDS: Bounds = Bounds { b: ANY, ..FIELD };

// Any number of children.
const LIST: Bounds = Bounds { most: ANY, ..LEAF };

// One child or more.
const SOME: Bounds = Bounds { least: 1, ..LIST };

// A chain's step: two children, and two marks in a.
const STEP: Bounds = Bounds {
    least: 2,
    most: 2,
    a: 3,
    ..LEAF
};

// The bounds of each kind from 0 on. Kind 0 is no kind.
pub static BOUNDS: [Bounds; 26] = [
    Bounds { least: 1, ..LEAF },
    Bounds { a: 1, ..LEAF }, // Bool
    LEAF, // Unit
    FIELDS, // Int
    FIELDS, // Float
    FIELD, // Char
    FIELD, // String
    LIST, // Interpolated
    LIST, // Array
    FIELD, // Variable
    LEAF, // This
    Bounds { c: ANY, ..FIELDS }, // Property
    Bounds { most: ANY, ..FIELD }, // MethodCall
    Bounds {
        most: ANY,
        b: 1,
        c: 65535,
        ..FIELD
    }, // FnCall
    STEP, // Dot
    STEP, // Index
    SOME, // And
    SOME, // Or
    SOME, // Coalesce
    Bounds {
        a: ANY,
        b: ANY,
        c: ANY,
        ..SOME
    }, // Switch
    SOME, // Case
    Bounds {
        a: 1,
        b: ANY,
        ..STEP
    }, // Range
    FIELD, // Ref
    LEAF, // Map
    LEAF, // block
    LEAF, // DynamicConstant
];

// The bounds of kind `k`.
fn bounds_of(k: u32) -> Bounds
    ensures least { result.least ≡ kinds.bound k kinds.least_count }
    ensures most { result.most ≡ kinds.bound k kinds.most_count }
    ensures a { result.a ≡ kinds.bound k kinds.most_a }
    ensures b { result.b ≡ kinds.bound k kinds.most_b }
    ensures c { result.c ≡ kinds.bound k kinds.most_c }
{
    BOUNDS.get(k as usize).copied().unwrap_or(LEAF)
}

// A Unicode scalar value.
pub fn scalar(x: u32) -> bool
    ensures { result ≡ kinds.scalar x }
{
    (x < 0xd800) | ((0xdfff < x) & (x < 0x11_0000))
}

// A kind that may stand where an expression is wanted.
fn expression(k: u32) -> bool
    ensures { result ≡ kinds.expression k }
{
    ((BOOL <= k) & (k <= COALESCE)) | ((MAP <= k) & (k <= LAST_KIND))
}

// A kind that may be a Case's value: Int, Char or String.
fn case_value(k: u32) -> bool
    ensures { result ≡ kinds.case_value k }
{
    (k == INT) | (k == CHAR) | (k == STRING)
}

// Kind `k` may stand as child `i` of a Switch of `blocks` blocks and `cases` cases.
fn switch_child(blocks: u32, cases: u32, i: u32, k: u32) -> bool
    ensures { result ≡ kinds.switch_child blocks cases i k }
{
    let pairs = 2 * (blocks as u64);
    let at = i as u64;
    if at <= pairs {
        return expression(k);
    }
    if at <= pairs + (cases as u64) {
        return k == CASE;
    }
    k == RANGE
}

// Kind `k` may stand as child `i` of a Case.
fn case_child(i: u32, k: u32) -> bool
    ensures { result ≡ kinds.case_child i k }
{
    if i == 0 {
        return case_value(k);
    }
    k == REF
}

// Kind `k` may stand as child `i` of a node of kind `p` whose fields are `a` and `b`.
pub fn child_kind(p: u32, a: u32, b: u32, i: u32, k: u32) -> bool
    ensures { result ≡ kinds.child_kind p a b i k }
{
    if p == SWITCH {
        return switch_child(a, b, i, k);
    }
    if p == CASE {
        return case_child(i, k);
    }
    if p == RANGE {
        return k == INT;
    }
    expression(k)
}

// The count and fields of node `v` are within its kind's bounds.
fn within_bounds(v: Node) -> bool
    ensures { result ≡ shape.within_bounds v.kind v.count v.a v.b v.c }
{
    let k = v.kind;
    (1 <= k) & (k <= LAST_KIND) & bounds_of(k).hold(v)
}

// A Char is a scalar value, and a Switch has a subject, its blocks and its cases.
pub fn own_rule(v: Node) -> bool
    ensures { result ≡ shape.own_rule v.kind v.count v.a v.b }
{
    let wanted = 1 + 2 * (v.a as u64) + (v.b as u64);
    ((v.kind != CHAR) | scalar(v.a)) & ((v.kind != SWITCH) | (wanted <= (v.count as u64)))
}

// Only a Variable or a FnCall has a namespace, and where there is none, its position is 0.
pub fn space_rule(v: Node) -> bool
    ensures { result ≡ shape.space_rule v.kind v.namespace v.namespace_pos }
{
    let none = v.namespace == 0;
    (may_have(v.kind) | none) & (!none | (v.namespace_pos == 0))
}

// Node 0 is an expression or a Switch, and its subtree is the whole sheet.
pub fn root_ok(sheet: &[u8]) -> bool
    ensures { result ≡ shape.root_ok sheet.now }
{
    let k = kind(sheet, 0);
    (expression(k) | (k == SWITCH)) & (span(sheet, 0) == node_count(sheet))
}

// A node at `n` has some span `w`, and its subtree ends at `e` or before.
pub fn fits(n: u32, w: u32, e: u32) -> bool
    ensures { result ≡ (leb 1 w && leb (n + w) e) }
{
    let end = (n as u64) + (w as u64);
    (1 <= w) & (end <= (e as u64))
}

// Node `j` may be child `i` of node `p`, and its subtree ends at `e` or before.
fn child_ok(sheet: &[u8], p: Node, e: u32, i: u32, j: u32) -> bool
    ensures { result ≡ shape.child_fits sheet.now p.kind p.a p.b e i j }
{
    fits(j, span(sheet, j), e) & child_kind(p.kind, p.a, p.b, i, kind(sheet, j))
}

// The children of node `n`, which was read as `v`, tile the nodes from behind it up to `e`.
// Kept: a walk by hand. Where the last child ends is asked behind the loop: over `Siblings` that takes `by_ref`, a method of it that tells,
// and `enumerate` with a cast of its number, in the place of `j`.
fn tiles(sheet: &[u8], n: u32, v: Node, e: u32) -> bool
    requires p_value { (v.kind ≡ nodes.kind sheet.now n) × (v.count ≡ nodes.count sheet.now n) }
    requires a_value { (v.a ≡ nodes.field_a sheet.now n) × (v.b ≡ nodes.field_b sheet.now n) }
    requires n_bound { n + 1 ≤ e }
    ensures { result ≡ shape.tiles (nodes.count sheet.now n) sheet.now n e 0 (n + 1) }
{
    let mut j: u32 = n + 1;
    for i in 0..v.count {
        if !child_ok(sheet, v, e, i, j) {
            return false;
        }
        j += span(sheet, j);
    }
    j == e
}

// Node `n`, which was read as `v`, is right by itself, and its subtree lies within `total` nodes.
fn self_ok(n: u32, v: Node, total: u32) -> bool
    ensures { result ≡ shape.self_fits n v.kind v.span v.count v.a v.b v.c v.namespace v.namespace_pos total }
{
    within_bounds(v) & own_rule(v) & space_rule(v) & fits(n, v.span, total)
}

// Node `n` of `total` is right, and so are its children's places.
fn node_ok(sheet: &[u8], n: u32, total: u32) -> bool
    requires { total ≡ node_count sheet.now }
    ensures { result ≡ shape.node_ok sheet.now n }
{
    let v = Node::read(sheet, n);
    if self_ok(n, v, total) {
        return tiles(sheet, n, v, n + v.span);
    }
    false
}

// Nothing of refusal 2.
pub fn shape_ok(sheet: &[u8]) -> bool
    ensures { result ≡ shape.shape_ok sheet.now }
{
    if root_ok(sheet) {
        return nodes_ok(sheet);
    }
    false
}

// Every node is right.
fn nodes_ok(sheet: &[u8]) -> bool
    ensures { result ≡ shape.nodes_ok sheet.now }
{
    let m = node_count(sheet);
    (0..m).all(|n| node_ok(sheet, n, m))
}
