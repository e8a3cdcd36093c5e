// One pass over the nodes in order, with the open nodes on a stack. True only where nothing of refusals 2, 4 (of nodes), 5 and 8 holds;
// where it says false, nothing is known.
#![tactic(auto)]

ghost use Rattle.std.specs.Prelude.{◌≡◌, true, not, ◌+◌, ◌*◌, ◌<◌, ◌≤◌, length, IfSome};
ghost use Rattle.text.specs.Keyword.{is_curry};
ghost use Rattle.sheet.specs.Text.{text};
ghost use Rattle.check_shape.specs.Kinds as kinds;
ghost use Rattle.check_shape.specs.Shape as shapes;
ghost use Rattle.check_shape.specs.Rows.{numbers};
ghost use Rattle.check_pass.specs.Fine as fine;
ghost use Rattle.check_pass.specs.Limits as limit;
ghost use Rattle.check_pass.specs.Words as words;
ghost use Rattle.check_pass.specs.Sizes.{Sizes, Root};
ghost use Rattle.check_pass.specs.Levels.{done, AllDone, Closed};
ghost use Rattle.std.specs.Option.{MatchOption};

use check_shape::{ANY, BOUNDS, Bounds, child_kind, fits, own_rule, root_ok, scalar, space_rule};
use sheet::kinds::{
    BLOCK, CHAR, DYNAMIC_CONSTANT, FN_CALL, LAST_KIND, MAP, METHOD_CALL, PROPERTY, RANGE, REF,
    STRING, SWITCH, VARIABLE,
};
use sheet::limits::{HEADER_WORDS, NODE_WORDS};
use sheet::{Node, node_count, text_count};
use text::is_curry;
use words::whole;

// The row of a kind that is refused.
const EMPTY: Bounds = Bounds {
    least: 1,
    most: 0,
    a: 0,
    b: 0,
    c: 0,
};

// Node `n`, which the string has.
// Kept: no `Node::read`, which tests the bound at each of the eight words. It was tried and proves, and the check of a sheet takes 1.2 to
// 1.3 times as long; it may not get slower.
fn node(sheet: &[u8], n: u32) -> Node
    requires { 32 * n + 47 < length sheet.now }
    ensures { words.NodeIs sheet.now n result.kind result.span result.count result.a result.b result.c
        result.namespace result.namespace_pos }
{
    let at = HEADER_WORDS + NODE_WORDS * (n as usize);
    Node {
        kind: whole(sheet, at),
        span: whole(sheet, at + 1),
        count: whole(sheet, at + 2),
        a: whole(sheet, at + 3),
        b: whole(sheet, at + 4),
        c: whole(sheet, at + 5),
        namespace: whole(sheet, at + 6),
        namespace_pos: whole(sheet, at + 7),
    }
}

// 1 where there are none of `x`.
// Kept: a number. It is the least count of a row that nothing of that kind may meet.
fn none(x: u32) -> u32
    ensures { result ≡ limit.none x }
{
    u32::from(x == 0)
}

// The last of `x` numbers.
fn last(x: u32) -> u32
    ensures { result ≡ limit.last x }
{
    x.saturating_sub(1)
}

// The most children that a call may have: any number, none where there are none of `x` texts.
// Kept: 0 is a bound like others, and stands for no missing value.
fn any_of(x: u32) -> u32
    ensures { result ≡ limit.any_of x }
{
    if x == 0 {
        return 0;
    }
    ANY
}

// The bounds of each kind, in a sheet of `x` texts. What names a text is below their number; a kind that is refused, or that names a text
// where there is none, has an empty row.
fn name_limits(x: u32) -> [Bounds; 26]
    ensures { result ≡ limit.name_rows x }
{
    let mut t = BOUNDS;
    let most = any_of(x);
    let text = last(x);
    let named = Bounds {
        least: none(x),
        most: 0,
        a: text,
        b: 0,
        c: 0,
    };
    t[STRING as usize] = named;
    t[VARIABLE as usize] = named;
    t[PROPERTY as usize] = Bounds {
        b: text,
        c: text,
        ..named
    };
    t[METHOD_CALL as usize] = Bounds { most, ..named };
    t[FN_CALL as usize] = Bounds {
        most,
        b: 1,
        c: 65535,
        ..named
    };
    t[MAP as usize] = EMPTY;
    t[BLOCK as usize] = EMPTY;
    t[DYNAMIC_CONSTANT as usize] = EMPTY;
    t
}

// The same in a sheet of `blocks` blocks: what names a block is below their number, and has an empty row where there is none.
fn limits(x: u32, blocks: u32) -> [Bounds; 26]
    ensures { numbers result ≡ limit.limits x blocks }
{
    let mut t = name_limits(x);
    let none = none(blocks);
    let block = last(blocks);
    t[SWITCH as usize] = Bounds {
        least: 1,
        most: ANY,
        a: ANY,
        b: ANY,
        c: blocks,
    };
    t[RANGE as usize] = Bounds {
        least: 2 + none,
        most: 2,
        a: 1,
        b: block,
        c: 0,
    };
    t[REF as usize] = Bounds {
        least: none,
        most: 0,
        a: block,
        b: 0,
        c: 0,
    };
    t
}

// Count and fields of node `v` are within the row of its kind in the table `t`.
fn row_ok(t: &[Bounds; 26], v: Node) -> bool
    ensures { result ≡ true → limit.Row (numbers t.now) v.kind v.count v.a v.b v.c }
{
    if LAST_KIND < v.kind {
        return false;
    }
    t[v.kind as usize].hold(v)
}

// Text `a` is not `curry`. Few nodes ask, so it is not drawn into the loop over the nodes.
#[inline(never)]
fn named_ok(sheet: &[u8], a: u32) -> bool
    ensures { result ≡ not (is_curry (text sheet.now a)) }
{
    !is_curry(sheet::text(sheet, a))
}

// Node `v` is no FnCall `curry` with over one argument.
fn call_ok(sheet: &[u8], v: Node) -> bool
    ensures { result ≡ true → limit.Called sheet.now v.kind v.count v.a }
{
    let k = v.kind;
    let m = v.count;
    if (k == FN_CALL) & (1 < m) {
        return named_ok(sheet, v.a);
    }
    true
}

// Node `v` has no namespace, or it may have one, whose text exists.
// Kept: the two words are asked first, and together. Tried: without that the check of a sheet takes 1.1 to 1.5 times as long; with the
// other tests in a function that is not drawn into the loop over the nodes it takes up to 1.1 times as long.
fn space_ok(sheet: &[u8], v: Node) -> bool
    ensures { result ≡ true → limit.Spaced sheet.now v.kind v.namespace v.namespace_pos }
{
    if (v.namespace == 0) & (v.namespace_pos == 0) {
        return true;
    }
    space_rule(v) & (v.namespace <= text_count(sheet))
}

// What the words of a node other than the root show by themselves.
fn own_ok(t: &[Bounds; 26], sheet: &[u8], v: Node) -> bool
    ensures { result ≡ true → limit.Own (numbers t.now) sheet.now v.kind v.count v.a v.b v.c v.namespace v.namespace_pos }
{
    if !space_ok(sheet, v) {
        return false;
    }
    if row_ok(t, v) {
        if v.kind == CHAR {
            return scalar(v.a);
        }
        return call_ok(sheet, v);
    }
    false
}

// Kind `k` may stand as child `i` of a node of kind `p` with fields `a` and `b`; kinds that are refused may not.
fn child_ok(p: u32, a: u32, b: u32, i: u32, k: u32) -> bool
    ensures { result ≡ true → kinds.child_kind p a b i k ≡ true }
{
    if p < SWITCH {
        return (1 <= k) & (k < SWITCH);
    }
    child_kind(p, a, b, i, k)
}

// An open node: its kind and its count of children, how many of them are passed, and the first node behind it.
#[derive(Clone, Copy)]
struct Open {
    kind: u32,
    count: u32,
    passed: u32,
    end: u32,
}

impl Open {
    // Its children are passed, and node `n` is the first behind it.
    fn done(self, n: u32) -> bool
        ensures { result ≡ done self n }
    {
        (self.count <= self.passed) & (self.end == n)
    }
}

// Node `v` with its end, where none of its children are passed.
fn opened(v: Node, end: u32) -> Open
    ensures { result ≡ record { kind = v.kind; count = v.count; passed = 0; end = end } }
{
    Open {
        kind: v.kind,
        count: v.count,
        passed: 0,
        end,
    }
}

// Node `v` may stand at `n`, as the next child of `p`, in a sheet whose Switch has fields `a` and `b`.
// Kept: `a` and `b` as two words, here and in check_shape: `child_kind` answers for a node of any kind with any fields.
fn child_words(p: Open, a: u32, b: u32, n: u32, v: Node) -> bool
    ensures { result ≡ true → shapes.child_words p.kind a b p.end p.passed n v.kind v.span ≡ true }
{
    fits(n, v.span, p.end) & child_ok(p.kind, a, b, p.passed, v.kind)
}

// No node.
const NONE: Open = Open {
    kind: 0,
    count: 0,
    passed: 0,
    end: 0,
};

// The innermost open node, with `d` nodes around it.
#[derive(Clone, Copy)]
struct Level {
    top: Open,
    d: usize,
}

// The innermost of the open nodes `around` that is not done where node `n` is next, if there is one. It is not drawn into the loop over
// the nodes, most of which have no children.
#[inline(never)]
fn innermost(around: &[Open], n: u32) -> Option<usize>
    ensures { MatchOption result (AllDone around.now n 0 (length around.now))
        (λ k. (k < length around.now) × AllDone around.now n (k + 1) (length around.now)) }
{
    around.iter().rposition(|o| !o.done(n))
}

// Where node `n` is next: the nodes that are done are closed, but not all of them, and `n` is a child of the innermost; None where no open
// node has a child left there. Most often the innermost node has one.
fn settled(around: &[Open; 62], at: Level, n: u32) -> Option<Level>
    requires { at.d ≤ 62 }
    ensures { IfSome result (λ to. Closed around.now n at.top at.d to.top to.d × (to.top.passed < to.top.count)) }
{
    if at.top.passed < at.top.count {
        return Some(at);
    }
    if !at.top.done(n) {
        return None;
    }
    match innermost(&around[..at.d], n) {
        Some(d) => {
            let top = around[d];
            if top.count <= top.passed {
                return None;
            }
            Some(Level { top, d })
        }
        None => None,
    }
}

// The pass over the nodes behind the root, of `total` nodes. `at` is the innermost open node, and those around it are in `around`.
// Kept: the stack is an array with its height beside it: there is no heap, and std's Vec is of the heap.
// It is not drawn into `check`, whose values would share the loop's registers.
#[inline(never)]
fn walk(sheet: &[u8], t: &[Bounds; 26], total: u32, root: Node) -> bool
    requires sizes { Sizes sheet.now total root.a root.b (numbers t.now) }
    requires root { Root sheet.now root.kind root.span root.count root.a root.b root.c root.namespace root.namespace_pos }
    ensures { result ≡ true → fine.Passed sheet.now }
{
    let top = opened(root, root.span);
    let mut around = [NONE; 62];
    let mut at = Level { top, d: 0 };
    for n in 1..total {
        let Some(to) = settled(&around, at, n) else {
            return false;
        };
        at = to;
        let v = node(sheet, n);
        if !child_words(at.top, root.a, root.b, n, v) {
            return false;
        }
        if !own_ok(t, sheet, v) {
            return false;
        }
        at.top.passed += 1;
        if v.count == 0 {
            if v.span != 1 {
                return false;
            }
        } else {
            if 62 <= at.d {
                return false;
            }
            around[at.d] = at.top;
            at.top = opened(v, n + v.span);
            at.d += 1;
        }
    }
    at.top.done(total) & innermost(&around[..at.d], total).is_none()
}

// The pass over all nodes.
fn pass(sheet: &[u8]) -> bool
    ensures { result ≡ true → fine.Passed sheet.now }
{
    let total = node_count(sheet);
    if sheet.len() / 4 < HEADER_WORDS + NODE_WORDS * (total as usize) {
        return false;
    }
    if total == 0 {
        return false;
    }
    let r = node(sheet, 0);
    let table = limits(text_count(sheet), r.a);
    let row = row_ok(&table, r);
    if (r.span == total) & row & own_rule(r) & call_ok(sheet, r) & space_ok(sheet, r) {
        return walk(sheet, &table, total, r);
    }
    false
}

// Nothing of refusals 2, 4 (of nodes), 5 and 8, if it says so.
// Kept: shaped as `shape_ok`, since both ask the root first. One function over what is asked then would be called with one test each.
pub fn passes(sheet: &[u8]) -> bool
    ensures { result ≡ true → fine.Fine sheet.now }
{
    if root_ok(sheet) {
        return pass(sheet);
    }
    false
}
