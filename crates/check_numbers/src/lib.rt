// Refusal 4: a text or block number that does not exist.
#![tactic(auto)]

ghost use Rattle.std.specs.Prelude.{◌≡◌, ltb};
ghost use Rattle.std.specs.List.{list_all};
ghost use Rattle.words.specs.Word.{front};
ghost use Rattle.check_numbers.specs.Numbers as numbers;

use sheet::kinds::{FN_CALL, METHOD_CALL, PROPERTY, RANGE, REF, STRING, SWITCH, VARIABLE};
use sheet::{Node, field_a, local_count, locals_at, node_count, text_count};
use words::{number, words_from};

// The kinds whose a is a text: String, Variable, Property, MethodCall, FnCall.
fn names_text(k: u32) -> bool
    ensures { result ≡ numbers.names_text k }
{
    (k == STRING) | (k == VARIABLE) | (k == PROPERTY) | (k == METHOD_CALL) | (k == FN_CALL)
}

// The numbers of node `v` exist, among `x` texts and `blocks` blocks.
fn exist(x: u32, blocks: u32, v: Node) -> bool
    ensures { result ≡ numbers.exist x blocks v.kind v.a v.b v.c v.namespace }
{
    let k = v.kind;
    let named = names_text(k);
    (v.namespace <= x)
        & ((!named) | (v.a < x))
        & ((k != PROPERTY) | ((v.b < x) & (v.c < x)))
        & ((k != SWITCH) | (v.c <= blocks))
        & ((k != RANGE) | (v.b < blocks))
        & ((k != REF) | (v.a < blocks))
}

// The numbers in node `n` exist, among `x` texts and `blocks` blocks.
fn number_ok(sheet: &[u8], x: u32, blocks: u32, n: u32) -> bool
    ensures { result ≡ numbers.number_among sheet.now x blocks n }
{
    exist(x, blocks, Node::read(sheet, n))
}

// The numbers in all nodes exist.
fn node_numbers_ok(sheet: &[u8]) -> bool
    ensures { result ≡ numbers.node_numbers_ok sheet.now }
{
    let x = text_count(sheet);
    let blocks = field_a(sheet, 0);
    let m = node_count(sheet);
    (0..m).all(|n| number_ok(sheet, x, blocks, n))
}

// How many numbers are compared before it is asked whether one was too great.
const BLOCK: usize = 64;

// Whether these numbers are below `x`. Each is compared, so that no branch stands between two of them.
fn all_less(numbers: &[[u8; 4]], x: u32) -> bool
    ensures { result ≡ list_all (λ w. ltb (front w) x) numbers.now }
{
    numbers.iter().fold(true, |all, w| all & (number(*w) < x))
}

// Whether these numbers are below `x`, asked by blocks: no block behind one with a number that is not is read.
fn blocks_less(numbers: &[[u8; 4]], x: u32) -> bool
    ensures { result ≡ list_all (λ w. ltb (front w) x) numbers.now }
{
    for block in numbers.chunks(BLOCK) {
        if !all_less(block, x) {
            return false;
        }
    }
    true
}

// The name of each local exists. The numbers are cut out of the sheet before the loop over them; one past its end reads as 0.
pub fn locals_ok(sheet: &[u8]) -> bool
    ensures { result ≡ numbers.locals_ok sheet.now }
{
    let x = text_count(sheet);
    let m = local_count(sheet) as usize;
    let names = words_from(sheet, locals_at(sheet), m);
    blocks_less(names, x) & ((names.len() == m) | (0 < x))
}

// Nothing of refusal 4.
pub fn numbers_ok(sheet: &[u8]) -> bool
    ensures { result ≡ numbers.numbers_ok sheet.now }
{
    let nodes = node_numbers_ok(sheet);
    let locals = locals_ok(sheet);
    nodes & locals
}
