// FnCall: which rule lowers a call, and what its receiver is.
ghost use Rattle.std.specs.Prelude.{◌≡◌, ◌-◌};
ghost use Rattle.lowering.specs.Call as calls;
ghost use Rattle.expr_rules.specs.Answers as answers;

use crate::keywords::{general_by, keyword_of, rule_by};
use sheet::{child, count, field_a, field_b, field_c, namespace, role};

// Which rule lowers a call: `Fn`, `call`, generic dispatch, `eval`; or the call is kept.
#[derive(Clone, Copy)]
pub enum CallRule {
    FnPtr,
    FnPtrCall,
    Lowerable,
    Eval,
    Residual,
}

// What the first argument is: a variable without a namespace by slot or by name, `this`, or a value (or there is none).
#[derive(Clone, Copy)]
pub enum First {
    Local(u32),
    Named,
    This,
    Value,
}

#[tactic(auto, unfolding(lowering::specs::Call::call_rule), using(crate::proofs::KeywordLaws::plain_is, crate::proofs::KeywordLaws::general_is))]
// The rule of call `j`. With a namespace neither `Fn` nor `call` has one of its own.
pub fn call_rule(sheet: &[u8], j: u32) -> CallRule
    ensures { result ≡ answers.call_rule_of (calls.call_rule sheet.now j) }
{
    let word = keyword_of(sheet::text(sheet, field_a(sheet, j)));
    if namespace(sheet, j) != 0 {
        return general_by(word, count(sheet, j));
    }
    rule_by(word, count(sheet, j))
}

#[tactic(auto, unfolding(crate::specs::Answers::receiver_node))]
// The receiver of call `j`. A call with an operator, with capture or with no argument has none.
pub fn receiver_node(sheet: &[u8], j: u32) -> Option<u32>
    ensures { result ≡ answers.receiver_node sheet.now j }
{
    let c = field_c(sheet, j);
    let b = field_b(sheet, j);
    let n = count(sheet, j);
    ((c == 0) & (b == 0) & (1 <= n)).then_some(child(j))
}

#[tactic(auto, unfolding(crate::specs::Answers::receiver_node, crate::specs::Answers::receiver_role))]
// The role of call `j`'s receiver, 0 where it has none: what the locals say of a variable is left to the caller.
// Kept: public, and 0 is no node's kind, so that the match on the answer (`way_first` of expr_emit) has no arm for it. With an Option both
// of its arms would stand within `Some`. `receiver_node` is that form.
pub fn receiver_role(sheet: &[u8], j: u32) -> u32
    ensures { result ≡ answers.receiver_role sheet.now j }
{
    match receiver_node(sheet, j) {
        Some(v) => role(sheet, v),
        None => 0,
    }
}

#[tactic(auto, unfolding(lowering::specs::Call::stores_token))]
// An operator is stored with 1 or 2 arguments and no namespace.
pub fn stores_token(sheet: &[u8], j: u32) -> bool
    ensures { result ≡ calls.stores_token sheet.now j }
{
    let n = count(sheet, j);
    (namespace(sheet, j) == 0) & (!(field_c(sheet, j) == 0)) & ((n == 1) | (n == 2))
}
