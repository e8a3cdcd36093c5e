// The keywords: which of them a name is, and what that says of a call and of a method.
ghost use Rattle.std.specs.Prelude.{◌≡◌};
ghost use Rattle.expr_rules.specs.Answers as answers;
ghost use Rattle.expr_rules.specs.Keywords as keywords;

use crate::calls::CallRule;
use lowering::MAX_ARGS;
use text::{is_call, is_curry, is_eval, is_fn};

// A name with a meaning of its own, or any other.
// Kept: not an Option of four. `rule_by` is one match on the five, which would have `Some` around four of them.
#[derive(Clone, Copy)]
pub enum Keyword {
    Fn,
    Call,
    Eval,
    Curry,
    Other,
}

// Which keyword a name is. The length is asked first: a name of a length that no keyword has is none.
pub fn keyword_of(name: &[u8]) -> Keyword
    ensures { result ≡ keywords.keyword_of name.now }
{
    match name.len() {
        4 if is_call(name) => Keyword::Call,
        4 if is_eval(name) => Keyword::Eval,
        2 if is_fn(name) => Keyword::Fn,
        5 if is_curry(name) => Keyword::Curry,
        _ => Keyword::Other,
    }
}

#[tactic(auto, unfolding(crate::specs::Keywords::general_by, crate::specs::Answers::call_rule_of))]
// The rule of a call of `n` arguments by that name, in a namespace.
pub fn general_by(word: Keyword, n: u32) -> CallRule
    ensures { result ≡ answers.call_rule_of (keywords.general_by word n) }
{
    match word {
        Keyword::Eval => CallRule::Eval,
        Keyword::Other if n <= MAX_ARGS => CallRule::Lowerable,
        _ => CallRule::Residual,
    }
}

#[tactic(auto, unfolding(crate::specs::Keywords::rule_by, crate::specs::Answers::call_rule_of))]
// The rule of a call of `n` arguments by that name, without a namespace.
pub fn rule_by(word: Keyword, n: u32) -> CallRule
    ensures { result ≡ answers.call_rule_of (keywords.rule_by word n) }
{
    match word {
        Keyword::Fn if n == 1 => CallRule::FnPtr,
        Keyword::Call if (1 <= n) & (n <= MAX_ARGS + 1) => CallRule::FnPtrCall,
        Keyword::Eval => CallRule::Eval,
        Keyword::Other => general_by(word, n),
        _ => CallRule::Residual,
    }
}

#[tactic(auto, unfolding(crate::specs::Keywords::as_method))]
// A method by that name lowers: `call` and `curry` do, `eval` and `Fn` never.
pub fn as_method(word: Keyword) -> bool
    ensures { result ≡ keywords.as_method word }
{
    !matches!(word, Keyword::Fn | Keyword::Eval)
}
