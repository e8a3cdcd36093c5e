// What of a node is counted, construct by construct.
ghost use Rattle.std.specs.Prelude.{◌≡◌, ◌-◌};
ghost use Rattle.expr_count.specs.Locals.{answer, receiver_by};
ghost use Rattle.expr_count.specs.Plan as plans;

use crate::locals::Count;
use crate::operands::Operands;
use crate::tallies::{Tally, evaluation, instructions};
use expr_rules::calls::{CallRule, First, call_rule};
use expr_rules::kinds::Rule;
use expr_rules::rule;
use lowering::MAX_ELEMENTS;
use sheet::kinds::{BOOL, STRING, THIS, VARIABLE};
use sheet::{child, count, namespace};

// Operands, each with `gap` instructions behind it, and `rest` besides; or a construct with a rule of its own.
#[derive(Clone, Copy)]
pub enum Plan {
    Parts { gap: u32, of: Operands, rest: Tally },
    Coalesce,
    Chain,
}

// A node without operands.
fn alone(rest: Tally) -> Plan
    ensures { result ≡ plans.alone rest }
{
    Plan::Parts {
        gap: 0,
        of: Operands { n: 0, from: 0 },
        rest,
    }
}

// These operands, each with `gap` instructions behind it, and `more` instructions.
fn parts(gap: u32, of: Operands, more: u32) -> Plan
    ensures { result ≡ plans.parts gap of more }
{
    Plan::Parts {
        gap,
        of,
        rest: instructions(more),
    }
}

// All operands of node `j`, each with `gap` instructions behind it, and `more` instructions.
fn operands(sheet: &[u8], j: u32, gap: u32, more: u32) -> Plan
    ensures { let s = sheet.now in result ≡ plans.operands s j gap more }
{
    parts(gap, Operands::of(sheet, j), more)
}

// The operands after the first, and `more` instructions.
fn others(sheet: &[u8], j: u32, more: u32) -> Plan
    ensures { result ≡ plans.other_args sheet.now j more }
{
    parts(0, Operands::others(sheet, j), more)
}

// A node of kind `k` is one instruction without operands: Bool, Unit, the constants, Variable, This.
pub(crate) fn is_leaf(k: u32) -> bool
    ensures { result ≡ plans.is_leaf k }
{
    ((BOOL <= k) & (k <= STRING)) | (k == VARIABLE) | (k == THIS)
}

// Array: CheckSize behind each element; MakeArray. One with too many elements is kept.
fn array(sheet: &[u8], j: u32) -> Plan
    ensures { result ≡ plans.array sheet.now j }
{
    if count(sheet, j) <= MAX_ELEMENTS {
        return operands(sheet, j, 1, 1);
    }
    alone(instructions(1))
}

// How often the receiver's value is moved under `others`: once, where there are some.
fn rotates(others: u32) -> u32
    ensures { result ≡ plans.rotates others }
{
    u32::from(others != 0)
}

// How often it is moved in call `j`: with a namespace it is loaded before the other arguments.
#[tactic(auto, unfolding(crate::specs::Plan::moves))]
fn moves(sheet: &[u8], j: u32) -> u32
    ensures { result ≡ plans.moves sheet.now j }
{
    if namespace(sheet, j) != 0 {
        return 0;
    }
    rotates(count(sheet, j).saturating_sub(1))
}

impl<'a> Count<'a> {
    // A call through its receiver: CallRef; LoadNamed, Rotate, CallRef; LoadThis, CallRef; or Call.
    // Kept: a match on the receiver. Each arm is one plan; closures for them would be chosen by the same match.
    fn call(&self, j: u32) -> Plan
        ensures { let it = self.now in
            let sheet = it.sheet.now in
            result ≡ plans.call_by (receiver_by (answer it.told sheet) sheet j) sheet j }
    {
        match self.receiver(j) {
            First::Local(_) => others(self.sheet, j, 1),
            First::Named => others(self.sheet, j, 2 + moves(self.sheet, j)),
            First::This => others(self.sheet, j, 2),
            First::Value => operands(self.sheet, j, 0, 1),
        }
    }

    // FnCall: MakeFnPtr behind the argument; CallFnPtr or Call behind all of them.
    // Kept: a match on the call's rule. Each arm is one plan; closures for them would be chosen by the same match.
    fn fn_call(&self, j: u32) -> Plan
        ensures { let it = self.now in let sheet = it.sheet.now in result ≡ plans.fn_call (answer it.told sheet) sheet j }
    {
        match call_rule(self.sheet, j) {
            CallRule::FnPtr => {
                let first = Operands {
                    n: 1,
                    from: child(j),
                };
                parts(0, first, 1)
            }
            CallRule::FnPtrCall => operands(self.sheet, j, 0, 1),
            CallRule::Lowerable => self.call(j),
            CallRule::Eval => alone(evaluation()),
            CallRule::Residual => alone(instructions(1)),
        }
    }

    // What of node `j` is counted. Interpolated string: InterpolateAppend behind each segment; InterpolateStart and InterpolateEnd. And,
    // Or: a jump behind each operand; the decision's three.
    // Kept: a match on the rule. Each arm is one plan; a table by rule would hold functions of other parameters (the node, the locals).
    pub(crate) fn plan(&self, j: u32) -> Plan
        ensures { let it = self.now in let sheet = it.sheet.now in result ≡ plans.plan (answer it.told sheet) sheet j }
    {
        match rule(self.sheet, j) {
            Rule::Interpolated => operands(self.sheet, j, 1, 2),
            Rule::Array => array(self.sheet, j),
            Rule::FnCall => self.fn_call(j),
            Rule::Chain => Plan::Chain,
            Rule::And | Rule::Or => operands(self.sheet, j, 1, 3),
            Rule::Coalesce => Plan::Coalesce,
            Rule::Boolean
            | Rule::Unit
            | Rule::Constant
            | Rule::Variable
            | Rule::This
            | Rule::Residual => alone(instructions(1)),
        }
    }
}
