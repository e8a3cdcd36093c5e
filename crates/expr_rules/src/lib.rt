// Which rule lowers a node, a call and a link of a chain. Nothing here goes down into operands.
#![tactic(auto)]

ghost use Rattle.std.specs.Prelude.{◌≡◌};
ghost use Rattle.lowering.specs.Expression as expressions;
ghost use Rattle.expr_rules.specs.Answers as answers;

pub mod calls;
pub mod chains;
mod keywords;
pub mod kinds;

use kinds::Rule;

#[tactic(auto, unfolding(lowering::specs::Expression::rule))]
// The rule of node `j` goes by its kind.
pub fn rule(sheet: &[u8], j: u32) -> Rule
    ensures { result ≡ answers.rule_of (expressions.rule sheet.now j) }
{
    Rule::from(sheet::kind(sheet, j))
}
