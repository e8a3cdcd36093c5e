// The rules by kind.
use sheet::kinds::{
    AND, ARRAY, BOOL, CHAR, COALESCE, DOT, FLOAT, FN_CALL, INDEX, INT, INTERPOLATED, OR, STRING,
    THIS, UNIT, VARIABLE,
};

// How a node is lowered. A kind without a rule stays a residual.
#[derive(Clone, Copy)]
pub enum Rule {
    Boolean,
    Unit,
    Constant,
    Interpolated,
    Array,
    Variable,
    This,
    FnCall,
    Chain,
    And,
    Or,
    Coalesce,
    Residual,
}

// The rule of a kind.
impl From<u32> for Rule {
    ghost use Rattle.std.specs.Prelude.{◌≡◌};
    ghost use Rattle.expr_rules.specs.Answers.{rule_of, rule_at};

    ghost from_gives = { λ k r. r ≡ rule_of (rule_at k) };

    #[tactic(auto, unfolding(crate::specs::Answers::rule_of, lowering::specs::Expression::rules))]
    fn from(k: u32) -> Rule {
        match k {
            BOOL => Rule::Boolean,
            UNIT => Rule::Unit,
            INT => Rule::Constant,
            FLOAT => Rule::Constant,
            CHAR => Rule::Constant,
            STRING => Rule::Constant,
            INTERPOLATED => Rule::Interpolated,
            ARRAY => Rule::Array,
            VARIABLE => Rule::Variable,
            THIS => Rule::This,
            FN_CALL => Rule::FnCall,
            DOT => Rule::Chain,
            INDEX => Rule::Chain,
            AND => Rule::And,
            OR => Rule::Or,
            COALESCE => Rule::Coalesce,
            _ => Rule::Residual,
        }
    }
}
