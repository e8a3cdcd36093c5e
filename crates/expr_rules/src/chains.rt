// Dot and Index: the links of a chain and the step that each of them has.
ghost use Rattle.std.specs.Prelude.{◌≡◌, map};
ghost use Rattle.sheet.specs.Limits.{max_depth};
ghost use Rattle.lowering.specs.Flatten as chains;
ghost use Rattle.lowering.specs.Steps as steps;
ghost use Rattle.expr_rules.specs.Answers as answers;
ghost use Rattle.expr_rules.specs.Reads.{Reads, read_of};
ghost use Rattle.expr_rules.specs.Links.{links_left};

use crate::keywords::{as_method, keyword_of};
use lowering::MAX_ARGS;
use sheet::kinds::{DOT, INDEX, METHOD_CALL, PROPERTY};
use sheet::limits::MAX_DEPTH;
use sheet::{child, count, field_a, kind, next};

// What step a link has. A dot onto anything but a property or a method has none.
// Kept: not an Option of three. Each function that matches on the step has an arm for each of the three; with an Option these would stand
// within `Some`, and an arm for `None` beside them, as `Nothing` does now.
#[derive(Clone, Copy, PartialEq, Eq)]
pub enum StepRule {
    Index,
    Property,
    Method,
    Nothing,
}

// What a link says: its node, the rest where it is a link too, the node that the step is taken with, the step, and flag NEGATED as
// the word of an image (0 or 1).
// Kept: that a Read is read from a sheet is a premise. As a ghost fact of the type it would ask more of the callers of public functions.
// `flag` is a word, as the image has it: a bool would be made of a word of the sheet and made a word again.
#[derive(Clone, Copy)]
pub struct Read {
    pub link: u32,
    pub next: Option<u32>,
    pub with: u32,
    pub rule: StepRule,
    pub flag: u32,
}

// A chain node.
fn is_chain(k: u32) -> bool
    ensures { result ≡ chains.is_chain k }
{
    (k == DOT) | (k == INDEX)
}

#[tactic(auto, unfolding(lowering::specs::Flatten::rest_of))]
// The rest behind link `c`.
pub fn rest_of(sheet: &[u8], c: u32) -> u32
    ensures { result ≡ chains.rest_of sheet.now c }
{
    next(sheet, child(c))
}

// A link with these flags, of which 2 is BREAK, goes on with a rest of kind `k`.
fn leads_on(flags: u32, k: u32) -> bool
    ensures { result ≡ answers.leads_on flags k }
{
    let stops = flags / 2 % 2 == 1;
    !stops & is_chain(k)
}

#[tactic(auto, unfolding(lowering::specs::Flatten::goes_on))]
// The rest is a link too.
pub fn goes_on(sheet: &[u8], c: u32) -> bool
    ensures { result ≡ chains.goes_on sheet.now c }
{
    leads_on(field_a(sheet, c), kind(sheet, rest_of(sheet, c)))
}

#[tactic(auto, unfolding(lowering::specs::Flatten::operand_of))]
// The node that the step of link `c` is taken with.
pub fn operand_of(sheet: &[u8], c: u32) -> u32
    ensures { result ≡ chains.operand_of sheet.now c }
{
    let rest = rest_of(sheet, c);
    if goes_on(sheet, c) {
        return child(rest);
    }
    rest
}

#[tactic(auto, unfolding(crate::specs::Answers::rule_onto, crate::specs::Answers::step_rule_of, lowering::specs::Flatten::dot_rule))]
// The step of a link of kind `k` onto a node of kind `m`.
fn rule_onto(k: u32, m: u32) -> StepRule
    ensures { result ≡ answers.step_rule_of (answers.rule_onto k m) }
{
    if k == INDEX {
        return StepRule::Index;
    }
    match m {
        PROPERTY => StepRule::Property,
        METHOD_CALL => StepRule::Method,
        _ => StepRule::Nothing,
    }
}

// What link `c` says. Its words are read once.
pub fn read_link(sheet: &[u8], c: u32) -> Read
    ensures { Reads sheet.now c result }
{
    let k = kind(sheet, c);
    let flags = field_a(sheet, c);
    let rest = rest_of(sheet, c);
    let m = kind(sheet, rest);
    if leads_on(flags, m) {
        let with = child(rest);
        let rule = rule_onto(k, kind(sheet, with));
        return Read {
            link: c,
            next: Some(rest),
            with,
            rule,
            flag: flags % 2,
        };
    }
    let rule = rule_onto(k, m);
    Read {
        link: c,
        next: None,
        with: rest,
        rule,
        flag: flags % 2,
    }
}

// The links of a chain, each with what it says: from `next` on, at most `left` of them.
#[derive(Clone, Drop)]
pub struct Links<'a> {
    sheet: &'a [u8],
    next: Option<u32>,
    left: u32,
}

// The links of the chain of node `j`.
pub fn links_of(sheet: &[u8], j: u32) -> Links
    ensures { let sheet = sheet.now in links_left result ≡ map (read_of sheet) (chains.links max_depth sheet j) }
{
    Links {
        sheet,
        next: Some(j),
        left: MAX_DEPTH,
    }
}

impl<'a> Iterator for Links<'a> {
    ghost use Rattle.std.specs.Iterator.{YieldsFirst, item_count};
    ghost use Rattle.expr_rules.specs.Links.{links_left};

    type Item = Read;

    ghost next_gives = { YieldsFirst links_left };

    ghost remaining = { item_count links_left };

    fn next(&mut self) -> Option<Read> {
        if self.left == 0 {
            return None;
        }
        let p = read_link(self.sheet, self.next?);
        self.left -= 1;
        self.next = p.next;
        Some(p)
    }
}

#[tactic(auto, using(crate::proofs::KeywordLaws::method_lowers))]
// Method call `x` lowers: `call` and `curry` do, `eval` and `Fn` never.
pub fn is_lowerable_method(sheet: &[u8], x: u32) -> bool
    ensures { result ≡ steps.is_lowerable_method sheet.now x }
{
    let word = keyword_of(sheet::text(sheet, field_a(sheet, x)));
    (count(sheet, x) <= MAX_ARGS) & as_method(word)
}
