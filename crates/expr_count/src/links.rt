// What of a chain's links is counted.
ghost use Rattle.std.specs.Prelude.{◌≡◌, ℕ};
ghost use Rattle.lowering.specs.Flatten as chains;
ghost use Rattle.expr_rules.specs.Reads.{Reads};
ghost use Rattle.expr_count.specs.Link as linked;

use crate::operands::Operands;
use expr_rules::chains::{Read, StepRule, goes_on, is_lowerable_method, rest_of};
use sheet::kinds::{DOT, PROPERTY, THIS, VARIABLE};
use sheet::{child, kind, role};

// The operands of a link's step; a method that does not lower; no step at all.
// Kept: not a Result. `Result<_, Distance>` would have `Whole` as an error, which no link has; an enum of the two others would be one more,
// with a definition. `walk` tells them apart: behind `Fails` it asks `far_of`, behind `Nowhere` not.
#[derive(Clone, Copy)]
pub enum Link {
    Lowers(Operands),
    Fails,
    Nowhere,
}

// A method call as a step.
fn method(sheet: &[u8], x: u32) -> Link
    ensures { result ≡ linked.link_by chains.method sheet.now x }
{
    if is_lowerable_method(sheet, x) {
        return Link::Lowers(Operands::of(sheet, x));
    }
    Link::Fails
}

// What of a link is counted, which says `p`.
pub fn link_with(sheet: &[u8], p: Read) -> Link
    ensures { let sheet = sheet.now in ((c : ℕ) → Reads sheet c p → result ≡ linked.link sheet c) }
{
    let by = p.rule;
    let x = p.with;
    match by {
        StepRule::Index => Link::Lowers(Operands { n: 1, from: x }),
        StepRule::Property => Link::Lowers(Operands { n: 0, from: x }),
        StepRule::Method => method(sheet, x),
        StepRule::Nothing => Link::Nowhere,
    }
}

// 1 for a root that is lowered.
// Kept: a number. It is how many siblings `siblings` goes through, and is added to what a chain takes.
pub fn temporary(sheet: &[u8], v: u32) -> u32
    ensures { result ≡ linked.temporary sheet.now v }
{
    let k = role(sheet, v);
    u32::from((k != VARIABLE) & (k != THIS))
}

// Chain `j` is one Property of a variable or of `this`: one instruction, and nothing to be counted.
pub(crate) fn is_plain(sheet: &[u8], j: u32) -> bool
    ensures { result ≡ linked.is_plain sheet.now j }
{
    if goes_on(sheet, j) {
        return false;
    }
    let rest = rest_of(sheet, j);
    let none = temporary(sheet, child(j)) == 0;
    (kind(sheet, j) == DOT) & (kind(sheet, rest) == PROPERTY) & none
}
