// How many instructions the lowering of a node gives, how many it emits, and whether it reaches an `eval`, found without lowering it.
// Each node of a checked sheet is visited once.
#![tactic(auto)]

ghost use Rattle.std.specs.Prelude.{◌≡◌};
ghost use Rattle.sheet.specs.Limits.{max_depth};
ghost use Rattle.lowering.specs.Flatten.{links};
ghost use Rattle.expr_count.specs.Tally.{capped};
ghost use Rattle.expr_count.specs.Locals.{answer};
ghost use Rattle.expr_count.specs.Link as linked;
ghost use Rattle.expr_count.specs.Count as counts;

pub mod links;
pub mod locals;
pub mod operands;
pub mod plans;
pub mod tallies;

use expr_chains::{Distance, far_of};
use expr_rules::chains::links_of;
use links::{Link, is_plain, link_with, temporary};
use locals::Count;
use operands::Operands;
use plans::{Plan, is_leaf};
use sheet::{Siblings, child, kind, skip};
use tallies::{Tally, instructions, nothing, plus, spaced, taken_back};

// The operands of a chain's links, up to one that does not lower, and how far the chain comes with all its links.
// Kept: a sum beside a Distance, and no Distance that holds the sum in two of its three: `far_of` takes the least one by its derived
// order.
#[derive(Clone, Copy)]
struct Walked {
    sum: Tally,
    far: Distance,
}

impl<'a> Count<'a> {
    // Some operands, each with `gap` instructions behind it, with `levels` levels each.
    // Leaves are counted without a call.
    #[cycle(chain_coalesce_siblings_tally_walk)]
    fn siblings(&self, levels: u32, gap: u32, of: Operands) -> Tally
        ensures { let it = self.now in
            let sheet = it.sheet.now in
            let t = counts.tally_by (answer it.told sheet) levels sheet in
            result ≡ capped (counts.siblings sheet t gap of.n of.from) }
    {
        if of.n == 0 {
            return nothing();
        }
        let mut sum = nothing();
        let mut leaves: u32 = 0;
        for j in Siblings::new(self.sheet, of.n, of.from) {
            if is_leaf(kind(self.sheet, j)) {
                leaves += 1;
            } else {
                sum = plus(sum, self.tally(levels, j));
            }
        }
        plus(sum, spaced(leaves, gap, of.n))
    }

    // Coalesce: two instructions behind each operand but the last.
    #[cycle(chain_coalesce_siblings_tally_walk)]
    fn coalesce(&self, levels: u32, j: u32) -> Tally
        ensures { let it = self.now in
            let sheet = it.sheet.now in
            let t = counts.tally_by (answer it.told sheet) levels sheet in
            result ≡ capped (counts.coalesce sheet t j) }
    {
        let n = sheet::count(self.sheet, j).saturating_sub(1);
        let first = child(j);
        let others = self.siblings(levels, 2, Operands { n, from: first });
        plus(others, self.tally(levels, skip(self.sheet, n, first)))
    }

    // The links of chain `j`. Where all of them lower, they are read once.
    #[cycle(chain_coalesce_siblings_tally_walk)]
    fn walk(&self, levels: u32, j: u32) -> Walked
        ensures sum_value { let it = self.now in
            let sheet = it.sheet.now in
            let t = counts.tally_by (answer it.told sheet) levels sheet in
            result.sum ≡ capped (counts.walk sheet t (links max_depth sheet j)) }
        ensures far_value { let sheet = self.now.sheet.now in linked.reach_number result.far ≡ linked.least sheet (links max_depth sheet j) }
    {
        let mut sum = nothing();
        for p in links_of(self.sheet, j) {
            match link_with(self.sheet, p) {
                Link::Lowers(of) => {
                    sum = plus(sum, self.siblings(levels, 0, of));
                }
                Link::Fails => {
                    let far = far_of(self.sheet, j).distance;
                    return Walked { sum, far };
                }
                Link::Nowhere => return Walked {
                    sum,
                    far: Distance::Nowhere,
                },
            }
        }
        Walked {
            sum,
            far: Distance::Whole,
        }
    }

    // Dot, Index: a residual; a residual, with its code taken back; or operands, root and Chain.
    #[cycle(chain_coalesce_siblings_tally_walk)]
    fn chain(&self, levels: u32, j: u32) -> Tally
        ensures { let it = self.now in
            let sheet = it.sheet.now in
            let t = counts.tally_by (answer it.told sheet) levels sheet in
            result ≡ capped (counts.chain sheet t j) }
    {
        if is_plain(self.sheet, j) {
            return instructions(1);
        }
        let w = self.walk(levels, j);
        match w.far {
            Distance::Nowhere => instructions(1),
            Distance::TakenBack => plus(taken_back(w.sum), instructions(1)),
            Distance::Whole => {
                let root = child(j);
                let n = temporary(self.sheet, root);
                let lowered = self.siblings(levels, 0, Operands { n, from: root });
                plus(plus(w.sum, lowered), instructions(1))
            }
        }
    }

    // The tally of node `j`, with that many levels left.
    // Kept: a match on the plan. The arms take other data (a plan's parts, or node `j`), and the definition is the same three cases.
    #[cycle(chain_coalesce_siblings_tally_walk)]
    pub fn tally(&self, levels: u32, j: u32) -> Tally
        ensures { let it = self.now in let sheet = it.sheet.now in result ≡ capped (counts.tally_by (answer it.told sheet) levels sheet j) }
    {
        if levels == 0 {
            return instructions(1);
        }
        match self.plan(j) {
            Plan::Parts { gap, of, rest } => plus(self.siblings(levels - 1, gap, of), rest),
            Plan::Coalesce => self.coalesce(levels - 1, j),
            Plan::Chain => self.chain(levels - 1, j),
        }
    }
}
