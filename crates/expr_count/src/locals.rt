// What the receiver of a call is, as far as it is counted: of a Variable only whether it is a local, and not in which slot. Who counts may
// tell that beforehand, so that no name is looked up.
ghost use Rattle.std.specs.Prelude.{◌≡◌};
ghost use Rattle.expr_rules.specs.Answers.{first_of};
ghost use Rattle.expr_count.specs.Locals as locals;

use expr_rules::calls::{First, receiver_node};
use scratch::get;
use sheet::kinds::{THIS, VARIABLE};
use sheet::{field_a, node_count, role};

// Which Variables are locals: each name is looked up; all are; none is; or word 2 `v` tells it of Variable `v`, where `v` is a node, and 0
// is no local.
// Kept: an enum. Tried, a type parameter with its own answer, which proves; but `told` of expr_emit chooses by how many locals a sheet has,
// so the same match would stand there, before a copy of the whole count for each.
#[derive(Clone, Copy)]
pub enum Locals<'a> {
    Sought,
    All,
    Nobody,
    Told(&'a [u32]),
}

// A count of a sheet's nodes, by what is known of the locals.
#[derive(Clone, Copy)]
pub struct Count<'a> {
    pub sheet: &'a [u8],
    pub told: Locals<'a>,
}

// Variable `v` is a local: its name is looked up.
fn sought(sheet: &[u8], v: u32) -> bool
    ensures { result ≡ locals.is_local sheet.now v }
{
    expr_slots::resolve(sheet, field_a(sheet, v)).is_some()
}

// Variable `v` is a local, as the words tell. What is no node is looked up.
// Kept: a word of the scratch, where 0 is no local, as scratch_locals writes it; it is asked once.
fn told_by(sheet: &[u8], words: &[u32], v: u32) -> bool
    ensures { result ≡ locals.told_by words.now sheet.now v }
{
    if v < node_count(sheet) {
        return get(words, 2 * (v as usize)) != 0;
    }
    sought(sheet, v)
}

impl<'a> Count<'a> {
    // Variable `v` is a local.
    fn is_local(&self, v: u32) -> bool
        ensures { let it = self.now in result ≡ locals.answer it.told it.sheet.now v }
    {
        match self.told {
            Locals::Sought => sought(self.sheet, v),
            Locals::All => true,
            Locals::Nobody => false,
            Locals::Told(words) => told_by(self.sheet, words, v),
        }
    }

    // Variable `v` as a first argument.
    // Kept: 0 for the slot, which no count reads. The definition answers with a `First` too (`first_of`), whose Local has a slot; without
    // it there would be a second enum of the same four, with a definition of its own.
    fn variable(&self, v: u32) -> First
        ensures { let it = self.now in result ≡ first_of (locals.variable_by (locals.answer it.told it.sheet.now) v) }
    {
        if self.is_local(v) {
            return First::Local(0);
        }
        First::Named
    }

    // Node `v` as a first argument.
    fn first(&self, v: u32) -> First
        ensures { let it = self.now in
            let sheet = it.sheet.now in
            result ≡ first_of (locals.first_by (locals.answer it.told sheet) sheet v) }
    {
        match role(self.sheet, v) {
            THIS => First::This,
            VARIABLE => self.variable(v),
            _ => First::Value,
        }
    }

    // The receiver of call `j`. A call with an operator, with capture or with no argument has none.
    pub fn receiver(&self, j: u32) -> First
        ensures { let it = self.now in
            let sheet = it.sheet.now in
            result ≡ first_of (locals.receiver_by (locals.answer it.told sheet) sheet j) }
    {
        match receiver_node(self.sheet, j) {
            Some(v) => self.first(v),
            None => First::Value,
        }
    }
}
