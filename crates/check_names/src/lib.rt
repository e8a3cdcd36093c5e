// Refusal 14: an own name without bytes.
#![tactic(auto)]

ghost use Rattle.std.specs.Prelude.{◌≡◌, true, ◌<◌};
ghost use Rattle.words.specs.Count.{all_below};
ghost use Rattle.sheet.specs.Sections.{text_count, lengths_at};
ghost use Rattle.check_numbers.specs.Numbers.{numbers_ok};
ghost use Rattle.check_names.specs.Names as names;

use sheet::kinds::{FN_CALL, METHOD_CALL, PROPERTY, VARIABLE};
use sheet::{field_a, kind, lengths_at, local_count, locals_at, node_count, text_count};
use words::word_at;

// The kinds with an own name: Variable, Property, MethodCall, FnCall.
fn has_name(k: u32) -> bool
    ensures { result ≡ names.has_name k }
{
    (k == VARIABLE) | (k == PROPERTY) | (k == METHOD_CALL) | (k == FN_CALL)
}

// A sheet, and where the lengths of its texts stand, in words, which is read once, before the loops.
#[derive(Clone, Copy)]
struct Lengths<'a> {
    sheet: &'a [u8],
    at: usize,
    ghost place: { at ≡ lengths_at sheet.now },
    ghost near: { at < 60000000000 },
}

impl<'a> Lengths<'a> {
    fn of(sheet: &'a [u8]) -> Lengths<'a>
        ensures { result.sheet.now ≡ sheet.now }
    {
        Lengths {
            sheet,
            at: lengths_at(sheet),
        }
    }

    // Text `t` has bytes.
    fn has_bytes(&self, t: u32) -> bool
        ensures { result ≡ names.has_bytes self.now.sheet.now t }
    {
        0 < word_at(self.sheet, self.at + (t as usize))
    }

    // Every text has bytes.
    fn all_have_bytes(&self) -> bool
        ensures { let sheet = self.now.sheet.now in result ≡ all_below (text_count sheet) (names.has_bytes sheet) }
    {
        let x = text_count(self.sheet);
        (0..x).all(|t| self.has_bytes(t))
    }

    // The own name of node `n` has bytes, if it has one.
    fn node_ok(&self, n: u32) -> bool
        ensures { result ≡ names.node_name_ok self.now.sheet.now n }
    {
        if has_name(kind(self.sheet, n)) {
            return self.has_bytes(field_a(self.sheet, n));
        }
        true
    }

    // The own names of all nodes have bytes.
    fn nodes_ok(&self) -> bool
        ensures { result ≡ names.node_names_ok self.now.sheet.now }
    {
        let m = node_count(self.sheet);
        (0..m).all(|n| self.node_ok(n))
    }

    // The names of all locals have bytes. Where they stand is read once, before the loop.
    fn locals_ok(&self) -> bool
        ensures { result ≡ names.local_names_ok self.now.sheet.now }
    {
        let at = locals_at(self.sheet);
        let m = local_count(self.sheet);
        (0..m).all(|l| self.has_bytes(word_at(self.sheet, at + (l as usize))))
    }
}

// Nothing of refusal 14, of a sheet with nothing of refusal 4: there each name is a text, so that nodes and locals are looked at only where
// some text has no bytes. Of other sheets the answer says nothing.
// Kept: that as a premise in the answer, and no `requires`: who has passed refusal 4 hands it on where the answer is used.
pub fn names_ok(sheet: &[u8]) -> bool
    ensures { numbers_ok sheet.now ≡ true → result ≡ names.names_ok sheet.now }
{
    let lengths = Lengths::of(sheet);
    if lengths.all_have_bytes() {
        return true;
    }
    let nodes = lengths.nodes_ok();
    let locals = lengths.locals_ok();
    nodes & locals
}
