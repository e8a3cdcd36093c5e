// The check of a sheet: refusals 1 to 4, 14 and 5 to 8, in this order. Any bytes are answered, nothing is written, and no memory is
// used but locals.
#![tactic(auto)]

ghost use Rattle.std.specs.Prelude.{◌≡◌, true, false, Ok, Err};
ghost use Rattle.check_numbers.specs.Numbers.{node_numbers_ok};
ghost use Rattle.checks.specs.Checked as answers;
ghost use Rattle.checks.specs.Rest.{rest_checked};

use check_depth::depth_ok;
use check_names::names_ok;
use check_numbers::{locals_ok, numbers_ok};
use check_pass::passes;
use check_shape::shape_ok;
use check_sizes::sizes_ok;
use check_support::supported_ok;
use check_switches::{cases_ok, entries_ok};
use check_texts::texts_ok;
use refusals::Refusal;

// The refusal `by`, where a test did not pass. With `?` behind it the next test is made only where this one passed.
fn asked(ok: bool, by: Refusal) -> Result<(), Refusal>
    ensures { result ≡ elim ok [ true ↦ Ok tt | false ↦ Err by ] }
{
    if ok {
        return Ok(());
    }
    Err(by)
}

// From refusal 5 on.
fn tree(sheet: &[u8]) -> Result<(), Refusal>
    ensures { result ≡ answers.tree_checked sheet.now }
{
    asked(depth_ok(sheet), Refusal::Depth)?; // 5
    asked(entries_ok(sheet), Refusal::Arms)?; // 6
    asked(cases_ok(sheet), Refusal::Twice)?; // 7
    asked(supported_ok(sheet), Refusal::Unsupported) // 8
}

// The answer for any byte string, refusal by refusal.
fn by_number(sheet: &[u8]) -> Result<(), Refusal>
    ensures { result ≡ answers.checked sheet.now }
{
    asked(sizes_ok(sheet), Refusal::Size)?; // 1
    asked(shape_ok(sheet), Refusal::Shape)?; // 2
    asked(texts_ok(sheet), Refusal::Text)?; // 3
    asked(numbers_ok(sheet), Refusal::Number)?; // 4
    asked(names_ok(sheet), Refusal::EmptyName)?; // 14
    tree(sheet)
}

// What is left where nothing of refusals 1, 2, 4 (of nodes), 5 and 8 holds.
fn rest(sheet: &[u8]) -> Result<(), Refusal>
    requires numbers { node_numbers_ok sheet.now ≡ true }
    ensures { result ≡ rest_checked sheet.now }
{
    asked(texts_ok(sheet), Refusal::Text)?;
    asked(locals_ok(sheet), Refusal::Number)?;
    asked(names_ok(sheet), Refusal::EmptyName)?;
    asked(entries_ok(sheet), Refusal::Arms)?;
    asked(cases_ok(sheet), Refusal::Twice)
}

// Nothing refuses, or the first cause that fits, for any byte string: in one pass over the nodes where all of them are well, and refusal
// by refusal where not.
pub fn check(sheet: &[u8]) -> Result<(), Refusal>
    ensures { result ≡ answers.checked sheet.now }
{
    asked(sizes_ok(sheet), Refusal::Size)?;
    if passes(sheet) {
        return rest(sheet);
    }
    by_number(sheet)
}
