// The lowering of the Switch at node 0 into the lent scratch, by the flat table. Each function does to the scratch what its definition in
// crate switch_model does to what has been made so far.
#![tactic(auto)]

ghost use Rattle.std.specs.Prelude.{◌≡◌, length};
ghost use Rattle.sheet.specs.Limits.{max_depth};
ghost use Rattle.lowering.specs.SwitchSheet.{cases_of, default_block};
ghost use Rattle.scratch.specs.declared.Layout.{Layout};
ghost use Rattle.expr_model.specs.Made.{Made, lowered};
ghost use Rattle.scratch_store.specs.Stores.{Held, Done};
ghost use Rattle.switch_model.specs.Change as change;
ghost use Rattle.switch_tables.specs.Columns.{size, case_const_at, Within};
ghost use Rattle.switch_tables.specs.Planned.{Tables, Placed, entries, want_in};
ghost use Rattle.switch_emit.specs.Ready.{Ready};
ghost use Rattle.switch_emit.specs.Parts as parts;
ghost use Rattle.switch_emit.specs.Consts.{ConstsAt};

mod arms;
mod bodies;
mod jumps;

use arms::{case_arms, range_arms};
use bytecode::Op;
use check_switches::first_case;
use expr_emit::expression;
use scratch::{get, put};
use scratch_store::Store;
use sheet::limits::{MAX_DEPTH, MAX_ENTRIES};
use sheet::{Siblings, child, field_b, field_c};
use switch_tables::{BANDS, CASE_CONST};

// Kept: sheet, store and table go as three parameters, here, in `arms` and in `bodies`. A struct of them would hold a `&mut` of a struct
// that holds one itself, which the check does not cover.
// Kept: what is known of a sheet and its table (`Ready`, `Guards`, `Tables`, `Placed`) stands left of an arrow, here, in `arms` and in
// `bodies`. `switch` and `case_consts` answer for every sheet and table; a type that had these facts would ask more of their callers.
// The constants of the Cases, and the place of each.
pub fn case_consts(sheet: &[u8], store: &mut Store, flat: &mut [u32])
    ensures does { let sheet = sheet.now in ((l : Layout) → Ready sheet
        → Done sheet l store.old store.new
        (change.cases_to sheet (cases_of sheet))) }
    ensures consts { let sheet = sheet.now in ((l : Layout) (a : Made) → Ready sheet
        → length flat.old ≡ size
        → Held sheet l store.old a
        → ConstsAt sheet flat.new a) }
    ensures within { Within case_const_at size flat.old flat.new }
    ensures same_reference { store.new.scratch.ghost_name ≡ store.old.scratch.ghost_name }
{
    let n = field_b(sheet, 0).min(MAX_ENTRIES);
    let cases = Siblings::new(sheet, n, first_case(sheet));
    for (i, j) in cases.enumerate() {
        let p = store.add_const(sheet, child(j));
        put(flat, CASE_CONST + i, p);
    }
}

// The subject, and the first Switch.
fn subject(sheet: &[u8], store: &mut Store)
    ensures does { let sheet = sheet.now in ((l : Layout) → Ready sheet
        → Done sheet l store.old store.new
        (change.subject_to (lowered max_depth sheet))) }
    ensures same_reference { store.new.scratch.ghost_name ≡ store.old.scratch.ghost_name }
{
    expression(MAX_DEPTH, sheet, store, child(0));
    store.emit(Op::Switch(0), 0, 0);
}

// The chains of the cases; the second Switch and the chains of the ranges, if the split has entries.
fn chains(sheet: &[u8], store: &mut Store, flat: &[u32])
    ensures does { let sheet = sheet.now in
        ((l : Layout) → Ready sheet → Tables sheet flat.now
        → Placed sheet flat.now
        → Done sheet l store.old store.new
        (change.chains_to sheet (lowered max_depth sheet) (parts.targets_in flat.now)
        (entries sheet))) }
    ensures same_reference { store.new.scratch.ghost_name ≡ store.old.scratch.ghost_name }
{
    if get(flat, BANDS) == 0 {
        case_arms(sheet, store, flat, false);
        return;
    }
    case_arms(sheet, store, flat, true);
    store.emit(Op::Switch(1), 0, 0);
    range_arms(sheet, store, flat);
}

// The switch, with all that its table has.
pub fn switch(sheet: &[u8], store: &mut Store, flat: &[u32])
    ensures does { let sheet = sheet.now in
        ((l : Layout) → Ready sheet → Tables sheet flat.now
        → Placed sheet flat.now
        → Done sheet l store.old store.new
        (change.switch_to sheet (lowered max_depth sheet) (parts.targets_in flat.now) (entries sheet)
        (default_block sheet) (want_in flat.now))) }
    ensures same_reference { store.new.scratch.ghost_name ≡ store.old.scratch.ghost_name }
{
    let def = field_c(sheet, 0).checked_sub(1);
    subject(sheet, store);
    chains(sheet, store, flat);
    bodies::bodies(sheet, store, flat, def.is_some());
    bodies::missing(store, def);
    bodies::close(store);
}
