// What a sheet needs before buffers are lent: its counts, the refusals by counts, and the words of scratch that its lowering asks for.
#![tactic(auto)]

ghost use Rattle.std.specs.Prelude.{◌+◌, ◌*◌, ◌≤◌, ◌≡◌, ◌↔◌, IsTrue};
ghost use Rattle.checks.specs.Checked as Checked;
ghost use Rattle.sheet.specs.Limits.{max_depth};
ghost use Rattle.sheet.specs.Sections.{local_count};
ghost use Rattle.sheet.specs.Node as nodes;
ghost use Rattle.lowering.specs.Kinds.{switch_kind};
ghost use Rattle.lowering.specs.Limits.{scratch_per_emitted, scratch_per_node, scratch_besides};
ghost use Rattle.expr_count.specs.Locals.{answer};
ghost use Rattle.expr_count.specs.Tally.{capped};
ghost use Rattle.expr_count.specs.Count.{tally_by};
ghost use Rattle.switch_places.specs.Counted.{Counted};
ghost use Rattle.needs.specs.Counts.{Counts, Decides, Exact, few_locals, over, early};
ghost use Rattle.needs.specs.Needed.{needed};

use checks::check;
use expr_count::locals::{Count, Locals};
use expr_count::tallies::Tally;
use lowering::MAX_EMITTED;
use refusals::Refusal;
use sheet::kinds::SWITCH;
use sheet::limits::MAX_DEPTH;
use sheet::{kind, local_count, node_count};
use switch_places::{count_table, read_table};
use switch_tables::Table;

// Words of scratch for each emitted instruction, for each node, and besides, as lowering/specs/Limits has them.
pub const PER_EMITTED: u64 = 16;

pub const PER_NODE: u64 = 16;

pub const BESIDES: u64 = 4096;

// Locals beside which each receiver's name is looked up for a count, as specs/Counts has them.
const FEW_LOCALS: u32 = 64;

// The words of scratch that number 11 asks for.
pub fn scratch_words(emitted: u32, nodes: u32) -> u64
    ensures { result ≡ scratch_per_emitted * emitted + scratch_per_node * nodes + scratch_besides }
{
    PER_EMITTED * u64::from(emitted) + PER_NODE * u64::from(nodes) + BESIDES
}

// Refusal 9 or 10 by counts alone.
fn over_limits(t: Tally) -> Result<(), Refusal>
    ensures { result ≡ over t.defeated t.emitted }
{
    if t.defeated {
        return Err(Refusal::Eval);
    }
    if MAX_EMITTED < t.emitted {
        return Err(Refusal::Emitted);
    }
    Ok(())
}

// Refusal 9, 10 or 11 by counts alone.
pub fn refusal(t: Tally, scratch: usize, nodes: u32) -> Result<(), Refusal>
    ensures { result ≡ early t.defeated t.emitted scratch nodes }
{
    over_limits(t)?;
    if (scratch as u64) < scratch_words(t.emitted as u32, nodes) {
        return Err(Refusal::ScratchShort);
    }
    Ok(())
}

// Both counts are refused alike, or neither is refused.
fn alike(a: Tally, b: Tally, scratch: usize, nodes: u32) -> bool
    ensures { IsTrue result ↔ (early a.defeated a.emitted scratch nodes ≡ early b.defeated b.emitted scratch nodes) }
{
    refusal(a, scratch, nodes) == refusal(b, scratch, nodes)
}

// The counts of an accepted expression, by the locals that are told.
fn counted(sheet: &[u8], told: Locals) -> Tally
    ensures { let sheet = sheet.now in result ≡ capped (tally_by (answer told.entry sheet) max_depth sheet 0) }
{
    Count { sheet, told }.tally(MAX_DEPTH, 0)
}

// An accepted Switch read into its table and counted, by the locals that are told.
// Kept: that the sheet is accepted, and that it is a Switch, are premises, here and below, as to_image says: a type that has them would
// ask more of callers.
fn planned(sheet: &[u8], told: Locals, table: &mut Table) -> Tally
    ensures { let sheet = sheet.now in
        let t = tally_by (answer told.entry sheet) max_depth sheet in
        (Checked.verdict_number (Checked.checked sheet) ≡ 0
        → nodes.kind sheet 0 ≡ switch_kind → Counted sheet t table.new.cells result) }
{
    let by = Count { sheet, told };
    read_table(&by, table);
    count_table(&by, table)
}

// The counts of an accepted sheet.
fn counts(sheet: &[u8]) -> Tally
    ensures { let sheet = sheet.now in (Checked.verdict_number (Checked.checked sheet) ≡ 0 → Counts sheet result) }
{
    if kind(sheet, 0) == SWITCH {
        let mut table = Table::empty();
        return planned(sheet, Locals::Sought, &mut table);
    }
    counted(sheet, Locals::Sought)
}

// The words of scratch that an accepted sheet needs, or why it is refused.
fn need_of(sheet: &[u8]) -> Result<u64, Refusal>
    ensures { let sheet = sheet.now in (Checked.verdict_number (Checked.checked sheet) ≡ 0 → result ≡ needed sheet) }
{
    let t = counts(sheet);
    over_limits(t)?;
    Ok(scratch_words(t.emitted as u32, node_count(sheet)))
}

// The words of scratch that a sheet needs; or it is refused, whatever is lent. Whatever the sheet is, the answer is the definition's.
pub fn needs(sheet: &[u8]) -> Result<u64, Refusal>
    ensures { result ≡ needed sheet.now }
{
    check(sheet)?;
    need_of(sheet)
}

// The counts by which an expression is refused or built. Beside many locals no name is looked up, where all of them or none as receivers
// are refused alike: the greater count is then enough.
pub fn plain_counts(sheet: &[u8], scratch: usize) -> Tally
    ensures { (nodes.kind sheet.now 0 ≡ switch_kind → ⊥) → Decides sheet.now scratch result }
{
    if local_count(sheet) <= FEW_LOCALS {
        return counted(sheet, Locals::Sought);
    }
    let most = counted(sheet, Locals::Nobody);
    if alike(
        counted(sheet, Locals::All),
        most,
        scratch,
        node_count(sheet),
    ) {
        return most;
    }
    counted(sheet, Locals::Sought)
}

// The counts by which a Switch is refused or built, as plain_counts has them. Beside few locals its table is counted by them.
// Kept: not one function with plain_counts over a closure that counts. What each of the calls leaves in the table is promised here, so the
// closure's contract would name the table, and be longer than these lines.
pub fn switch_counts(sheet: &[u8], scratch: usize, table: &mut Table) -> Tally
    ensures { let sheet = sheet.now in (Checked.verdict_number (Checked.checked sheet) ≡ 0 → nodes.kind sheet 0 ≡ switch_kind
        → Decides sheet scratch result × (local_count sheet ≤ few_locals → Exact sheet table.new.cells)) }
{
    if local_count(sheet) <= FEW_LOCALS {
        return planned(sheet, Locals::Sought, table);
    }
    let most = planned(sheet, Locals::Nobody, table);
    if alike(
        planned(sheet, Locals::All, table),
        most,
        scratch,
        node_count(sheet),
    ) {
        return most;
    }
    planned(sheet, Locals::Sought, table)
}

// The table of a Switch that is not refused, counted by its own locals.
pub fn settle(sheet: &[u8], table: &mut Table)
    ensures { let sheet = sheet.now in (Checked.verdict_number (Checked.checked sheet) ≡ 0 → nodes.kind sheet 0 ≡ switch_kind
        → (local_count sheet ≤ few_locals → Exact sheet table.old.cells) → Exact sheet table.new.cells) }
{
    if local_count(sheet) <= FEW_LOCALS {
        return;
    }
    planned(sheet, Locals::Sought, table);
}
