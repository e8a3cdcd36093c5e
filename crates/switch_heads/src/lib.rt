// Which cases and which bands are the first with their list of blocks, and the number of each one's head. A list is compared with that of a
// head only where their hashes are equal.
#![tactic(auto)]

ghost use Rattle.std.specs.Prelude.{◌≡◌, ◌+◌, ◌<◌, ◌≤◌, length, unwrap_or, IfSome};
ghost use Rattle.sheet.specs.Limits.{max_entries};
ghost use Rattle.sheet.specs.Walk.{skip};
ghost use Rattle.check_switches.specs.Switch.{case_count, first_case};
ghost use Rattle.lowering.specs.Limits.{max_bands};
ghost use Rattle.switch_tables.specs.Columns.{size, cell, spans_at, wanted_at, Within, case_heads_at, bands_at, band_heads_at};
ghost use Rattle.switch_tables.specs.Hash.{hash_of};
ghost use Rattle.switch_tables.specs.Numbers.{number_in};
ghost use Rattle.switch_tables.specs.Table.{CaseHeads, BandHeads};
ghost use Rattle.switch_heads.specs.Hashed.{lists_by, Hashed, Numbered, met_at};

use scratch::{get, put};
use sheet::{field_b, next};
use switch_lists::{Cases, Lists, Pieces, hash, same_list};
use switch_tables::{
    BAND_FIRST, BAND_HEAD, BAND_HEAD_HASH, BAND_HEADS, BAND_NUMBER, BANDS, CASE_HEADS, CASE_NUMBER,
    ENTRIES, HEAD_HASH, HEAD_NODE, MOST_BANDS, Table,
};

// Columns of the table: the number of each list, and of each head whose list it is and its hash.
// Kept: beside `Heads` of switch_places: in one type the hashes of bands and their exits would be one column under two names (BAND_EXIT is
// BAND_HEAD_HASH).
#[derive(Clone, Copy)]
struct Heads {
    numbers: usize,
    nodes: usize,
    hashes: usize,
    ghost there: { (numbers ≤ size) × (nodes ≤ size) × (hashes ≤ size) },
}

const OF_CASES: Heads = Heads {
    numbers: CASE_NUMBER,
    nodes: HEAD_NODE,
    hashes: HEAD_HASH,
};

const OF_BANDS: Heads = Heads {
    numbers: BAND_NUMBER,
    nodes: BAND_HEAD,
    hashes: BAND_HEAD_HASH,
};

// The number of a list, whose hash is `h`, among so many heads, if one of them has it.
fn number_of<L: Lists>(
    lists: &L,
    flat: &[u32],
    at: Heads,
    heads: usize,
    list: &[u32],
    h: u32,
) -> Option<usize>
    requires few { heads ≤ max_bands }
    ensures upper_bound { IfSome result (λ q. q < heads) }
    ensures number { let key = L.list_of lists.now flat.now in
        (L.known lists.now flat.now → h ≡ hash_of list.now → Hashed key flat.now at.nodes at.hashes heads
        → unwrap_or result heads ≡ number_in list.now (lists_by key flat.now at.nodes heads)) }
{
    // Kept: the closure asks that the columns lie in the table, since it captures two fields, and not the fact of their type.
    (0..heads).find(
        |q: &usize|
            requires { (q.now ≤ max_bands) × (at.nodes ≤ size) × (at.hashes ≤ size) }
            ensures { L.known lists.entry.now flat.entry.now
                → result ≡ met_at (L.list_of lists.entry.now flat.entry.now) flat.entry.now at.nodes at.hashes list.entry.now h q.now }
        {
            get(flat, at.hashes + *q) == h && same_list(lists, flat, list, get(flat, at.nodes + *q))
        },
    )
}

// List `i`, that of `k`, gets its number among so many heads. If it is the first of its kind, it is one more head.
// Answered is how many there are then.
fn numbered<L: Lists>(
    lists: &L,
    flat: &mut [u32],
    at: Heads,
    heads: usize,
    i: usize,
    k: u32,
) -> usize
    requires few { heads ≤ max_bands }
    requires i_bound { i ≤ max_bands }
    ensures upper_bound { result ≤ heads + 1 }
    ensures number { let key = L.list_of lists.now flat.old in
        (L.known lists.now flat.old → Hashed key flat.old at.nodes at.hashes heads
        → Numbered key at.numbers at.nodes at.hashes flat.old heads i k flat.new result) }
{
    let mut room = [0u32; ENTRIES];
    let list = lists.list(flat, k, &mut room[..]);
    let h = hash(list);
    match number_of(lists, flat, at, heads, list, h) {
        Some(q) => {
            put(flat, at.numbers + i, q as u32);
            heads
        }
        None => {
            put(flat, at.numbers + i, heads as u32);
            put(flat, at.nodes + heads, k);
            put(flat, at.hashes + heads, h);
            heads + 1
        }
    }
}

// The cases from node `first` on. The node behind them is answered.
pub fn case_heads(sheet: &[u8], flat: &mut [u32], first: u32) -> u32
    ensures fact { let sheet = sheet.now in (first ≡ first_case sheet → case_count sheet ≤ max_entries
        → result ≡ skip sheet (case_count sheet) (first_case sheet)) }
    ensures fact_2 { let sheet = sheet.now in (length flat.old ≡ size → first ≡ first_case sheet
        → CaseHeads sheet flat.new × Within case_heads_at spans_at flat.old flat.new) }
{
    let n = (field_b(sheet, 0) as usize).min(ENTRIES);
    let lists = Cases { sheet };
    let mut heads = 0;
    // Kept: a walk by hand. The node behind the last is answered: over `Siblings` that takes `by_ref`, a method of it that tells, and
    // `enumerate`, in as many lines.
    let mut c = first;
    for i in 0..n {
        heads = numbered(&lists, flat, OF_CASES, heads, i, c);
        c = next(sheet, c);
    }
    put(flat, CASE_HEADS, heads as u32);
    c
}

// The bands.
// Kept: each list is hashed here, though `ranges` has put its hash beside it. What is promised holds of every table, also of one with other
// hashes; to read them would ask of callers that they are right.
pub fn fill_band_heads(table: &mut Table)
    ensures { let cells = table.old.cells in (cell cells spans_at ≤ max_entries → cell cells bands_at ≤ max_bands
        → BandHeads table.new.cells × Within band_heads_at wanted_at cells table.new.cells) }
{
    let n = (table.at(BANDS) as usize).min(MOST_BANDS);
    let mut heads = 0;
    // Kept: an index, since the column that is read lies in the table that each turn writes.
    for i in 0..n {
        let p = table.at(BAND_FIRST + i);
        heads = numbered(&Pieces, &mut table.cells[..], OF_BANDS, heads, i, p);
    }
    table.put(BAND_HEADS, heads as u32);
}

// As `fill_band_heads`, in a slice. One that is not as long as a table stays as it is.
// Kept: beside `fill_band_heads`, and so in switch_intervals and switch_places: a caller may have any slice,
// and a Table is an array by value.
// The four of this kind are three lines each; one function would take the work as a closure, whose contract each would have to say again.
pub fn band_heads(flat: &mut [u32])
    ensures { let cells = flat.old in
        (length cells ≡ size → cell cells spans_at ≤ max_entries → cell cells bands_at ≤ max_bands
        → BandHeads flat.new × Within band_heads_at wanted_at cells flat.new) }
{
    if let Some(mut table) = Table::of(flat) {
        fill_band_heads(&mut table);
        flat.copy_from_slice(&table.cells[..]);
    }
}
