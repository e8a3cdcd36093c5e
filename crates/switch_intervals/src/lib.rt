// The ranges of a switch in the flat table: their cuts, each range as an interval of pieces, and the bands of pieces with equal lists. A
// piece is a cut or lies between two: 128 cuts have 255 pieces, and no more bands.
#![tactic(auto)]

ghost use Rattle.std.specs.Prelude.{◌≡◌, List, map, ℕ, ◌+◌, ◌*◌, ◌-◌, ◌<◌, ◌≤◌, min, length, get_or, unwrap_or, IfSome};
ghost use Rattle.text.specs.Same.{same};
ghost use Rattle.sheet.specs.Limits.{max_entries};
ghost use Rattle.sheet.specs.Node.{child, next as next_of};
ghost use Rattle.sheet.specs.Walk.{skip};
ghost use Rattle.check_switches.specs.Switch.{case_count, range_count, first_case};
ghost use Rattle.switch_split.specs.Excess.{excess_of};
ghost use Rattle.switch_split.specs.Held.{excesses, Lists};
ghost use Rattle.switch_split.specs.Points.{cuts as cut_points, points as points_of};
ghost use Rattle.switch_split.specs.Points.{Strict};
ghost use Rattle.lowering.specs.Limits.{max_bands};
ghost use Rattle.lowering.specs.SwitchSheet.{int_at, range_of};
ghost use Rattle.switch_tables.specs.Columns.{size, spans_at, first_at, low_at, bands_at, band_hash_at, wanted_at, cell, Within, max_cuts};
ghost use Rattle.switch_tables.specs.Hash.{hash_of};
ghost use Rattle.switch_tables.specs.Place.{place};
ghost use Rattle.switch_tables.specs.Spans.{span_of};
ghost use Rattle.switch_tables.specs.Table.{ranges_read, spans_to, spans_in, piece_in, Spanned, CutWords, BandsAre, BandsHashed};
ghost use Rattle.switch_intervals.specs.Joining.{closed_in, closed_count, goes, Stepped};
ghost use Rattle.switch_intervals.specs.Marks.{AreRead, Cuts, Marked, with_span, with_marks};

use scratch::put;
use sheet::{Siblings, child, count, field_a, field_b, next};
use switch_lists::{Pieces, hash, piece_list, same_list};
use switch_split::{Points, distinct, from_words, high_word, low_word, sorted};
use switch_tables::{
    BAND_FIRST, BAND_HASH, BAND_LAST, BANDS, BEHIND, BLOCK, CUTS, ENTRIES, FIRST, HIGH, LOW, SPANS,
    Table,
};

// The number of Ranges.
fn range_count(sheet: &[u8]) -> usize
    ensures { result ≡ range_count sheet.now }
{
    let before = 1 + 2 * (field_a(sheet, 0) as usize) + (field_b(sheet, 0) as usize);
    (count(sheet, 0) as usize).saturating_sub(before)
}

// The integer at node `j`.
fn int_at(sheet: &[u8], j: u32) -> i64
    ensures { excess_of result ≡ int_at sheet.now j }
{
    from_words(field_a(sheet, j), field_b(sheet, j))
}

// Where the range at node `r` starts.
fn start_of(sheet: &[u8], r: u32) -> i64
    ensures { excess_of result ≡ int_at sheet.now (child r) }
{
    int_at(sheet, child(r))
}

// Where it ends.
fn end_of(sheet: &[u8], r: u32) -> i64
    ensures { excess_of result ≡ int_at sheet.now (next_of sheet.now (child r)) }
{
    int_at(sheet, next(sheet, child(r)))
}

// How many of the cuts are below `v`.
fn place_of(cuts: &[i64], v: i64) -> usize
    ensures upper_bound { result ≤ length cuts.now }
    ensures value { Strict (excesses cuts.now) → result ≡ place (excesses cuts.now) (excess_of v) }
{
    // Kept: a search by hand. `partition_point` was tried: of a slice of signed integers a proof has the range of an
    // item only where the code reads it, and `partition_point` asks for the order of all items.
    let mut lo = 0;
    let mut hi = cuts.len();
    while lo < hi {
        let mid = (lo + hi) / 2;
        if cuts[mid] < v {
            lo = mid + 1;
        } else {
            hi = mid;
        }
    }
    lo
}

// Where the number line is cut: two places for each range at most.
#[derive(Clone, Copy)]
struct CutList<'c> {
    at: &'c [i64],
    ghost few: { length at.now ≤ max_cuts },
}

impl<'c> CutList<'c> {
    // Their words.
    fn put(&self, table: &mut Table)
        ensures { Cuts (excesses self.now.at.now) table.new.cells × Within low_at bands_at table.old.cells table.new.cells }
    {
        for (i, cut) in self.at.iter().enumerate() {
            table.put(LOW + i, low_word(*cut));
            table.put(HIGH + i, high_word(*cut));
        }
    }

    // Range `i`, at node `r`, as an interval of the pieces between the cuts; the pieces where it starts and ends are marked.
    // Kept: pieces are numbers, by which they are counted, compared and marked; an enum would become a number again at each.
    fn put_span(&self, sheet: &[u8], table: &mut Table, i: usize, r: u32, marks: &mut [u32])
        requires { i < max_entries }
        ensures { let cs = excesses self.now.at.now in let x = span_of cs (range_of sheet.now r) in (Strict cs
            → (table.new.cells ≡ with_span table.old.cells i x) × (marks.new ≡ with_marks marks.old x)) }
    {
        let lo = 2 * place_of(self.at, start_of(sheet, r));
        let hi = 2 * place_of(self.at, end_of(sheet, r)) + usize::from(field_a(sheet, r) == 1);
        table.put(FIRST + i, lo as u32);
        table.put(BEHIND + i, hi as u32);
        table.put(BLOCK + i, field_b(sheet, r));
        put(marks, lo, 1);
        put(marks, hi, 1);
    }
}

// The Ranges that are read: so many nodes from `first` on.
// Kept: that `first` is the first Range (`AreRead`) is a premise: `read_ranges` takes any node, and promises nothing of another.
#[derive(Clone, Copy)]
struct RangeNodes<'s> {
    sheet: &'s [u8],
    first: u32,
    count: usize,
    ghost few: { count ≤ max_entries },
}

impl<'s> RangeNodes<'s> {
    // Their end points, in source order.
    fn points(&self) -> Points
        ensures { let sheet = self.now.sheet.now in
            (AreRead sheet self.now.first self.now.count → Lists result.at result.n (points_of (ranges_read sheet))) }
    {
        let mut at = [0i64; CUTS];
        let nodes = Siblings::new(self.sheet, self.count as u32, self.first);
        for (i, r) in nodes.enumerate() {
            at[2 * i] = start_of(self.sheet, r);
            at[2 * i + 1] = end_of(self.sheet, r);
        }
        Points {
            at,
            n: 2 * self.count,
        }
    }

    // Where they cut the number line.
    fn cuts(&self) -> Points
        ensures upper_bound { result.n ≤ max_cuts }
        ensures cuts { let sheet = self.now.sheet.now in
            (AreRead sheet self.now.first self.now.count → Lists result.at result.n (cut_points (ranges_read sheet))) }
    {
        distinct(sorted(self.points()))
    }

    // Their intervals.
    fn put_spans(&self, table: &mut Table, cuts: &CutList, marks: &mut [u32])
        ensures { let sheet = self.now.sheet.now in let cells = table.new.cells in
            (length marks.old ≡ 256 → ((j : ℕ) → j < 256 → get_or marks.old j 0 ≡ 0)
            → AreRead sheet self.now.first self.now.count → excesses cuts.now.at.now ≡ cut_points (ranges_read sheet)
            → (spans_to cells self.now.count ≡ map (span_of (cut_points (ranges_read sheet))) (ranges_read sheet))
            × (Marked marks.new (spans_to cells self.now.count) × Within first_at low_at table.old.cells cells)) }
    {
        let nodes = Siblings::new(self.sheet, self.count as u32, self.first);
        for (i, r) in nodes.enumerate() {
            cuts.put_span(self.sheet, table, i, r, marks);
        }
    }
}

// The bands so far, and the piece from which one is open, if one is.
// Kept: that it begins before piece `i` is a premise of `closed` and `changed`; as a ghost fact it would name `i`.
#[derive(Clone, Copy)]
struct Open {
    bands: usize,
    from: Option<usize>,
    ghost few: { bands ≤ max_bands },
}

// The band that is open is closed before piece `i`: how many bands there are then.
fn closed(table: &mut Table, o: Open, i: usize) -> usize
    requires i_le_max_bands { i ≤ max_bands }
    requires before { IfSome o.from (λ b. b < i) }
    ensures value { result ≡ closed_count o.bands (unwrap_or o.from i) i }
    ensures table_after { table.new.cells ≡ closed_in table.old.cells o.bands (unwrap_or o.from i) i }
{
    match o.from {
        Some(piece) => {
            table.put(BAND_FIRST + o.bands, piece as u32);
            table.put(BAND_LAST + o.bands, (i - 1) as u32);
            o.bands + 1
        }
        None => o.bands,
    }
}

// Whether a list, whose hash is `h`, is that of the band that is open. Lists are compared only where hashes are equal.
fn goes_on(table: &Table, o: Open, list: &[u32], h: u32) -> bool
    requires from_bound { IfSome o.from (λ b. b < max_bands) }
    ensures { let cells = table.now.cells in let list = list.now in (cell cells spans_at ≤ max_entries → h ≡ hash_of list
        → IfSome o.from (λ b. cell cells (band_hash_at + o.bands) ≡ hash_of (piece_in cells b))
        → result ≡ goes cells o.from list) }
{
    match o.from {
        Some(piece) => {
            if table.at(BAND_HASH + o.bands) == h {
                return same_list(&Pieces, &table.cells[..], list, piece as u32);
            }
            false
        }
        None => false,
    }
}

// Piece `i`, where a range starts or ends.
fn changed(table: &mut Table, o: Open, i: usize) -> Open
    requires behind { o.bands ≤ i }
    requires before { IfSome o.from (λ b. b < i) }
    requires i_lt_max_bands { i < max_bands }
    ensures bands_bound { result.bands ≤ o.bands + 1 }
    ensures after { IfSome result.from (λ b. b < i + 1) }
    ensures fact { let cells = table.old.cells in (cell cells spans_at ≤ max_entries
        → IfSome o.from (λ b. cell cells (band_hash_at + o.bands) ≡ hash_of (piece_in cells b))
        → Stepped cells o.bands (unwrap_or o.from i) i table.new.cells result.bands (unwrap_or result.from (i + 1))) }
{
    let mut room = [0u32; ENTRIES];
    let list = piece_list(&table.cells[..], i as u32, &mut room[..]);
    let h = hash(list);
    if goes_on(table, o, list, h) {
        return o;
    }
    let bands = closed(table, o, i);
    if list.is_empty() {
        return Open { bands, from: None };
    }
    table.put(BAND_HASH + bands, h);
    Open {
        bands,
        from: Some(i),
    }
}

// The bands of the pieces and their hashes. A piece where no range starts or ends has the list of the piece before.
fn put_bands(table: &mut Table, marks: &[u32])
    requires { length marks.now ≤ max_bands }
    ensures { let before = table.old.cells in let cells = table.new.cells in
        ((sheet : List ℕ) → Spanned sheet before → Marked marks.now (spans_in before)
        → length marks.now ≡ 2 * length (cut_points (ranges_read sheet)) - 1
        → BandsAre sheet cells × (BandsHashed cells × Within bands_at wanted_at before cells)) }
{
    let mut o = Open {
        bands: 0,
        from: None,
    };
    for (i, mark) in marks.iter().enumerate() {
        if *mark == 1 {
            o = changed(table, o, i);
        }
    }
    let k = closed(table, o, marks.len());
    table.put(BANDS, k as u32);
}

// The ranges from node `first` on: intervals, cuts, bands and their hashes.
pub fn read_ranges(sheet: &[u8], table: &mut Table, first: u32)
    ensures { let sheet = sheet.now in let cells = table.new.cells in
        (first ≡ skip sheet (case_count sheet) (first_case sheet)
        → Spanned sheet cells × (CutWords sheet cells × (BandsAre sheet cells
        × (BandsHashed cells × Within spans_at wanted_at table.old.cells cells)))) }
{
    let count = range_count(sheet).min(ENTRIES);
    table.put(SPANS, count as u32);
    if count == 0 {
        table.put(BANDS, 0);
        return;
    }
    let nodes = RangeNodes {
        sheet,
        first,
        count,
    };
    let points = nodes.cuts();
    let cuts = CutList {
        at: &points.at[..points.n],
    };
    // Kept: two arrays, one of cuts and one of pieces: no cell of one belongs to a cell of the other. Marks are words, put by
    // `scratch::put`, which asks for no bound: that a place is below 256 is known under the clause's premises alone.
    let mut marks = [0u32; 256];
    nodes.put_spans(table, &cuts, &mut marks[..]);
    cuts.put(table);
    put_bands(table, &marks[..(2 * cuts.at.len()).saturating_sub(1)]);
}

// As `read_ranges`, in a slice. One that is not as long as a table stays as it is.
// Kept: beside `read_ranges`, as `band_heads` of switch_heads.
pub fn ranges(sheet: &[u8], flat: &mut [u32], first: u32)
    ensures { let sheet = sheet.now in let cells = flat.new in
        (length flat.old ≡ size → first ≡ skip sheet (case_count sheet) (first_case sheet)
        → Spanned sheet cells × (CutWords sheet cells × (BandsAre sheet cells
        × (BandsHashed cells × Within spans_at wanted_at flat.old cells)))) }
{
    if let Some(mut table) = Table::of(flat) {
        read_ranges(sheet, &mut table, first);
        flat.copy_from_slice(&table.cells[..]);
    }
}
