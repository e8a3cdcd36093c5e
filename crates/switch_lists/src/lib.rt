// Lists of blocks: read from a Case of the sheet or from the intervals of the flat table, hashed, compared. No list has over 64 blocks: of
// more Refs, which no accepted sheet has, the first 64 are read.
#![tactic(auto)]

ghost use Rattle.std.specs.Prelude.{◌≡◌, ℕ, ◌-◌, ◌<◌, ◌≤◌, min, List, length};
ghost use Rattle.text.specs.Same.{same};
ghost use Rattle.sheet.specs.Limits.{max_entries};
ghost use Rattle.sheet.specs.Node as nodes;
ghost use Rattle.switch_tables.specs.Columns.{cell, spans_at};
ghost use Rattle.switch_tables.specs.Hash.{hash_of};
ghost use Rattle.switch_tables.specs.Heads.{case_key};
ghost use Rattle.switch_tables.specs.Table.{piece_in};
ghost use Rattle.switch_lists.specs.Listed.{Listed};

use scratch::{get, put};
use sheet::{Siblings, child, count, field_a, next};
use switch_tables::{BEHIND, BLOCK, ENTRIES, FIRST, SPANS};

// The number of Refs of Case `c`, which are its children but the first.
fn ref_count(sheet: &[u8], c: u32) -> usize
    ensures { result ≡ min (nodes.count sheet.now c - 1) max_entries }
{
    (count(sheet, c) as usize).saturating_sub(1).min(ENTRIES)
}

// The list of Case `c`, written to the front of the room that is lent: how long it is.
// Kept: that the room has 64 words is a premise, here and below, and that a list has at most 64 blocks a promise, and a premise of `hash`:
// the functions are public and answer for any room and list, and a list is a slice, which a type around it would be opened for at each use.
pub fn list_of_case(sheet: &[u8], c: u32, room: &mut [u32]) -> usize
    ensures upper_bound { result ≤ max_entries }
    ensures listed { max_entries ≤ length room.old → Listed room.new result (case_key sheet.now c) }
{
    let n = ref_count(sheet, c);
    let refs = Siblings::new(sheet, n as u32, next(sheet, child(c)));
    for (i, j) in refs.enumerate() {
        put(room, i, field_a(sheet, j));
    }
    n
}

// The list of Case `c`, made in the room that is lent, as far as it goes.
pub fn case_list<'a>(sheet: &[u8], c: u32, room: &'a mut [u32]) -> &'a [u32]
    ensures upper_bound { length result.now ≤ max_entries }
    ensures list { max_entries ≤ length room.old → result.now ≡ case_key sheet.now c }
{
    let n = list_of_case(sheet, c, room);
    &room[..n.min(room.len())]
}

// The list of piece `p`, written to the front of the room that is lent: the blocks of the ranges that cover it, in source order; how
// many they are.
pub fn list_of_piece(flat: &[u32], p: u32, room: &mut [u32]) -> usize
    ensures upper_bound { result ≤ max_entries }
    ensures listed { cell flat.now spans_at ≤ max_entries → max_entries ≤ length room.old
        → Listed room.new result (piece_in flat.now p) }
{
    let n = (get(flat, SPANS) as usize).min(ENTRIES);
    // Kept: `k` counts what is put, and is asked behind the loop; an `enumerate` over a `filter` would be counted again for it.
    let mut k = 0;
    for i in 0..n {
        if (get(flat, FIRST + i) <= p) & (p < get(flat, BEHIND + i)) {
            put(room, k, get(flat, BLOCK + i));
            k += 1;
        }
    }
    k
}

// The list of piece `p`, made in the room that is lent, as far as it goes.
pub fn piece_list<'a>(flat: &[u32], p: u32, room: &'a mut [u32]) -> &'a [u32]
    ensures upper_bound { length result.now ≤ max_entries }
    ensures list { cell flat.now spans_at ≤ max_entries → max_entries ≤ length room.old → result.now ≡ piece_in flat.now p }
{
    let k = list_of_piece(flat, p, room);
    &room[..k.min(room.len())]
}

// The hash of a list.
// Kept: `%`, as the definition has it. Between two steps `h` is wider than a word, so there is no sum of words that wraps; and `as` may
// lose no bits.
pub fn hash(list: &[u32]) -> u32
    ensures { length list.now ≤ max_entries → result ≡ hash_of list.now }
{
    let mut h = (list.len() as u64) % 4294967296;
    for x in list {
        h = (h + u64::from(*x) + 1) % 4294967296 * 2654435769 / 65536;
    }
    (h % 4294967296) as u32
}

// Lists of blocks by number: of the Cases of a sheet, by node, or of the pieces of the table. What `known` says is taken to be so.
// Kept: the table is a parameter, which `Cases` does not look at. As a field of `Pieces` it could not be lent
// to be written while that stands.
pub trait Lists {
    ghost known: { Self → List ℕ → Type 0 };

    ghost list_of: { Self → List ℕ → ℕ → List ℕ };

    // The list of number `k`, made in the room that is lent, as far as it goes.
    fn list<'a>(&self, flat: &[u32], k: u32, room: &'a mut [u32]) -> &'a [u32]
        ensures upper_bound { length result.now ≤ max_entries }
        ensures list { known self.now flat.now → max_entries ≤ length room.old → result.now ≡ list_of self.now flat.now k };
}

// The lists of the Cases, by their nodes.
#[derive(Clone, Copy)]
pub struct Cases<'s> {
    pub sheet: &'s [u8],
}

impl<'s> Lists for Cases<'s> {
    ghost known = { λ _ _. Unit {0} };

    ghost list_of = { λ from _ c. case_key from.sheet.now c };

    fn list<'a>(&self, _flat: &[u32], k: u32, room: &'a mut [u32]) -> &'a [u32] {
        case_list(self.sheet, k, room)
    }
}

// The lists of the pieces.
#[derive(Clone, Copy)]
pub struct Pieces;

impl Lists for Pieces {
    ghost known = { λ _ cells. cell cells spans_at ≤ max_entries };

    ghost list_of = { λ _ cells p. piece_in cells p };

    fn list<'a>(&self, flat: &[u32], k: u32, room: &'a mut [u32]) -> &'a [u32] {
        piece_list(flat, k, room)
    }
}

// Whether a list is that of number `k`.
pub fn same_list<L: Lists>(lists: &L, flat: &[u32], list: &[u32], k: u32) -> bool
    ensures { L.known lists.now flat.now → result ≡ same list.now (L.list_of lists.now flat.now k) }
{
    let mut room = [0u32; ENTRIES];
    let other = lists.list(flat, k, &mut room[..]);
    list == other
}
