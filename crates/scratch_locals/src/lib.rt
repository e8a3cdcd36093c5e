// The local of each Variable, found by hash before the lowering starts, and read by the lowering and the image. Few locals are gone through
// at each use.
#![tactic(auto)]

ghost use Rattle.std.specs.Prelude.{◌≡◌, ℕ, ◌+◌, ◌/◌};
ghost use Rattle.sheet.specs.Sections.{local_count};
ghost use Rattle.sheet.specs.Node as nodes;
ghost use Rattle.sheet.specs.Text as texts;
ghost use Rattle.lowering.specs.Slots as locals;
ghost use Rattle.expr_slots.specs.Found as answers;
ghost use Rattle.expr_chains.specs.Same.{RootLocal};
ghost use Rattle.scratch.specs.Places as places;
ghost use Rattle.scratch_index.specs.Consts.{const_slot};
ghost use Rattle.scratch_index.specs.Locals.{Slots};
ghost use Rattle.scratch_locals.specs.Pass as passes;
ghost use Rattle.scratch_locals.specs.Pass.{has_text, Met, Meets, Telling, Tells, Settling, Settles, Prepares, Begins};

use expr_chains::same_text;
use expr_slots::resolve;
use scratch::{Index, Layout, get, put};
use scratch_folds::{fill, hash_text};
use scratch_index::{Wanted, link, note, seek};
use sheet::kinds::VARIABLE;
use sheet::{child, field_a, kind, local_count, local_text, role};

// So many locals or fewer are gone through at each use.
pub const FEW: u32 = 32;

// Where the local of Variable `j` stands.
// Kept: beside `link` of scratch_index, which goes by an Index, whose places are words and wrap; this stands for every layout. expr_count
// reads the same words (`told_by`), and is below scratch_index.
fn slot_place(layout: Layout, j: u32) -> usize
    ensures { result ≡ places.links_at layout + const_slot j }
{
    layout.links_at() + 2 * (j as usize)
}

// The Variable with a text.
#[derive(Clone, Copy)]
struct TextOf<'a> {
    sheet: &'a [u8],
    text: u32,
}

impl<'a> Wanted for TextOf<'a> {
    ghost told = { λ _. Unit {0} };

    ghost same = { λ it k. has_text it.sheet.now it.text k };

    ghost slot = { const_slot };

    #[tactic(auto, unfolding(expr_chains::specs::Same::same_text))]
    fn same(&self, k: u32) -> bool {
        same_text(self.sheet, self.text, field_a(self.sheet, k))
    }

    fn link(&self, ix: Index, k: u32) -> usize {
        link(ix, k)
    }
}

// The pass that finds the local of each Variable: its sheet, and the layout of the scratch that each step is lent.
// Kept: the scratch is no field. Behind `&mut self` each step would have to promise that sheet and layout stay;
// by value nothing need be said.
// Kept: three lists of the lent scratch, and no slice of structs. The key and the local of each name are in the lists of names and of
// tokens, the rank of each node in that of chains, and how many names there are goes beside. There is no heap, and `seek` reads keys
// where the index has them.
#[derive(Clone, Copy)]
struct Pass<'a> {
    sheet: &'a [u8],
    layout: Layout,
}

impl<'a> Pass<'a> {
    // Node `j` behind `n` different names: the rank of a Variable's name goes into its word, and a new name behind the others. Answers how
    // many there are then.
    fn meet(self, scratch: &mut [u32], n: u32, j: u32) -> u32
        ensures { let it = self.entry in Meets it.sheet.now it.layout j n scratch.old scratch.new result }
    {
        if kind(self.sheet, j) != VARIABLE {
            return n;
        }
        let layout = self.layout;
        let ix = layout.name_index();
        let t = field_a(self.sheet, j);
        let h = hash_text(self.sheet, &scratch[..], layout.sums_at(), t);
        let wanted = TextOf {
            sheet: self.sheet,
            text: t,
        };
        let rank_at = layout.chains_at() + (j as usize);
        if let Some(r) = seek(&wanted, &scratch[..], ix, h) {
            put(scratch, rank_at, r);
            return n;
        }
        put(scratch, rank_at, n);
        put(scratch, layout.tokens_at() + (n as usize), 0);
        put(scratch, layout.names_at() + (n as usize), j);
        note(scratch, ix, link(ix, j), h, n);
        n.wrapping_add(1)
    }

    // All nodes, and how many different names they have.
    fn meet_all(self, scratch: &mut [u32]) -> u32
        ensures { let it = self.entry in (Met it.sheet.now it.layout 0 0 scratch.old
            → Met it.sheet.now it.layout it.layout.nodes result scratch.new) }
    {
        let mut n: u32 = 0;
        for j in 0..self.layout.nodes {
            n = self.meet(scratch, n, j);
        }
        n
    }

    // Local `k`: where a Variable has its name, it is the last one so far.
    // Kept: the word of a name, and the slot that `settle` writes by it, is the local plus 1, and 0 is none: a word of the lent scratch has
    // no Option. `found_by` makes it one where it is read.
    fn tell(self, scratch: &mut [u32], k: u32)
        ensures { let it = self.entry in (n : ℕ) → Tells it.sheet.now it.layout n k scratch.old scratch.new }
    {
        let layout = self.layout;
        let t = local_text(self.sheet, k);
        let h = hash_text(self.sheet, &scratch[..], layout.sums_at(), t);
        let wanted = TextOf {
            sheet: self.sheet,
            text: t,
        };
        if let Some(r) = seek(&wanted, &scratch[..], layout.name_index(), h) {
            put(
                scratch,
                layout.tokens_at() + (r as usize),
                k.wrapping_add(1),
            );
        }
    }

    // All locals, from the first on.
    fn tell_all(self, scratch: &mut [u32], n: u32)
        ensures { let it = self.entry in
            let sheet = it.sheet.now in
            (Telling sheet it.layout n 0 scratch.old → Telling sheet it.layout n (local_count sheet) scratch.new) }
    {
        let m = local_count(self.sheet);
        for k in 0..m {
            self.tell(scratch, k);
        }
    }

    // Node `j`: a Variable gets the local of its rank.
    fn settle(self, scratch: &mut [u32], j: u32)
        ensures { let it = self.entry in Settles it.sheet.now it.layout j scratch.old scratch.new }
    {
        if kind(self.sheet, j) != VARIABLE {
            return;
        }
        let layout = self.layout;
        let r = get(&scratch[..], layout.chains_at() + (j as usize));
        let a = get(&scratch[..], layout.tokens_at() + (r as usize));
        put(scratch, slot_place(layout, j), a);
    }

    // All nodes.
    fn settle_all(self, scratch: &mut [u32])
        ensures { let it = self.entry in (Settling it.sheet.now it.layout 0 scratch.old
            → Settling it.sheet.now it.layout it.layout.nodes scratch.new) }
    {
        for j in 0..self.layout.nodes {
            self.settle(scratch, j);
        }
    }

    // The local of every Variable.
    fn prepare(self, scratch: &mut [u32])
        ensures { let it = self.entry in Prepares it.sheet.now it.layout scratch.old scratch.new }
    {
        self.layout.clear_index(scratch);
        let n = self.meet_all(scratch);
        self.tell_all(scratch, n);
        self.settle_all(scratch);
    }
}

// Kept: `begin`, `local_of` and `root_local` take sheet, scratch and layout apart, which no two of their callers hold in one struct: beside
// each other before a Store is made, with the sheet beside a Store, in `Names`. All but the last would make one for the call.
// The scratch before the lowering: what is kept for long texts is written, no entry stands in any index, and the local of every Variable is
// told where there are many.
pub fn begin(sheet: &[u8], scratch: &mut [u32], layout: Layout)
    ensures { Begins sheet.now layout scratch.old scratch.new }
{
    fill(sheet, scratch, layout.sums_at());
    if local_count(sheet) <= FEW {
        layout.clear_index(scratch);
        return;
    }
    let pass = Pass { sheet, layout };
    pass.prepare(scratch);
    layout.clear_index(scratch);
}

// A word of a slot as an answer: the local plus 1, or 0 where there is none, as a word of the lent scratch has no Option.
fn found_by(a: u32) -> Option<u32>
    ensures { result ≡ passes.found_by a }
{
    a.checked_sub(1)
}

// The same where the locals are gone through.
fn by_name(sheet: &[u8], v: u32) -> Option<u32>
    ensures { let sheet = sheet.now in
        result ≡ answers.found (locals.resolve sheet (texts.text sheet (nodes.field_a sheet v))) }
{
    resolve(sheet, field_a(sheet, v))
}

// The local that has the name in field a of node `v`: from its slot, where `v` is a Variable and there are many locals.
pub fn local_of(sheet: &[u8], scratch: &[u32], layout: Layout, v: u32) -> Option<u32>
    ensures { let sheet = sheet.now in
        (Slots sheet layout scratch.now → result ≡ answers.found (locals.resolve sheet (texts.text sheet (nodes.field_a sheet v)))) }
{
    if local_count(sheet) <= FEW {
        return by_name(sheet, v);
    }
    if kind(sheet, v) != VARIABLE {
        return by_name(sheet, v);
    }
    if layout.nodes <= v {
        return by_name(sheet, v);
    }
    found_by(get(scratch, slot_place(layout, v)))
}

// The root of the chain of node `j` is a variable that is a local.
pub fn root_local(sheet: &[u8], scratch: &[u32], layout: Layout, j: u32) -> bool
    ensures { let sheet = sheet.now in (Slots sheet layout scratch.now → RootLocal sheet (nodes.child j) result) }
{
    let v = child(j);
    if role(sheet, v) == VARIABLE {
        return local_of(sheet, scratch, layout, v).is_some();
    }
    false
}
