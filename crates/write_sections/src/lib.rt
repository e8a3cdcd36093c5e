// The sections of an image. Each function writes the whole of a part that is lent to it, of just the length that the section has.
#![tactic(auto)]

ghost use Rattle.std.specs.Prelude.{◌≡◌, map, ◌+◌, ◌*◌, ◌<◌, ◌≤◌, length};
ghost use Rattle.sheet.specs.Node as nodes;
ghost use Rattle.bytecode.specs.Chain.{chain_words};
ghost use Rattle.lowering.specs.Limits.{sizes_words, const_width, name_width, chain_width, step_width};
ghost use Rattle.lowering.specs.Flatten as flatten;
ghost use Rattle.lowering.specs.Pools.{const_of, steps_words};
ghost use Rattle.lowering.specs.Image.{section, const_words, name_words};
ghost use Rattle.expr_rules.specs.Reads.{Reads};
ghost use Rattle.expr_chains.specs.Steps as chains;
ghost use Rattle.expr_chains.specs.Kept as kept;
ghost use Rattle.scratch_keys.specs.Keys.{name_of};
ghost use Rattle.scratch_index.specs.Held.{NamesHold, names_held};
ghost use Rattle.write_sections.specs.Put.{put_part};

use bytecode::{Chain, Root, Step};
use expr_chains::{chain_of, chain_words, link_count, root_of, step_of, step_words, width};
use expr_rules::chains::{Read, StepRule, links_of};
use lowering::{CHAIN_WIDTH, CONST_WIDTH, NAME_WIDTH, SIZES, STEP_WIDTH};
use scratch_index::Names;
use scratch_keys::{mark_of, namespace_of, text_of};
use scratch_locals::local_of;
use sheet::kinds::VARIABLE;
use sheet::{child, field_a, field_b, field_c, kind, role};

// The words `w` in the place of as many.
// Kept: by index, one line as `zip` would be, whose invariant would have the iterator and not the words that are put; and no
// `copy_from_slice`, with which the archive asks for `memmove`: firmware may have `memcpy` alone.
pub fn copy(out: &mut [u32], w: &[u32])
    requires { length out.old ≡ length w.now }
    ensures { out.new ≡ w.now }
{
    for i in 0..w.len() {
        out[i] = w[i];
    }
}

// The twelve sizes.
pub fn sizes(out: &mut [u32], n: [u32; SIZES])
    requires { length out.old ≡ sizes_words }
    ensures { out.new ≡ n }
{
    copy(out, &n);
}

// The words `w` from `at` on.
pub fn put<const N: usize>(out: &mut [u32], at: usize, w: [u32; N])
    requires { at + N ≤ length out.old }
    ensures { out.new ≡ put_part out.old at N w.entry }
{
    let e = at + N;
    copy(&mut out[at..e], &w);
}

// Kept: sheet, part and keys are three parameters of the next three. Each is called in one place, by a closure of write_front that has the
// sheet and the keys; a struct of both would be made for that call alone.
// Kept: two loops of a line, here and in `names`. One would take a closure that gives `[u32; N]`, and a bound `Fn` that names a const
// parameter is not covered (tried in write_rows).
// The constants of the nodes `ks`.
pub fn consts(sheet: &[u8], out: &mut [u32], ks: &[u32])
    requires { length out.old ≡ const_width * length ks.now }
    ensures { out.new ≡ section const_words (map (const_of sheet.now) ks.now) }
{
    for (i, j) in ks.iter().enumerate() {
        let row = [kind(sheet, *j), field_a(sheet, *j), field_b(sheet, *j)];
        put(out, CONST_WIDTH * i, row);
    }
}

// The names with keys `ks`.
pub fn names(sheet: &[u8], out: &mut [u32], ks: &[u32])
    requires { length out.old ≡ name_width * length ks.now }
    ensures { out.new ≡ section name_words (map (name_of sheet.now) ks.now) }
{
    for (i, k) in ks.iter().enumerate() {
        let row = [
            text_of(sheet, *k),
            mark_of(sheet, *k),
            namespace_of(sheet, *k),
        ];
        put(out, NAME_WIDTH * i, row);
    }
}

// The tokens of the nodes `ks`.
// Kept: by index, as `copy`.
pub fn tokens(sheet: &[u8], out: &mut [u32], ks: &[u32])
    requires { length out.old ≡ length ks.now }
    ensures { out.new ≡ map (nodes.field_c sheet.now) ks.now }
{
    for (i, k) in ks.iter().enumerate() {
        out[i] = field_c(sheet, *k);
    }
}

// Kept: that the scratch holds the names (`NamesHold`) is a premise, here and below: `Names` of scratch_index says why.
// Root `v`, with its name among the names. Only a variable has one.
// Kept: 0 and None where there is no name: `root_of` asks for both of a variable alone.
fn root_at(names: &Names, v: u32) -> Root
    ensures { let it = names.now in let sheet = it.sheet.now in let words = it.scratch.now in (NamesHold sheet it.layout it.count words
        → result ≡ chains.root_in sheet (names_held sheet it.layout it.count words) v) }
{
    let sheet = names.sheet;
    if role(sheet, v) == VARIABLE {
        let name = names.place(field_a(sheet, v));
        let local = local_of(sheet, names.scratch, names.layout, v);
        return root_of(sheet, v, name, local);
    }
    root_of(sheet, v, 0, None)
}

// The chain of node `j`, with `first` steps before it.
fn chain_at(names: &Names, j: u32, first: u32) -> Chain
    ensures { let it = names.now in let sheet = it.sheet.now in let words = it.scratch.now in (result.steps ≡ chains.link_count sheet j)
        × (NamesHold sheet it.layout it.count words → result ≡ chains.chain_in sheet (names_held sheet it.layout it.count words) first j) }
{
    let root = root_at(names, child(j));
    chain_of(names.sheet, j, root, first)
}

// The chains of the nodes `js`, over the names.
pub fn chains(names: &Names, out: &mut [u32], js: &[u32])
    requires out_len { length out.old ≡ chain_width * length js.now }
    requires js_bound { kept.step_count names.now.sheet.now js.now < 4294967296 }
    ensures { let it = names.now in let sheet = it.sheet.now in let words = it.scratch.now in (NamesHold sheet it.layout it.count words
        → out.new ≡ section chain_words (chains.chains_from sheet (names_held sheet it.layout it.count words) 0 js.now)) }
{
    let mut first: u32 = 0;
    for (i, j) in js.iter().enumerate() {
        let c = chain_at(names, *j, first);
        put(out, CHAIN_WIDTH * i, chain_words(c));
        first += c.steps;
    }
}

// The step of a link, which says `p`, with `k` operands before it. Places are looked for only where the step has names.
fn step_at(names: &Names, p: Read, k: u32) -> Step
    ensures { let it = names.now in
        let sheet = it.sheet.now in
        let words = it.scratch.now in
        (Reads sheet p.link p → NamesHold sheet it.layout it.count words
        → result ≡ chains.step_as (flatten.step_rule sheet p.link) sheet (names_held sheet it.layout it.count words) p.link k) }
{
    let sheet = names.sheet;
    let o = p.with;
    // Kept: what differs by the step is how many names it has, which the arms say; closures would be made here for this one call. 0 stands
    // for a name that the step has not: `step_of` does not look at it, and with an Option would have an arm for it.
    match p.rule {
        StepRule::Index => step_of(sheet, p, k, 0, 0, 0),
        StepRule::Property => step_of(
            sheet,
            p,
            k,
            names.place(field_a(sheet, o)),
            names.place(field_b(sheet, o)),
            names.place(field_c(sheet, o)),
        ),
        StepRule::Method => step_of(sheet, p, k, names.place(field_a(sheet, o)), 0, 0),
        StepRule::Nothing => step_of(sheet, p, k, 0, 0, 0),
    }
}

// The steps of the chain of node `j`.
fn chain_steps(names: &Names, out: &mut [u32], j: u32)
    requires { length out.old ≡ step_width * chains.link_count names.now.sheet.now j }
    ensures { let it = names.now in let sheet = it.sheet.now in let words = it.scratch.now in (NamesHold sheet it.layout it.count words
        → out.new ≡ steps_words (chains.chain_steps sheet (names_held sheet it.layout it.count words) j)) }
{
    let mut k: u32 = 0;
    for (i, p) in links_of(names.sheet, j).enumerate() {
        put(out, STEP_WIDTH * i, step_words(step_at(names, p, k)));
        k += width(names.sheet, p);
    }
}

// The steps of the chains of the nodes `js`, over the names. A part of another length is not filled.
pub fn steps(names: &Names, out: &mut [u32], js: &[u32])
    ensures { let it = names.now in let sheet = it.sheet.now in let words = it.scratch.now in (NamesHold sheet it.layout it.count words
        → length out.old ≡ step_width * kept.step_count sheet js.now
        → out.new ≡ steps_words (chains.steps_from sheet (names_held sheet it.layout it.count words) js.now)) }
{
    // Kept: a place that goes on: each chain is as long as its links, which no index tells.
    let mut at = 0;
    for j in js {
        let e = at + STEP_WIDTH * (link_count(names.sheet, *j) as usize);
        if out.len() < e {
            return;
        }
        chain_steps(names, &mut out[at..e], *j);
        at = e;
    }
}
