// Chains by their nodes: the links of a chain, their steps, and whether two chains are the same. proofs/ shows that the nodes of the chains
// that were pooled are all that the pools of chains and steps hold.
#![tactic(auto)]

ghost use Rattle.std.specs.Prelude.{◌≡◌, ℕ, min};
ghost use Rattle.sheet.specs.Limits.{max_depth};
ghost use Rattle.bytecode.specs.Chain.{step_words, chain_words};
ghost use Rattle.lowering.specs.Limits.{max_args};
ghost use Rattle.lowering.specs.Flatten as flatten;
ghost use Rattle.lowering.specs.Kinds.{variable_kind};
ghost use Rattle.lowering.specs.Slots as locals;
ghost use Rattle.expr_rules.specs.Inverse as answers;
ghost use Rattle.expr_rules.specs.Reads.{Reads};
ghost use Rattle.expr_slots.specs.Found as founds;
ghost use Rattle.expr_chains.specs.Variable as roots;
ghost use Rattle.expr_chains.specs.Steps as chains;
ghost use Rattle.expr_chains.specs.Walked.{Counted, Grades, Comes};
ghost use Rattle.expr_chains.specs.Same as sames;
ghost use Rattle.expr_chains.specs.Same.{RootLocal};
ghost use Rattle.sheet.specs.Node as nodes;
ghost use Rattle.sheet.specs.Text as texts;
ghost use Rattle.sheet.specs.Namespace as spaces;

use bytecode::{Chain, Root, Step};
use expr_rules::chains::{Read, StepRule, is_lowerable_method, links_of};
use lowering::{CHAIN_WIDTH, MAX_ARGS, STEP_WIDTH};
use sheet::kinds::{THIS, VARIABLE};
use sheet::{child, count, field_a, field_b, field_c, position, role, start_of};
use text::same_bytes;

// How many links a chain has, and how many operands their steps take.
#[derive(Clone, Copy)]
struct Counts {
    pub links: u32,
    pub operands: u32,
}

// How far a chain comes: nowhere, where a link has no step; as far as code that is taken back, where a step does not lower; or to its end.
#[derive(Clone, Copy, PartialEq, Eq, PartialOrd, Ord)]
pub enum Distance {
    Nowhere,
    TakenBack,
    Whole,
}

// How far a chain comes with all its links, and how many operands their steps take.
#[derive(Clone, Copy)]
pub struct Far {
    pub distance: Distance,
    pub operands: u32,
}

// Texts `a` and `b` have the same bytes. One text is not read twice.
// Kept: the bytes stand in the sheet, so no derive on a type around the two numbers compares them.
pub fn same_text(sheet: &[u8], a: u32, b: u32) -> bool
    ensures { result ≡ sames.same_text sheet.now a b }
{
    a == b || same_bytes(sheet::text(sheet, a), sheet::text(sheet, b))
}

#[tactic(auto, unfolding(crate::specs::Same::same_index))]
// The steps of the links that say `p` and `q`, both indexes, are the same.
// Kept: the sheet and two Reads, here and in `same_as` and `same_step`, and that a Read was read there (`Reads`) as a premise, here and
// below. `same_steps` alone would make a type of the three; and `Read` is public: who makes one need not have read it.
fn same_index(sheet: &[u8], p: Read, q: Read) -> bool
    ensures { let sheet = sheet.now in (Reads sheet p.link p → Reads sheet q.link q → result ≡ sames.same_index sheet p.link q.link) }
{
    if position(sheet, p.link) == position(sheet, q.link) {
        return start_of(sheet, p.with) == start_of(sheet, q.with);
    }
    false
}

#[tactic(auto, unfolding(crate::specs::Same::same_property))]
// The properties `x` and `y` are the same.
fn same_property(sheet: &[u8], x: u32, y: u32) -> bool
    ensures { result ≡ sames.same_property sheet.now x y }
{
    if position(sheet, x) == position(sheet, y) {
        let name = same_text(sheet, field_a(sheet, x), field_a(sheet, y));
        let getter = same_text(sheet, field_b(sheet, x), field_b(sheet, y));
        let setter = same_text(sheet, field_c(sheet, x), field_c(sheet, y));
        return name & getter & setter;
    }
    false
}

#[tactic(auto, unfolding(crate::specs::Same::same_method))]
// The methods `x` and `y` are the same.
fn same_method(sheet: &[u8], x: u32, y: u32) -> bool
    ensures { result ≡ sames.same_method sheet.now x y }
{
    if (position(sheet, x) == position(sheet, y)) & (count(sheet, x) == count(sheet, y)) {
        return same_text(sheet, field_a(sheet, x), field_a(sheet, y));
    }
    false
}

#[tactic(auto, unfolding(crate::specs::Same::same_as, expr_rules::specs::Inverse::step_rule_from))]
// The steps of the links that say `p` and `q`, both by one rule, are the same.
// Kept: what is compared differs from rule to rule; a closure for each would be chosen by this same match.
fn same_as(sheet: &[u8], p: Read, q: Read) -> bool
    ensures { let sheet = sheet.now in
        (Reads sheet p.link p → Reads sheet q.link q → result ≡ sames.same_as (answers.step_rule_from p.rule) sheet p.link q.link) }
{
    match p.rule {
        StepRule::Index => same_index(sheet, p, q),
        StepRule::Property => same_property(sheet, p.with, q.with),
        StepRule::Method => same_method(sheet, p.with, q.with),
        StepRule::Nothing => false,
    }
}

// The steps of the links that say `p` and `q` are the same, but for the operands' numbers.
fn same_step(sheet: &[u8], p: Read, q: Read) -> bool
    ensures { let sheet = sheet.now in (Reads sheet p.link p → Reads sheet q.link q → result ≡ sames.same_step sheet p.link q.link) }
{
    if (p.rule == q.rule) & (p.flag == q.flag) {
        return same_as(sheet, p, q);
    }
    false
}

// The steps of the chains of nodes `i` and `j` are the same.
// Kept: the second iterator is moved on by hand. `zip` ends with the shorter of two, so both chains would be walked along again for their
// lengths.
fn same_steps(sheet: &[u8], i: u32, j: u32) -> bool
    ensures { result ≡ sames.same_links max_depth sheet.now i j }
{
    let mut others = links_of(sheet, j);
    for p in links_of(sheet, i) {
        match others.next() {
            Some(q) => {
                if !same_step(sheet, p, q) {
                    return false;
                }
            }
            None => return false,
        }
    }
    others.next().is_none()
}

#[tactic(auto, unfolding(crate::specs::Same::same_variable))]
// Kept: `local` beside the node, here and below: a chain is compared with many, and who compares has looked it up once.
// The variables `v` and `w` are the same root, where `local` tells whether `v` is a local.
fn same_variable(sheet: &[u8], v: u32, w: u32, local: bool) -> bool
    ensures { local ≡ sames.is_local sheet.now v → result ≡ sames.same_variable sheet.now v w }
{
    if same_text(sheet, field_a(sheet, v), field_a(sheet, w)) {
        if position(sheet, v) == position(sheet, w) {
            return true;
        }
        return local;
    }
    false
}

#[tactic(auto, unfolding(crate::specs::Same::same_root, crate::specs::Same::same_root_as, crate::specs::Same::root_kind))]
// The nodes `v` and `w` are the same root, where `local` tells whether `v` is a local.
fn same_root(sheet: &[u8], v: u32, w: u32, local: bool) -> bool
    ensures { RootLocal sheet.now v local → result ≡ sames.same_root sheet.now v w }
{
    let k = role(sheet, w);
    match role(sheet, v) {
        VARIABLE => k == VARIABLE && same_variable(sheet, v, w, local),
        THIS => (k == THIS) & (position(sheet, v) == position(sheet, w)),
        _ => (k != VARIABLE) & (k != THIS),
    }
}

#[tactic(auto, unfolding(crate::specs::Same::same_nodes))]
// The chains of nodes `i` and `j` are the same, where `local` tells whether the root of `i` is a local.
pub fn same_chain(sheet: &[u8], i: u32, j: u32, local: bool) -> bool
    ensures { RootLocal sheet.now (nodes.child i) local → result ≡ sames.same_nodes sheet.now i j }
{
    if same_steps(sheet, i, j) {
        return same_root(sheet, child(i), child(j), local);
    }
    false
}

#[tactic(auto, unfolding(crate::specs::Variable::variable_by))]
// A variable's root, by the local that was found.
fn variable_root(found: Option<u32>, name: u32, pos: u32) -> Root
    ensures { result ≡ roots.variable_by found name pos }
{
    match found {
        Some(slot) => Root::Local { slot, name },
        None => Root::Named { name, pos },
    }
}

// Node `v` as a root, with its name at place `name`, where `found` is the local that a variable is.
pub fn root_of(sheet: &[u8], v: u32, name: u32, found: Option<u32>) -> Root
    ensures { let sheet = sheet.now in
        ((spaces.role sheet v ≡ variable_kind → found ≡ founds.found (locals.resolve sheet (texts.text sheet (nodes.field_a sheet v))))
        → result ≡ chains.root_with sheet v name) }
{
    match role(sheet, v) {
        VARIABLE => variable_root(found, name, position(sheet, v)),
        THIS => Root::This {
            pos: position(sheet, v),
        },
        _ => Root::Temporary,
    }
}

// How many operands the step of a link takes, which says `p`. Arguments are cut to as many as lower.
pub fn width(sheet: &[u8], p: Read) -> u32
    ensures { let sheet = sheet.now in ((c : ℕ) → Reads sheet c p → result ≡ chains.step_operands sheet c) }
{
    match p.rule {
        StepRule::Index => 1,
        StepRule::Property => 0,
        StepRule::Method => count(sheet, p.with).min(MAX_ARGS),
        StepRule::Nothing => 0,
    }
}

// How many links the chain of node `j` has, and how many operands their steps take.
// Kept: no part of `far_of`, which would ask of each method whether it lowers where a chain is only written.
fn count_links(sheet: &[u8], j: u32) -> Counts
    ensures { Counted sheet.now j result }
{
    let mut links: u32 = 0;
    let mut operands: u32 = 0;
    for p in links_of(sheet, j) {
        links += 1;
        operands += width(sheet, p);
    }
    Counts { links, operands }
}

// How many links the chain of node `j` has.
pub fn link_count(sheet: &[u8], j: u32) -> u32
    ensures { result ≡ chains.link_count sheet.now j }
{
    links_of(sheet, j).count() as u32
}

// How far a chain comes with the link that says `p`.
// Kept: only a method is asked anything; closures would be chosen by this same match.
fn distance_with(sheet: &[u8], p: Read) -> Distance
    ensures { let sheet = sheet.now in ((c : ℕ) → Reads sheet c p → Grades sheet c result) }
{
    match p.rule {
        StepRule::Index => Distance::Whole,
        StepRule::Property => Distance::Whole,
        StepRule::Method if is_lowerable_method(sheet, p.with) => Distance::Whole,
        StepRule::Method => Distance::TakenBack,
        StepRule::Nothing => Distance::Nowhere,
    }
}

// How far the chain of node `j` comes with all its links, and how many operands their steps take.
pub fn far_of(sheet: &[u8], j: u32) -> Far
    ensures { Comes sheet.now j result }
{
    let mut distance = Distance::Whole;
    let mut operands: u32 = 0;
    for p in links_of(sheet, j) {
        distance = distance.min(distance_with(sheet, p));
        operands += width(sheet, p);
    }
    Far { distance, operands }
}

// The chain of node `j` with this root, and `first` steps before it.
pub fn chain_of(sheet: &[u8], j: u32, root: Root, first: u32) -> Chain
    ensures { result ≡ chains.chain_by sheet.now j first root }
{
    let n = count_links(sheet, j);
    Chain {
        root,
        first,
        steps: n.links,
        operands: n.operands,
    }
}

// The step of the link that says `p`, with `n` operands before it and its names at these places.
// Kept: zeros but for the operand for `Nothing`, as the definition has it: no chain that is lowered has such a link.
pub fn step_of(sheet: &[u8], p: Read, n: u32, name: u32, getter: u32, setter: u32) -> Step
    ensures { let sheet = sheet.now in
        (Reads sheet p.link p → result ≡ chains.step_with (flatten.step_rule sheet p.link) sheet p.link n name getter setter) }
{
    let x = p.with;
    let flags = p.flag;
    match p.rule {
        StepRule::Index => Step::Index {
            operand: n,
            flags,
            pos: start_of(sheet, x),
            bracket: position(sheet, p.link),
        },
        StepRule::Property => Step::Property {
            name,
            getter,
            setter,
            flags,
            pos: position(sheet, x),
        },
        StepRule::Method => Step::Method {
            name,
            argc: count(sheet, x),
            operand: n,
            flags,
            pos: position(sheet, x),
        },
        StepRule::Nothing => Step::Index {
            operand: n,
            flags: 0,
            pos: 0,
            bracket: 0,
        },
    }
}

#[tactic(auto, unfolding(bytecode::specs::Chain::step_words))]
// The words of a step. Its numbers stand here, where they are written, and in `StepKind::of` of image_read, where they are read; so with
// those of roots (`chain_words`, `RootKind::of`).
// Kept: no `From`. It would have to stand beside the type in crate bytecode, below `lowering`, whose STEP_WIDTH it would write as a number.
pub fn step_words(x: Step) -> [u32; STEP_WIDTH]
    ensures { result ≡ step_words x }
{
    match x {
        Step::Index {
            operand,
            flags,
            pos,
            bracket,
        } => [0, operand, flags, pos, bracket, 0],
        Step::Property {
            name,
            getter,
            setter,
            flags,
            pos,
        } => [1, name, getter, setter, flags, pos],
        Step::Method {
            name,
            argc,
            operand,
            flags,
            pos,
        } => [2, name, argc, operand, flags, pos],
    }
}

#[tactic(auto, unfolding(bytecode::specs::Chain::chain_words, bytecode::specs::Chain::root_words))]
// The words of a chain.
// Kept: no `From`, as `step_words`.
pub fn chain_words(c: Chain) -> [u32; CHAIN_WIDTH]
    ensures { result ≡ chain_words c }
{
    match c.root {
        Root::Local { slot, name } => [0, slot, name, c.first, c.steps, c.operands],
        Root::Named { name, pos } => [1, name, pos, c.first, c.steps, c.operands],
        Root::This { pos } => [2, 0, pos, c.first, c.steps, c.operands],
        Root::Temporary => [3, 0, 0, c.first, c.steps, c.operands],
    }
}
