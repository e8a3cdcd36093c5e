// The records of an image: instructions, chains and their steps, switch tables. specs/ gives the words of each.
// Kept: `Bool`, `capture`, `flags`, `ranged`, `inclusive` are words. A node's field goes into them, and the definition
// (`op_words`) answers for every word there, for which a bool has no place. `op` is a token's index plus 1, or 0: `op_words` has
// that word, and from an Option it would be made in scratch_store, its one reader. `Switch`, `SwitchCase`, `SwitchRange` are named
// by definitions alone: no code makes one.
#![tactic(auto)]

mod table;

pub use table::{Effect, Flow, Top, effect_of};

// Where CallRef finds the variable that it calls through.
#[derive(Clone, Copy)]
pub enum Receiver {
    Local(u32),
    Named(u32),
    This,
}

// An instruction. Indexes are into the pools, targets are instruction numbers; `op` is a token's index plus 1, or 0; `capture` and
// `Bool` hold 0 or 1.
#[derive(Clone, Copy)]
pub enum Op {
    Const(u32),
    Unit,
    Bool(u32),
    LoadLocal(u32),
    LoadNamed(u32),
    LoadThis,
    Pop,
    Jump(u32),
    JumpIfTrue(u32),
    JumpIfFalse(u32),
    SkipIfNotUnit(u32),
    Call {
        name: u32,
        argc: u32,
        op: u32,
        capture: u32,
    },
    CallRef {
        name: u32,
        argc: u32,
        receiver: Receiver,
    },
    Rotate(u32),
    Switch(u32),
    MakeFnPtr,
    CallFnPtr {
        argc: u32,
        capture: u32,
    },
    InterpolateStart,
    InterpolateAppend,
    InterpolateEnd,
    MakeArray(u32),
    CheckSize(u32),
    Chain(u32),
    EvalAst(u32),
}

// Where a chain starts.
#[derive(Clone, Copy)]
pub enum Root {
    Local { slot: u32, name: u32 },
    Named { name: u32, pos: u32 },
    This { pos: u32 },
    Temporary,
}

// One step along a chain. `flags` is 1 where the step is skipped on a unit receiver.
#[derive(Clone, Copy)]
pub enum Step {
    Index {
        operand: u32,
        flags: u32,
        pos: u32,
        bracket: u32,
    },
    Property {
        name: u32,
        getter: u32,
        setter: u32,
        flags: u32,
        pos: u32,
    },
    Method {
        name: u32,
        argc: u32,
        operand: u32,
        flags: u32,
        pos: u32,
    },
}

// A chain: its root, its part of the steps, and how many operands the steps take.
#[derive(Clone, Copy)]
pub struct Chain {
    pub root: Root,
    pub first: u32,
    pub steps: u32,
    pub operands: u32,
}

// A switch table: `ranged` is 0 for rows of cases, 1 for rows of ranges.
#[derive(Clone, Copy)]
pub struct Switch {
    pub ranged: u32,
    pub first: u32,
    pub rows: u32,
    pub default: u32,
}

// A row of cases: where it goes, and the constant that it is for.
#[derive(Clone, Copy)]
pub struct SwitchCase {
    pub target: u32,
    pub constant: u32,
}

// A row of ranges: the 64 bits of both ends, whether the upper one is included, and where the row goes.
#[derive(Clone, Copy)]
pub struct SwitchRange {
    pub from: u64,
    pub to: u64,
    pub inclusive: u32,
    pub target: u32,
}
