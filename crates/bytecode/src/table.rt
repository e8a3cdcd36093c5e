// What each kind of instruction does to the depth and to the place.
ghost use Rattle.std.specs.Prelude.{ℕ, ◌≡◌, ◌<◌, ◌+◌, ◌*◌, get_or};
ghost use Rattle.bytecode.specs.Coded.{count_of, effect_from, flow_of};
ghost use Rattle.bytecode.specs.Effect.{ref_argc};
ghost use Rattle.bytecode.specs.Effect as effects;
ghost use Rattle.bytecode.specs.Table.{effect_table, numbers_of};

// Which count comes on top: none; argc of Call; argc of CallRef, less a Local receiver; the word a, popped; the word a, needed and kept;
// what chain a takes.
#[derive(Clone, Copy)]
pub enum Top {
    Nothing,
    Argc,
    RefArgc,
    PopsA,
    NeedsA,
    Operands,
}

impl Top {
    #[tactic(auto, unfolding(crate::specs::Coded::count_of, crate::specs::Effect::popped))]
    // The count that is popped on top, of an instruction with words `a` and `b`; `n` is what a chain takes.
    // Kept: a number for each variant, and no step that runs: closures or functions would still be chosen by this match.
    pub fn popped(self, a: u32, b: u32, n: u64) -> u64
        ensures { result ≡ effects.popped (count_of self) a b n }
    {
        match self {
            Top::Nothing | Top::NeedsA => 0,
            Top::Argc => u64::from(b % 256),
            Top::RefArgc => u64::from(ref_argc(b)),
            Top::PopsA => u64::from(a),
            Top::Operands => n,
        }
    }

    #[tactic(auto, unfolding(crate::specs::Coded::count_of, crate::specs::Effect::kept))]
    // The count that is needed and kept on top.
    pub fn kept(self, a: u32) -> u32
        ensures { result ≡ effects.kept (count_of self) a }
    {
        match self {
            Top::NeedsA => a,
            _ => 0,
        }
    }
}

// Where the next place is: behind; at the target a; at the target or behind; at a row's target or the default of table a.
#[derive(Clone, Copy)]
pub enum Flow {
    On,
    Jump,
    Branch,
    Table,
}

// What a kind of instruction does: `keeps` is what it needs and does not pop.
#[derive(Clone, Copy)]
pub struct Effect {
    pub pops: u32,
    pub pushes: u32,
    pub keeps: u32,
    pub top: Top,
    pub flow: Flow,
}

const NONE: Effect = Effect {
    pops: 0,
    pushes: 0,
    keeps: 0,
    top: Top::Nothing,
    flow: Flow::On,
};

const PUSH: Effect = Effect { pushes: 1, ..NONE };

const POP: Effect = Effect { pops: 1, ..NONE };

const NEED: Effect = Effect { keeps: 1, ..NONE };

const CHANGE: Effect = Effect { pops: 1, ..PUSH };

const JUMP: Effect = Effect {
    flow: Flow::Jump,
    ..NONE
};

const BRANCH: Effect = Effect {
    flow: Flow::Branch,
    ..POP
};

const SKIP: Effect = Effect {
    flow: Flow::Branch,
    ..NEED
};

const CALL: Effect = Effect {
    top: Top::Argc,
    ..PUSH
};

const CALL_REF: Effect = Effect {
    top: Top::RefArgc,
    ..PUSH
};

const ROTATE: Effect = Effect {
    top: Top::NeedsA,
    ..NEED
};

const SWITCH: Effect = Effect {
    flow: Flow::Table,
    ..NEED
};

const CALL_FN_PTR: Effect = Effect {
    top: Top::PopsA,
    ..CHANGE
};

const APPEND: Effect = Effect { pops: 2, ..PUSH };

const MAKE_ARRAY: Effect = Effect {
    top: Top::PopsA,
    ..PUSH
};

const CHAIN: Effect = Effect {
    top: Top::Operands,
    ..PUSH
};

// The kinds 0 to 24; kind 0 is none.
static BY_KIND: [Effect; 25] = [
    NONE,
    PUSH, // Const
    PUSH, // Unit
    PUSH, // Bool
    PUSH, // LoadLocal
    PUSH, // LoadNamed
    PUSH, // LoadThis
    POP, // Pop
    JUMP, // Jump
    BRANCH, // JumpIfTrue
    BRANCH, // JumpIfFalse
    SKIP, // SkipIfNotUnit
    CALL, // Call
    CALL_REF, // CallRef
    ROTATE, // Rotate
    SWITCH, // Switch
    CHANGE, // MakeFnPtr
    CALL_FN_PTR, // CallFnPtr
    PUSH, // InterpolateStart
    APPEND, // InterpolateAppend
    CHANGE, // InterpolateEnd
    MAKE_ARRAY, // MakeArray
    NEED, // CheckSize
    CHAIN, // Chain
    PUSH, // EvalAst
];

// What a kind does: 1 to 24 are the kinds, any other does nothing.
pub fn effect_of(kind: u32) -> Effect
    ensures pops { result.pops ≡ (effects.effect kind).pops }
    ensures pushes { result.pushes ≡ (effects.effect kind).pushes }
    ensures keeps { result.keeps ≡ (effects.effect kind).keeps }
    ensures top { count_of result.top ≡ (effects.effect kind).count }
    ensures flow { flow_of result.flow ≡ (effects.effect kind).flow }
    ensures numbers { (f : ℕ) → f < 5
        → get_or (numbers_of (effect_from result)) f 0 ≡ get_or effect_table (5 * kind + f) 0 }
{
    BY_KIND.get(kind as usize).copied().unwrap_or(NONE)
}

#[tactic(auto, unfolding(crate::specs::Effect::ref_argc))]
// A Local receiver is not on the stack.
// Kept: the receiver's kind as a number. It is a word that a stranger may send, and is asked only whether it is Local (0).
fn ref_argc(b: u32) -> u32
    ensures { result ≡ ref_argc b }
{
    let argc = b % 256;
    if b / 256 == 0 {
        argc.saturating_sub(1)
    } else {
        argc
    }
}
