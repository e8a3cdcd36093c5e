// Instructions: their words, and what they do to the depth.
ghost use Rattle.std.specs.Prelude.{◌≡◌};
ghost use Rattle.bytecode.specs.Op.{op_words};
ghost use Rattle.scratch_store.specs.Effects as effects;

use bytecode::{Op, Receiver, effect_of};
use lowering::OP_WIDTH;

// A receiver's number, and the word that names it.
// Kept: no `From`. The two go into different words of CallRef, and the first shares its word with argc, so the pair is taken apart at once.
#[tactic(auto, unfolding(crate::specs::Effects::receiver_words, bytecode::specs::Op::receiver_kind, bytecode::specs::Op::receiver_word))]
fn receiver_words(r: Receiver) -> [u32; 2]
    ensures { result ≡ effects.receiver_words r }
{
    match r {
        Receiver::Local(slot) => [0, slot],
        Receiver::Named(name) => [1, name],
        Receiver::This => [2, 0],
    }
}

// argc and a small number in one word.
#[tactic(auto, unfolding(crate::specs::Effects::joined))]
fn joined(argc: u32, n: u32) -> u32
    ensures { result ≡ effects.joined argc n }
{
    argc.wrapping_add(n.wrapping_mul(256))
}

// The words of an instruction, where argc is below 256 and a capture below 2.
// Kept: no `From`. It would have to stand beside the type in crate bytecode, below `lowering`, whose OP_WIDTH it would write as a number,
// and below `Narrow`, its premise. Each number stands here once, beside its variant, as in the definition; the tables by kind (`effect_of`,
// `code_bounds` of image_fields) have them by place.
#[tactic(auto, unfolding(bytecode::specs::Op::op_words))]
pub fn op_words(op: Op) -> [u32; OP_WIDTH]
    ensures { effects.Narrow op → result ≡ op_words op }
{
    match op {
        Op::Const(i) => [1, i, 0, 0],
        Op::Unit => [2, 0, 0, 0],
        Op::Bool(t) => [3, t, 0, 0],
        Op::LoadLocal(slot) => [4, slot, 0, 0],
        Op::LoadNamed(name) => [5, name, 0, 0],
        Op::LoadThis => [6, 0, 0, 0],
        Op::Pop => [7, 0, 0, 0],
        Op::Jump(t) => [8, t, 0, 0],
        Op::JumpIfTrue(t) => [9, t, 0, 0],
        Op::JumpIfFalse(t) => [10, t, 0, 0],
        Op::SkipIfNotUnit(t) => [11, t, 0, 0],
        Op::Call {
            name,
            argc,
            op,
            capture,
        } => [12, name, joined(argc, capture), op],
        Op::CallRef {
            name,
            argc,
            receiver,
        } => call_ref(name, argc, receiver),
        Op::Rotate(n) => [14, n, 0, 0],
        Op::Switch(i) => [15, i, 0, 0],
        Op::MakeFnPtr => [16, 0, 0, 0],
        Op::CallFnPtr { argc, capture } => [17, argc, capture, 0],
        Op::InterpolateStart => [18, 0, 0, 0],
        Op::InterpolateAppend => [19, 0, 0, 0],
        Op::InterpolateEnd => [20, 0, 0, 0],
        Op::MakeArray(n) => [21, n, 0, 0],
        Op::CheckSize(i) => [22, i, 0, 0],
        Op::Chain(i) => [23, i, 0, 0],
        Op::EvalAst(i) => [24, i, 0, 0],
    }
}

// The words of CallRef.
fn call_ref(name: u32, argc: u32, r: Receiver) -> [u32; OP_WIDTH]
    ensures { result ≡ effects.call_ref_words name argc r }
{
    let w = receiver_words(r);
    [13, name, joined(argc, w[0]), w[1]]
}

// The depth after an instruction with these words at depth `d`; `n` is what a chain takes.
// Kept: beside `after` of image_depths, which holds pops and pushes already and promises a bound of its own. Both share one sum.
pub fn after(w: [u32; OP_WIDTH], n: u32, d: u32) -> u64
    ensures { result ≡ effects.after_words w n d }
{
    let e = effect_of(w[0]);
    let pops = u64::from(e.pops) + e.top.popped(w[1], w[2], u64::from(n));
    u64::from(d).saturating_sub(pops) + u64::from(e.pushes)
}
