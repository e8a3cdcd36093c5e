// How the counts change. They are words, and wrap.
ghost use Rattle.std.specs.Prelude.{◌≡◌};
ghost use Rattle.scratch_store.specs.States as states;

use crate::State;
use scratch::Layout;

impl State {
    // Nothing is made yet.
    pub fn start(layout: Layout) -> State
        ensures { result ≡ states.start layout }
    {
        State {
            code: 0,
            consts: 0,
            names: 0,
            tokens: 0,
            residuals: 0,
            chains: 0,
            emitted: 0,
            depth: 0,
            deepest: 1,
            layout,
            steps: 0,
        }
    }

    // An instruction more, and the depth behind it.
    // Kept: `%` as the definition has it, of a u64; `word` of scratch is of a usize.
    pub(crate) fn count_one(&mut self, depth: u64)
        ensures { self.new ≡ states.counted self.old depth }
    {
        self.code = self.code.wrapping_add(1);
        self.emitted = self.emitted.wrapping_add(1);
        self.deepest = self.deepest.max(self.depth);
        self.depth = (depth % 4294967296) as u32;
    }

    // The depth where a jump comes in.
    pub fn at_depth(&mut self, d: u32)
        ensures { self.new ≡ states.at_depth self.old d }
    {
        self.depth = d;
    }

    // The code and the depths as they were; pools and counts stay.
    pub fn take_back(&mut self, saved: State)
        ensures { self.new ≡ states.taken_back self.old saved }
    {
        self.code = saved.code;
        self.depth = saved.depth;
        self.deepest = saved.deepest;
    }
}
