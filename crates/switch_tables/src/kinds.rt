// What the flat table has of a guard, and of where a list goes. Each stands in it as one word.

// A guard: constant false, constant true, or tried; then it may reach an `eval`.
#[derive(Clone, Copy)]
pub enum Guard {
    Never,
    Always,
    Tried { defeated: bool },
}

impl From<Guard> for u32 {
    ghost use Rattle.std.specs.Prelude.{◌≡◌};
    ghost use Rattle.switch_tables.specs.Kinds.{guard_word};

    ghost from_gives = { λ g n. n ≡ guard_word g };

    fn from(g: Guard) -> u32 {
        match g {
            Guard::Never => 0,
            Guard::Always => 1,
            Guard::Tried { defeated } => 2 + u32::from(defeated),
        }
    }
}

impl From<u32> for Guard {
    ghost use Rattle.std.specs.Prelude.{◌≡◌};
    ghost use Rattle.switch_tables.specs.Kinds.{said_guard};

    ghost from_gives = { λ n g. g ≡ said_guard n };

    fn from(n: u32) -> Guard {
        match n {
            0 => Guard::Never,
            1 => Guard::Always,
            2 => Guard::Tried { defeated: false },
            _ => Guard::Tried { defeated: true },
        }
    }
}

// Where a list goes: to its chain, whose last jump goes to the fallback or to a body; without a chain to the fallback, or to the body
// of a block.
#[derive(Clone, Copy)]
pub enum Exit {
    Chain { falls: bool },
    Fallback,
    Body(u32),
}

impl From<Exit> for u32 {
    ghost use Rattle.std.specs.Prelude.{◌≡◌};
    ghost use Rattle.switch_tables.specs.Kinds.{exit_word};

    ghost from_gives = { λ e n. n ≡ exit_word e };

    fn from(e: Exit) -> u32 {
        match e {
            Exit::Chain { falls } => u32::from(!falls),
            Exit::Fallback => 2,
            Exit::Body(k) => k.saturating_add(3),
        }
    }
}

impl From<u32> for Exit {
    ghost use Rattle.std.specs.Prelude.{◌≡◌};
    ghost use Rattle.switch_tables.specs.Kinds.{said_exit};

    ghost from_gives = { λ n e. e ≡ said_exit n };

    fn from(n: u32) -> Exit {
        match n {
            0 => Exit::Chain { falls: true },
            1 => Exit::Chain { falls: false },
            2 => Exit::Fallback,
            _ => Exit::Body(n.saturating_sub(3)),
        }
    }
}
