// Operands of a node, as two words.
ghost use Rattle.std.specs.Prelude.{◌≡◌};
ghost use Rattle.expr_count.specs.Operands as operands;

use sheet::{child, count, next};

// `n` siblings from node `from` on.
// Kept: not `Siblings`, which has the sheet too: a link, a plan and a call's way have their operands beside it.
#[derive(Clone, Copy)]
pub struct Operands {
    pub n: u32,
    pub from: u32,
}

impl Operands {
    // All operands of node `j`.
    pub fn of(sheet: &[u8], j: u32) -> Operands
        ensures { result ≡ operands.all sheet.now j }
    {
        Operands {
            n: count(sheet, j),
            from: child(j),
        }
    }

    // Those behind the first one.
    pub fn others(sheet: &[u8], j: u32) -> Operands
        ensures { result ≡ operands.others sheet.now j }
    {
        Operands {
            n: count(sheet, j).saturating_sub(1),
            from: next(sheet, child(j)),
        }
    }
}
