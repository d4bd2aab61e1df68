//! Rows of local instructions, as data: what types see of them.

ghost use Rattle.std.specs.Prelude.{◌≤◌, length};

use crate::operand_types::wants::{Asked, LocalRead, Want};

/// No row pushes more than `dup2_x2`.
pub(crate) const MOST_PUSHED: usize = 6;

/// What an instruction leaves at a place: its operand of a number, an int, or null.
#[derive(Clone, Copy)]
pub(crate) enum Out {
    Copy(usize),
    Number,
    Null,
}

/// A local variable that an instruction writes, by its number.
#[derive(Clone, Copy)]
pub(crate) struct LocalWrite {
    pub(crate) local: u16,
    pub(crate) out: Out,
}

/// Where an instruction leads. Jumps are counted from its offset; those of a switch stand in the code, from `at` on.
#[derive(Clone, Copy)]
pub(crate) enum Targets {
    Next(usize),
    Jump(i32),
    Branch {
        by: i32,
        next: usize,
    },
    Table {
        default: i32,
        low: i32,
        high: i32,
        at: usize,
    },
    Pairs {
        default: i32,
        pairs: u32,
        at: usize,
    },
}

/// What a local instruction reads, pops, pushes (the top first) and writes, and where it leads.
#[derive(Clone, Copy)]
pub(crate) struct TypeRow {
    pub(crate) reads: Option<LocalRead>,
    pub(crate) pops: &'static [Want],
    pub(crate) pushes: &'static [Out],
    pub(crate) writes: Option<LocalWrite>,
    pub(crate) targets: Targets,
    ghost small: { length pushes.now ≤ 6 },
}

impl TypeRow {
    ghost use Rattle.std.specs.Prelude.{◌≡◌, []};
    ghost use Rattle.model.specs.Classes.{Program};
    ghost use Rattle.model.specs.Rows.{row_wants};
    ghost use Rattle.instruction_types.specs.operand_types.View.{asked_in};
    ghost use Rattle.instruction_types.specs.operand_types.RowView.{row_in};

    pub(crate) fn asked(&self) -> Asked<'_>
        ensures { (files : Program) → asked_in files result ≡ row_wants (row_in files [] 0 self.now) }
    {
        Asked {
            allowed: true,
            reads: self.reads,
            pops: self.pops,
            grows: self.pushes.len(),
        }
    }
}
