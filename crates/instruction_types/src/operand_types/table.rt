//! The rows of the local instructions (JVMS 6.5).

ghost use Rattle.std.specs.Prelude.{◌≡◌, ◌≤◌, ℕ, ℤ, List, [], ◌∷◌, length, map, option_map};
ghost use Rattle.model.specs.Classes.{Program};
ghost use Rattle.model.specs.Rows as rows;
ghost use Rattle.instruction_types.specs.operand_types.View.{want_in};
ghost use Rattle.instruction_types.specs.operand_types.RowView.{row_in, out_in, typed, popping_row};
ghost use Rattle.instruction_types.specs.operand_types.Local.{row_at, jump_row_at};

use crate::operand_types::local::InstructionSite;
use crate::operand_types::row::{LocalWrite, Out, Targets, TypeRow};
use crate::operand_types::wants::{LocalRead, Want};
use model::built_in::OBJECT;
use model::{Instr, Kind, StackMove};
use types::{Element, ReferenceType};

/// An initialised reference, or null.
const AN_OBJECT: Want = Want::AReference(ReferenceType {
    dimensions: 0,
    element: Element::Class(OBJECT),
});

/// What goes on at the next instruction, and touches no local variable.
fn plain(pops: &'static [Want], pushes: &'static [Out], next: usize) -> TypeRow
    requires { length pushes.now ≤ 6 }
    ensures { (files : Program) (code : List ℕ) (offset : ℕ)
        → row_in files code offset result
        ≡ rows.plain [] (map (want_in files) pops.now) (map out_in pushes.now) [] next }
{
    TypeRow {
        reads: None,
        pops,
        pushes,
        writes: None,
        targets: Targets::Next(next),
    }
}

/// What leads on without what it pops.
fn popping(pops: &'static [Want], targets: Targets) -> TypeRow
    ensures { (files : Program) (code : List ℕ) (offset : ℕ)
        → row_in files code offset result ≡ popping_row files code offset pops.now targets }
{
    TypeRow {
        reads: None,
        pops,
        pushes: &[],
        writes: None,
        targets,
    }
}

/// Instructions that move words of the operand stack, whatever they are (JVMS 2.11.6).
fn move_row(how: StackMove, next: usize) -> TypeRow
    ensures { (files : Program) (code : List ℕ) (offset : ℕ)
        → row_in files code offset result ≡ typed (rows.move_row how next) }
{
    const A: Out = Out::Copy(0);
    const B: Out = Out::Copy(1);
    const C: Out = Out::Copy(2);
    const D: Out = Out::Copy(3);
    const WORD: Want = Want::AnyWord;
    match how {
        StackMove::Pop => plain(&[WORD], &[], next),
        StackMove::Pop2 => plain(&[WORD, WORD], &[], next),
        StackMove::Dup => plain(&[WORD], &[A, A], next),
        StackMove::DupX1 => plain(&[WORD, WORD], &[A, B, A], next),
        StackMove::DupX2 => plain(&[WORD, WORD, WORD], &[A, B, C, A], next),
        StackMove::Dup2 => plain(&[WORD, WORD], &[A, B, A, B], next),
        StackMove::Dup2X1 => plain(&[WORD, WORD, WORD], &[A, B, C, A, B], next),
        StackMove::Dup2X2 => plain(&[WORD, WORD, WORD, WORD], &[A, B, C, D, A, B], next),
        StackMove::Swap => plain(&[WORD, WORD], &[B, A], next),
    }
}

/// Of which kind a local variable is loaded or stored.
fn want_of(kind: Kind) -> Want
    ensures { (files : Program) → want_in files result ≡ rows.want_of kind }
{
    match kind {
        Kind::Int => Want::AnInt,
        Kind::Reference => Want::AnyReference,
    }
}

fn load_row(kind: Kind, local: u16, next: usize) -> TypeRow
    ensures { (files : Program) (code : List ℕ) (offset : ℕ)
        → row_in files code offset result ≡ rows.plain ((local, rows.want_of kind) ∷ []) [] (rows.Copy 0 ∷ []) [] next }
{
    TypeRow {
        reads: Some(LocalRead {
            local,
            want: want_of(kind),
        }),
        pops: &[],
        pushes: &[Out::Copy(0)],
        writes: None,
        targets: Targets::Next(next),
    }
}

/// What stores what it pops.
fn storing(pops: &'static [Want], local: u16, next: usize) -> TypeRow
    ensures { (files : Program) (code : List ℕ) (offset : ℕ)
        → row_in files code offset result
        ≡ rows.plain [] (map (want_in files) pops.now) [] ((local, rows.Copy 0) ∷ []) next }
{
    TypeRow {
        reads: None,
        pops,
        pushes: &[],
        writes: Some(LocalWrite {
            local,
            out: Out::Copy(0),
        }),
        targets: Targets::Next(next),
    }
}

fn store_row(kind: Kind, local: u16, next: usize) -> TypeRow
    ensures { (files : Program) (code : List ℕ) (offset : ℕ)
        → row_in files code offset result ≡ rows.plain [] (rows.want_of kind ∷ []) [] ((local, rows.Copy 0) ∷ []) next }
{
    match kind {
        Kind::Int => storing(&[Want::AnInt], local, next),
        Kind::Reference => storing(&[Want::AnyReference], local, next),
    }
}

/// An int in a local variable, and one that is computed from it there.
fn increment_row(local: u16, next: usize) -> TypeRow
    ensures { (files : Program) (code : List ℕ) (offset : ℕ) (by : ℤ)
        → row_in files code offset result ≡ typed (rows.increment_row local by next) }
{
    TypeRow {
        reads: Some(LocalRead {
            local,
            want: Want::AnInt,
        }),
        pops: &[],
        pushes: &[],
        writes: Some(LocalWrite {
            local,
            out: Out::Number,
        }),
        targets: Targets::Next(next),
    }
}

/// The row of a jump or a switch.
#[tactic(auto, using(types::proofs::Classes::object_at))]
fn jump_row(site: InstructionSite<'_>) -> Option<TypeRow>
    ensures { (files : Program) → option_map (row_in files site.entry.code.now site.entry.offset) result
        ≡ option_map typed (jump_row_at site.entry) }
{
    let next = site.next;
    match site.instr {
        Instr::If { by, .. } => Some(popping(&[Want::AnInt], Targets::Branch { by, next })),
        Instr::IfInts { by, .. } => Some(popping(
            &[Want::AnInt, Want::AnInt],
            Targets::Branch { by, next },
        )),
        Instr::IfReferences { by, .. } => Some(popping(
            &[AN_OBJECT, AN_OBJECT],
            Targets::Branch { by, next },
        )),
        Instr::IfNull { by, .. } => Some(popping(&[AN_OBJECT], Targets::Branch { by, next })),
        Instr::Goto { by } => Some(popping(&[], Targets::Jump(by))),
        Instr::TableSwitch {
            default,
            low,
            high,
            at,
        } => Some(popping(
            &[Want::AnInt],
            Targets::Table {
                default,
                low,
                high,
                at,
            },
        )),
        Instr::LookupSwitch { default, pairs, at } => Some(popping(
            &[Want::AnInt],
            Targets::Pairs { default, pairs, at },
        )),
        _ => None,
    }
}

/// The row of an instruction, if it is local.
pub(crate) fn row_of(site: InstructionSite<'_>) -> Option<TypeRow>
    ensures { (files : Program) → option_map (row_in files site.entry.code.now site.entry.offset) result
        ≡ option_map typed (row_at site.entry) }
{
    let next = site.next;
    match site.instr {
        Instr::Nop => Some(plain(&[], &[], next)),
        Instr::Null => Some(plain(&[], &[Out::Null], next)),
        Instr::Const(_) => Some(plain(&[], &[Out::Number], next)),
        Instr::LoadConstant { index } => match site.pool.integer(index) {
            Some(_) => Some(plain(&[], &[Out::Number], next)),
            None => None,
        },
        Instr::Load { kind, local } => Some(load_row(kind, local, next)),
        Instr::Store { kind, local } => Some(store_row(kind, local, next)),
        Instr::Move(how) => Some(move_row(how, next)),
        Instr::Compute(_) => Some(plain(&[Want::AnInt, Want::AnInt], &[Out::Number], next)),
        Instr::Negate | Instr::Convert(_) => Some(plain(&[Want::AnInt], &[Out::Number], next)),
        Instr::Increment { local, .. } => Some(increment_row(local, next)),
        _ => jump_row(site),
    }
}
