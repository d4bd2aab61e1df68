//! Reading an instruction, by the groups of JVMS 7.

ghost use Rattle.std.specs.Prelude.{IfSome, ◌≡◌, ◌<◌, ◌+◌, length};
ghost use Rattle.model.specs.OpcodeTable.{form_in, constants_and_loads, stores_and_stack, math_and_conversions, comparisons, control, references, extended, low_form, high_form};
ghost use Rattle.model.specs.Instruction.{HasBytes, made_of, sized_at, instr_at, length_at};

use crate::bytes::{i1_at, i2_at, i4_at, u1_at, u2_at};
use crate::families::{
    compare, compare_ints, compare_references, compare_with_null, field, invoke, load, store, wide,
};
use crate::switches::{lookup_switch, table_switch};
use model::{
    Arithmetic, ArrayKind, Comparison, Conversion, FieldAccess, Instr, Invocation, Kind, Returned,
    StackMove,
};

fn constants_and_loads(code: &[u8], pc: usize, opcode: u8) -> Option<(Instr, usize)>
    requires { pc < length code.now }
    ensures { result ≡ made_of (form_in constants_and_loads opcode) code.now pc }
{
    match opcode {
        0x00 => Some((Instr::Nop, 1)),
        0x01 => Some((Instr::Null, 1)),
        0x02 => Some((Instr::Const(-1), 1)),
        0x03..=0x08 => Some((Instr::Const(i32::from(opcode - 0x03)), 1)),
        0x10 => Some((Instr::Const(i32::from(i1_at(code, pc + 1)?)), 2)),
        0x11 => Some((Instr::Const(i32::from(i2_at(code, pc + 1)?)), 3)),
        0x12 => {
            let index = u16::from(u1_at(code, pc + 1)?);
            Some((Instr::LoadConstant { index }, 2))
        }
        0x13 => {
            let index = u2_at(code, pc + 1)?;
            Some((Instr::LoadConstant { index }, 3))
        }
        0x15 => load(code, pc, Kind::Int),
        0x19 => load(code, pc, Kind::Reference),
        0x1a..=0x1d => {
            let (kind, local) = (Kind::Int, u16::from(opcode - 0x1a));
            Some((Instr::Load { kind, local }, 1))
        }
        0x2a..=0x2d => {
            let (kind, local) = (Kind::Reference, u16::from(opcode - 0x2a));
            Some((Instr::Load { kind, local }, 1))
        }
        0x2e => Some((Instr::LoadElement(ArrayKind::Int), 1)),
        0x32 => Some((Instr::LoadElement(ArrayKind::Reference), 1)),
        0x33 => Some((Instr::LoadElement(ArrayKind::ByteOrBoolean), 1)),
        0x34 => Some((Instr::LoadElement(ArrayKind::Char), 1)),
        0x35 => Some((Instr::LoadElement(ArrayKind::Short), 1)),
        _ => None,
    }
}

fn stores_and_stack(code: &[u8], pc: usize, opcode: u8) -> Option<(Instr, usize)>
    requires { pc < length code.now }
    ensures { result ≡ made_of (form_in stores_and_stack opcode) code.now pc }
{
    match opcode {
        0x36 => store(code, pc, Kind::Int),
        0x3a => store(code, pc, Kind::Reference),
        0x3b..=0x3e => {
            let (kind, local) = (Kind::Int, u16::from(opcode - 0x3b));
            Some((Instr::Store { kind, local }, 1))
        }
        0x4b..=0x4e => {
            let (kind, local) = (Kind::Reference, u16::from(opcode - 0x4b));
            Some((Instr::Store { kind, local }, 1))
        }
        0x4f => Some((Instr::StoreElement(ArrayKind::Int), 1)),
        0x53 => Some((Instr::StoreElement(ArrayKind::Reference), 1)),
        0x54 => Some((Instr::StoreElement(ArrayKind::ByteOrBoolean), 1)),
        0x55 => Some((Instr::StoreElement(ArrayKind::Char), 1)),
        0x56 => Some((Instr::StoreElement(ArrayKind::Short), 1)),
        0x57 => Some((Instr::Move(StackMove::Pop), 1)),
        0x58 => Some((Instr::Move(StackMove::Pop2), 1)),
        0x59 => Some((Instr::Move(StackMove::Dup), 1)),
        0x5a => Some((Instr::Move(StackMove::DupX1), 1)),
        0x5b => Some((Instr::Move(StackMove::DupX2), 1)),
        0x5c => Some((Instr::Move(StackMove::Dup2), 1)),
        0x5d => Some((Instr::Move(StackMove::Dup2X1), 1)),
        0x5e => Some((Instr::Move(StackMove::Dup2X2), 1)),
        0x5f => Some((Instr::Move(StackMove::Swap), 1)),
        _ => None,
    }
}

fn math_and_conversions(code: &[u8], pc: usize, opcode: u8) -> Option<(Instr, usize)>
    requires { pc < length code.now }
    ensures { result ≡ made_of (form_in math_and_conversions opcode) code.now pc }
{
    match opcode {
        0x60 => Some((Instr::Compute(Arithmetic::Add), 1)),
        0x64 => Some((Instr::Compute(Arithmetic::Subtract), 1)),
        0x68 => Some((Instr::Compute(Arithmetic::Multiply), 1)),
        0x6c => Some((Instr::Compute(Arithmetic::Divide), 1)),
        0x70 => Some((Instr::Compute(Arithmetic::Remainder), 1)),
        0x74 => Some((Instr::Negate, 1)),
        0x78 => Some((Instr::Compute(Arithmetic::ShiftLeft), 1)),
        0x7a => Some((Instr::Compute(Arithmetic::ShiftRight), 1)),
        0x7c => Some((Instr::Compute(Arithmetic::UnsignedShiftRight), 1)),
        0x7e => Some((Instr::Compute(Arithmetic::And), 1)),
        0x80 => Some((Instr::Compute(Arithmetic::Or), 1)),
        0x82 => Some((Instr::Compute(Arithmetic::ExclusiveOr), 1)),
        0x84 => {
            let local = u16::from(u1_at(code, pc + 1)?);
            let by = i16::from(i1_at(code, pc + 2)?);
            Some((Instr::Increment { local, by }, 3))
        }
        0x91 => Some((Instr::Convert(Conversion::ToByte), 1)),
        0x92 => Some((Instr::Convert(Conversion::ToChar), 1)),
        0x93 => Some((Instr::Convert(Conversion::ToShort), 1)),
        _ => None,
    }
}

fn comparisons(code: &[u8], pc: usize, opcode: u8) -> Option<(Instr, usize)>
    requires { pc < length code.now }
    ensures { result ≡ made_of (form_in comparisons opcode) code.now pc }
{
    match opcode {
        0x99 => compare(code, pc, Comparison::Equal),
        0x9a => compare(code, pc, Comparison::NotEqual),
        0x9b => compare(code, pc, Comparison::Less),
        0x9c => compare(code, pc, Comparison::GreaterOrEqual),
        0x9d => compare(code, pc, Comparison::Greater),
        0x9e => compare(code, pc, Comparison::LessOrEqual),
        0x9f => compare_ints(code, pc, Comparison::Equal),
        0xa0 => compare_ints(code, pc, Comparison::NotEqual),
        0xa1 => compare_ints(code, pc, Comparison::Less),
        0xa2 => compare_ints(code, pc, Comparison::GreaterOrEqual),
        0xa3 => compare_ints(code, pc, Comparison::Greater),
        0xa4 => compare_ints(code, pc, Comparison::LessOrEqual),
        0xa5 => compare_references(code, pc, true),
        0xa6 => compare_references(code, pc, false),
        _ => None,
    }
}

fn control(code: &[u8], pc: usize, opcode: u8) -> Option<(Instr, usize)>
    requires { pc < length code.now }
    ensures { result ≡ made_of (form_in control opcode) code.now pc }
{
    match opcode {
        0xa7 => {
            let by = i32::from(i2_at(code, pc + 1)?);
            Some((Instr::Goto { by }, 3))
        }
        0xaa => table_switch(code, pc),
        0xab => lookup_switch(code, pc),
        0xac => Some((Instr::Return(Returned::Int), 1)),
        0xb0 => Some((Instr::Return(Returned::Reference), 1)),
        0xb1 => Some((Instr::Return(Returned::Nothing), 1)),
        _ => None,
    }
}

fn references(code: &[u8], pc: usize, opcode: u8) -> Option<(Instr, usize)>
    requires { pc < length code.now }
    ensures { result ≡ made_of (form_in references opcode) code.now pc }
{
    match opcode {
        0xb2 => field(code, pc, FieldAccess::GetStatic),
        0xb3 => field(code, pc, FieldAccess::PutStatic),
        0xb4 => field(code, pc, FieldAccess::GetField),
        0xb5 => field(code, pc, FieldAccess::PutField),
        0xb6 => invoke(code, pc, Invocation::Virtual),
        0xb7 => invoke(code, pc, Invocation::Special),
        0xb8 => invoke(code, pc, Invocation::Static),
        0xb9 => {
            let index = u2_at(code, pc + 1)?;
            let count = u1_at(code, pc + 3)?;
            let last = u1_at(code, pc + 4)?;
            Some((Instr::InvokeInterface { index, count, last }, 5))
        }
        0xbb => {
            let index = u2_at(code, pc + 1)?;
            Some((Instr::New { index }, 3))
        }
        0xbc => {
            let code = u1_at(code, pc + 1)?;
            Some((Instr::NewArray { code }, 2))
        }
        0xbd => {
            let index = u2_at(code, pc + 1)?;
            Some((Instr::NewReferenceArray { index }, 3))
        }
        0xbe => Some((Instr::ArrayLength, 1)),
        0xbf => Some((Instr::Throw, 1)),
        0xc0 => {
            let index = u2_at(code, pc + 1)?;
            Some((Instr::CheckCast { index }, 3))
        }
        0xc1 => {
            let index = u2_at(code, pc + 1)?;
            Some((Instr::InstanceOf { index }, 3))
        }
        0xc2 => Some((Instr::MonitorEnter, 1)),
        0xc3 => Some((Instr::MonitorExit, 1)),
        _ => None,
    }
}

fn extended(code: &[u8], pc: usize, opcode: u8) -> Option<(Instr, usize)>
    requires { pc < length code.now }
    ensures { result ≡ made_of (form_in extended opcode) code.now pc }
{
    match opcode {
        0xc4 => wide(code, pc),
        0xc6 => compare_with_null(code, pc, true),
        0xc7 => compare_with_null(code, pc, false),
        0xc8 => {
            let by = i4_at(code, pc + 1)?;
            Some((Instr::Goto { by }, 5))
        }
        _ => None,
    }
}

/// The instruction of an opcode below those of the comparisons.
#[tactic(auto, unfolding(model::specs::OpcodeTable::low_form))]
fn low(code: &[u8], pc: usize, opcode: u8) -> Option<(Instr, usize)>
    requires { pc < length code.now }
    ensures { result ≡ made_of (low_form opcode) code.now pc }
{
    if opcode < 0x36 {
        constants_and_loads(code, pc, opcode)
    } else if opcode < 0x60 {
        stores_and_stack(code, pc, opcode)
    } else {
        math_and_conversions(code, pc, opcode)
    }
}

#[tactic(auto, unfolding(model::specs::OpcodeTable::high_form))]
fn high(code: &[u8], pc: usize, opcode: u8) -> Option<(Instr, usize)>
    requires { pc < length code.now }
    ensures { result ≡ made_of (high_form opcode) code.now pc }
{
    if opcode < 0xa7 {
        comparisons(code, pc, opcode)
    } else if opcode < 0xb2 {
        control(code, pc, opcode)
    } else if opcode < 0xc4 {
        references(code, pc, opcode)
    } else {
        extended(code, pc, opcode)
    }
}

/// The instruction at an offset, with its length in bytes. `None` where no whole instruction of the table begins.
pub fn sized_at(code: &[u8], pc: usize) -> Option<(Instr, usize)>
    ensures value { result ≡ sized_at code.now pc }
    ensures within { IfSome result (λ found. HasBytes code.now pc found.1) }
{
    let opcode = u1_at(code, pc)?;
    if opcode < 0x99 {
        low(code, pc, opcode)
    } else {
        high(code, pc, opcode)
    }
}

/// The instruction at an offset. `None` where no whole instruction of the table begins.
pub fn decode_at(code: &[u8], pc: usize) -> Option<Instr>
    ensures { result ≡ instr_at code.now pc }
{
    let (instr, _) = sized_at(code, pc)?;
    Some(instr)
}

/// How many bytes the instruction at an offset has. `None` where no whole instruction of the table begins.
#[tactic(auto, using(model::proofs::InstructionLaws::length_fits))]
pub fn length_at(code: &[u8], pc: usize) -> Option<usize>
    ensures value { result ≡ length_at code.now pc }
    ensures within { IfSome result (HasBytes code.now pc) }
{
    let (_, length) = sized_at(code, pc)?;
    Some(length)
}
