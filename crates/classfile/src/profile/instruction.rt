//! The first instruction that is not whole, or has a flaw.

ghost use Rattle.std.specs.Prelude.{◌≡◌, ◌<◌, false, not, is_some, length};
ghost use Rattle.model.specs.Instruction.{sized_at};
ghost use Rattle.model.specs.InstructionStarts.{starts};
ghost use Rattle.model.specs.CodeParts.{begins_none};
ghost use Rattle.model.specs.Profile.{is_widened, is_known_opcode};
ghost use Rattle.model.specs.CodeConditions.{local_above_max, malformed_offset};
ghost use Rattle.classfile.specs.View.{code_of};
ghost use Rattle.classfile.specs.profile.Descriptions.{rows_of};
ghost use Rattle.classfile.specs.profile.Opcodes.{is_known, is_known_at};
ghost use Rattle.classfile.specs.profile.Faults.{row_of, malformed_instruction_by, instruction_outside_at, instruction_malformed_at, Says, FindsAmong, FindsBoundary};

use crate::profile::described::Described;
use crate::profile::fault::Flaw;
use crate::profile::jump::{has_unsorted_matches, jumps_off};
use crate::profile::operand::{has_malformed_operand, is_outside};
use crate::{ClassFile, Code};
use model::Instr;
use opcodes::{decode_at, mnemonic};

/// Whether `wide` widens the instruction of an opcode.
fn is_widened(opcode: u8) -> bool
    ensures { result ≡ is_widened opcode }
{
    matches!(opcode, 0x15 | 0x19 | 0x36 | 0x3a | 0x84)
}

/// Whether an opcode is one of the table, by the byte behind it too where it is `wide`.
fn is_known(opcode: Option<u8>, behind: Option<u8>) -> bool
    ensures { result ≡ is_known opcode behind }
{
    match opcode {
        None => true,
        Some(0xc4) => match behind {
            None => true,
            Some(widened) => is_widened(widened),
        },
        Some(opcode) => mnemonic(opcode).is_some(),
    }
}

fn is_known_at(code: &[u8], pc: usize) -> bool
    requires { pc < length code.now }
    ensures { result ≡ is_known_at code.now pc }
{
    is_known(code.get(pc).copied(), code.get(pc + 1).copied())
}

/// Whether the byte at an offset is an opcode of the table, and behind `wide` stands one that it widens.
#[tactic(auto, using(crate::proofs::profile::Sized::known_at))]
fn is_known_opcode(code: &[u8], pc: usize) -> bool
    requires { pc < length code.now }
    ensures { result ≡ is_known_opcode code.now pc }
{
    is_known_at(code, pc)
}

/// The first instruction boundary at which no whole instruction of the table begins.
pub(crate) fn end_of_decoding(code: &Code, marks: &[bool]) -> Option<usize>
    requires marked { marks.now ≡ starts code.now.code.items }
    ensures { FindsBoundary code.now.code.items (begins_none code.now.code.items) result }
{
    for (pc, is_start) in marks.iter().enumerate() {
        if *is_start && decode_at(&code.code, pc).is_none() {
            return Some(pc);
        }
    }
    None
}

/// What is wrong where no whole instruction begins: its opcode is none of the table, or it is malformed.
pub(crate) fn missing_flaw(code: &Code, pc: usize) -> Flaw
    requires here { pc < length code.now.code.items }
    requires missing { is_some (sized_at code.now.code.items pc) ≡ false }
    ensures { Says (Some result) (not (is_known_opcode code.now.code.items pc))
        (malformed_offset (code_of code.now) pc) }
{
    if is_known_opcode(&code.code, pc) {
        Flaw::MalformedCode
    } else {
        Flaw::OutsideProfile
    }
}

/// What is wrong with the instruction at an offset, where one begins.
fn flaw_at(
    file: &ClassFile,
    rows: &[Described],
    aside: &[bool],
    code: &Code,
    marks: &[bool],
    pc: usize,
) -> Option<Flaw>
    requires described { rows.now ≡ rows_of file.now.pool }
    requires marked { marks.now ≡ starts code.now.code.items }
    ensures { Says result (instruction_outside_at file.now.pool (code_of code.now) pc)
        (instruction_malformed_at (row_of aside.now) file.now.pool (code_of code.now) pc) }
{
    let instr = decode_at(&code.code, pc)?;
    if is_outside(file, rows, instr) {
        Some(Flaw::OutsideProfile)
    } else if is_malformed(file, rows, aside, code, marks, pc, instr) {
        Some(Flaw::MalformedCode)
    } else {
        None
    }
}

/// The first instruction with a flaw.
pub(crate) fn first_flaw(
    file: &ClassFile,
    rows: &[Described],
    aside: &[bool],
    code: &Code,
    marks: &[bool],
) -> Option<(usize, Flaw)>
    requires described { rows.now ≡ rows_of file.now.pool }
    requires marked { marks.now ≡ starts code.now.code.items }
    ensures { FindsAmong code.now.code.items (instruction_outside_at file.now.pool (code_of code.now))
        (instruction_malformed_at (row_of aside.now) file.now.pool (code_of code.now)) result }
{
    for (pc, is_start) in marks.iter().enumerate() {
        if *is_start {
            if let Some(flaw) = flaw_at(file, rows, aside, code, marks, pc) {
                return Some((pc, flaw));
            }
        }
    }
    None
}

/// Whether an instruction breaks a condition of JVMS 4.9.1.
fn is_malformed(
    file: &ClassFile,
    rows: &[Described],
    aside: &[bool],
    code: &Code,
    marks: &[bool],
    pc: usize,
    instr: Instr,
) -> bool
    requires described { rows.now ≡ rows_of file.now.pool }
    requires marked { marks.now ≡ starts code.now.code.items }
    ensures { result ≡ malformed_instruction_by (row_of aside.now) file.now.pool (code_of code.now) pc instr }
{
    jumps_off(code, marks, pc, instr)
        || has_unsorted_matches(code, instr)
        || has_local_above_max(code, instr)
        || has_malformed_operand(file, rows, aside, instr)
}

/// Whether it names a local variable at or above max_locals.
fn has_local_above_max(code: &Code, instr: Instr) -> bool
    ensures { result ≡ local_above_max (code_of code.now) instr }
{
    match instr {
        Instr::Load { local, .. } | Instr::Store { local, .. } | Instr::Increment { local, .. } => {
            code.max_locals <= local
        }
        _ => false,
    }
}
