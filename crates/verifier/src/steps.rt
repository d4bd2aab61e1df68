//! How many steps verification takes. A search ends in any case, but the longest of all take a time that grows faster
//! than their code: so steps are counted, each of which is about what it takes to merge one type, and are limited.

ghost use Rattle.std.specs.Prelude.{◌≡◌, suc, ◌+◌, ◌*◌, ◌<◌, ◌≤◌, min, length, option_map, OnOk, IfErr};
ghost use Rattle.constant_pool.specs.View.{reference_of};
ghost use Rattle.run_laws.specs.typing_search.Weights.{places};
ghost use Rattle.types.specs.method_code.View.{body_of};
ghost use Rattle.verifier.specs.Worklist.{text_bytes, member_bytes, bytes_named, bytes_at, most_a_turn};

use crate::fault::MethodFault;
use crate::flow::Meanings;
use class_tree::ClassFile;
use constant_pool::Reference;
use model::Instr;
use opcodes::decode_at;
use types::method_code::MethodCode;

/// How many steps the verification of a set of classes may take.
pub const MOST_STEPS: u64 = 2_000_000_000;

/// What each turn of a search takes, whatever it merges.
const TURN: u64 = 32;

/// What a look as a whole takes beside that, whatever it merges: frame types are read and made for it.
const LOOK: u64 = 64;

/// How many steps a verification may still take.
#[derive(Drop)]
pub(crate) struct Steps {
    pub left: u64,
}

impl Steps {
    pub fn new(left: u64) -> Steps
        ensures { result.left ≡ left }
    {
        Steps { left }
    }

    /// Takes steps, if so many are left.
    pub fn take(&mut self, steps: u64) -> Result<(), MethodFault>
        ensures taken { OnOk result (self.new.left + steps ≡ self.old.left) }
        ensures fewer { IfErr result (λ fault. (fault ≡ MethodFault.TooLong) × (self.old.left < steps)) }
    {
        if self.left < steps {
            return Err(MethodFault::TooLong);
        }
        self.left -= steps;
        Ok(())
    }
}

/// How many places the frame types of a method have.
fn places(method: &MethodCode<'_>) -> usize
    ensures { result ≡ places (body_of method.now) }
{
    usize::from(method.code.max_locals) + usize::from(method.code.max_stack)
}

/// What it takes to read a frame type and to merge one at each offset of so many, where each has so many types.
fn merged(leads: usize, types: usize) -> u64
    ensures { result ≤ suc leads * suc types }
{
    let frames = (leads as u64).saturating_add(1);
    frames.saturating_mul((types as u64).saturating_add(1))
}

/// How many bytes a text has.
fn text_bytes(text: Option<&[u8]>) -> usize
    ensures { result ≤ text_bytes (option_map (λ t. t.now) text.entry) }
{
    match text {
        Some(text) => text.len(),
        None => 0,
    }
}

/// How many bytes the texts of a member have.
fn member_bytes(member: Option<Reference<'_>>) -> usize
    ensures { result ≤ member_bytes (option_map (λ r. reference_of r) member.entry) }
{
    match member {
        Some(member) => member
            .class
            .len()
            .saturating_add(member.name.len())
            .saturating_add(member.descriptor.len()),
        None => 0,
    }
}

/// How many bytes the texts have that an instruction names: a class, or a member with its descriptor. They are read
/// and sought for what it means.
fn bytes_named(file: &ClassFile, instruction: Instr) -> usize
    ensures { result ≤ bytes_named file.now.pool instruction }
{
    match instruction {
        Instr::Field { index, .. } => member_bytes(file.field_reference(index)),
        Instr::Invoke { index, .. } => member_bytes(file.method_reference(index)),
        Instr::InvokeInterface { index, .. } => {
            member_bytes(file.interface_method_reference(index))
        }
        Instr::New { index } => text_bytes(file.class_name(index)),
        Instr::NewReferenceArray { index } => text_bytes(file.class_name(index)),
        Instr::CheckCast { index } => text_bytes(file.class_name(index)),
        Instr::InstanceOf { index } => text_bytes(file.class_name(index)),
        Instr::LoadConstant { index } => text_bytes(file.class_name(index)),
        _ => 0,
    }
}

/// How many bytes of the texts that the instruction at an offset names are read, where such meanings are kept.
pub(crate) fn bytes_read(method: &MethodCode<'_>, meanings: &Meanings, offset: usize) -> usize
    ensures { result ≤ bytes_at (body_of method.now) offset }
{
    if meanings.at(offset).is_some() {
        return 0;
    }
    match decode_at(&method.code().code, offset) {
        Some(instruction) => bytes_named(method.file(), instruction),
        None => 0,
    }
}

/// How many steps a look as a whole takes at an instruction that leads to so many offsets, beside what each turn
/// takes: what it merges, one for each byte of texts that it reads, and some more.
pub(crate) fn steps_of_look(method: &MethodCode<'_>, leads: usize, read: usize) -> u64
    ensures { result ≤ 64 + read + suc leads * suc (places (body_of method.now)) }
{
    merged(leads, places(method))
        .saturating_add(read as u64)
        .saturating_add(LOOK)
}

/// How many steps a look takes that merges so many changed local variables alone.
pub(crate) fn steps_of_changes(method: &MethodCode<'_>, leads: usize, changed: usize) -> u64
    ensures { result ≤ suc leads * suc (places (body_of method.now)) }
{
    merged(leads, changed.min(places(method)))
}

/// How many steps a turn takes at most.
fn most_a_turn(method: &MethodCode<'_>) -> u64
    ensures { result ≤ most_a_turn (body_of method.now) }
{
    let leads = method
        .code
        .code
        .len()
        .saturating_add(method.code.exceptions.len());
    merged(leads, places(method)).saturating_add(TURN)
}

/// How many steps a turn takes with a look of so many. It also asks each handler whether its range has the offset.
pub(crate) fn steps_of_turn(method: &MethodCode<'_>, look: u64) -> u64
    ensures { result ≤ min (32 + length (body_of method.now).code.exceptions + look)
        (most_a_turn (body_of method.now)) }
{
    let asked = method.code.exceptions.len() as u64;
    look.saturating_add(asked)
        .saturating_add(TURN)
        .min(most_a_turn(method))
}
