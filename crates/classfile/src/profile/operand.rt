//! What the operands of an instruction name, by the constant pool: what is outside of the profile, and what is
//! malformed (JVMS 4.9.1).

ghost use Rattle.std.specs.Prelude.{◌≡◌, ◌||◌, false, option_map};
ghost use Rattle.std.specs.List.{list_any};
ghost use Rattle.std.specs.Option.{option_map_or};
ghost use Rattle.model.specs.Names.{member_eq, java_lang_object, object_clone, constructor_name, initialiser_name};
ghost use Rattle.model.specs.Lookup.{in_class};
ghost use Rattle.model.specs.DescriptorScan.{dimensions_of};
ghost use Rattle.model.specs.DescriptorParts.{is_array_class};
ghost use Rattle.model.specs.Pool.{class_name_at, field_at, method_at, interface_method_at};
ghost use Rattle.model.specs.CodeParts.{method_operand, descriptors_of, array_descriptor};
ghost use Rattle.model.specs.Profile.{has_left_out_type, operand_of_left_out_type, left_out_array, float_constant, array_class_constant, is_array_clone, method_of_array_class, instruction_outside_profile};
ghost use Rattle.model.specs.CodeConditions.{operand_of_wrong_kind, wrong_interface_count, wrong_interface_end, is_special, calls_named, constructor_not_by_special, calls_initialiser, new_of_array, too_many_dimensions};
ghost use Rattle.constant_pool.specs.View.{reference_of};
ghost use Rattle.classfile.specs.profile.Clones.{clones_array};
ghost use Rattle.classfile.specs.profile.Descriptions.{rows_of};
ghost use Rattle.classfile.specs.profile.Faults.{row_of, special_of, malformed_operand_by};

use crate::profile::described::{Described, class_says, member_says};
use crate::{ClassFile, Constant, Reference};
use model::{Instr, Invocation};

/// The highest number of dimensions of an array (JVMS 4.3.2).
const MOST_DIMENSIONS: usize = 255;

fn is_array_class(name: &[u8]) -> bool
    ensures { result ≡ is_array_class name.now }
{
    matches!(name, [b'[', ..])
}

/// Whether an index names a class of arrays.
fn names_array(file: &ClassFile, index: u16) -> bool
    ensures { result ≡ option_map_or is_array_class (class_name_at file.now.pool index) false }
{
    match file.class_name(index) {
        Some(name) => is_array_class(name),
        None => false,
    }
}

/// Whether the field of a Fieldref is of a type that is left out.
fn field_left_out(file: &ClassFile, rows: &[Described], index: u16) -> bool
    requires { rows.now ≡ rows_of file.now.pool }
    ensures { result ≡ list_any has_left_out_type (descriptors_of (field_at file.now.pool index)) }
{
    file.field_reference(index).is_some() && member_says(file, rows, index).leaves_out
}

/// Whether the descriptor of the method of a Methodref names a type that is left out.
fn method_left_out(file: &ClassFile, rows: &[Described], index: u16) -> bool
    requires { rows.now ≡ rows_of file.now.pool }
    ensures { result ≡ list_any has_left_out_type (descriptors_of (method_at file.now.pool index)) }
{
    file.method_reference(index).is_some() && member_says(file, rows, index).leaves_out
}

/// Whether the descriptor of the method of an InterfaceMethodref names a type that is left out.
fn interface_left_out(file: &ClassFile, rows: &[Described], index: u16) -> bool
    requires { rows.now ≡ rows_of file.now.pool }
    ensures { result ≡ list_any has_left_out_type (descriptors_of (interface_method_at file.now.pool index)) }
{
    file.interface_method_reference(index).is_some() && member_says(file, rows, index).leaves_out
}

/// Whether a Class is one of arrays of a type that is left out.
fn class_left_out(file: &ClassFile, rows: &[Described], index: u16) -> bool
    requires { rows.now ≡ rows_of file.now.pool }
    ensures { result ≡ list_any has_left_out_type (array_descriptor (class_name_at file.now.pool index)) }
{
    names_array(file, index) && class_says(file, rows, index).leaves_out
}

/// Whether a descriptor of an operand names a type that is left out.
fn names_left_out(file: &ClassFile, rows: &[Described], instr: Instr) -> bool
    requires { rows.now ≡ rows_of file.now.pool }
    ensures { result ≡ operand_of_left_out_type file.now.pool instr }
{
    match instr {
        Instr::Field { index, .. } => field_left_out(file, rows, index),
        Instr::Invoke { index, .. } => method_left_out(file, rows, index),
        Instr::InvokeInterface { index, .. } => interface_left_out(file, rows, index),
        Instr::NewReferenceArray { index } => class_left_out(file, rows, index),
        Instr::CheckCast { index } => class_left_out(file, rows, index),
        Instr::InstanceOf { index } => class_left_out(file, rows, index),
        _ => false,
    }
}

/// Whether it makes an array of `long`, `float`, `double`, or of no type.
fn makes_left_out_array(_file: &ClassFile, instr: Instr) -> bool
    ensures { result ≡ left_out_array _file.now.pool instr }
{
    match instr {
        Instr::NewArray { code } => !matches!(code, 4 | 5 | 8 | 9 | 10),
        _ => false,
    }
}

/// Whether it loads a Float.
fn loads_float(file: &ClassFile, instr: Instr) -> bool
    ensures { result ≡ float_constant file.now.pool instr }
{
    match instr {
        Instr::LoadConstant { index } => {
            matches!(file.constant(index), Some(Constant::Float(_)))
        }
        _ => false,
    }
}

/// Whether it loads a class of arrays.
fn loads_array_class(file: &ClassFile, instr: Instr) -> bool
    ensures { result ≡ array_class_constant file.now.pool instr }
{
    match instr {
        Instr::LoadConstant { index } => names_array(file, index),
        _ => false,
    }
}

/// The method that a call names.
fn called(file: &ClassFile, instr: Instr) -> Option<Reference<'_>>
    ensures { option_map (λ r. reference_of r) result ≡ method_operand file.now.pool instr }
{
    match instr {
        Instr::Invoke { index, .. } => file.method_reference(index),
        Instr::InvokeInterface { index, .. } => file.interface_method_reference(index),
        _ => None,
    }
}

/// Whether a method is `clone`, as Object has it.
fn is_clone(method: Reference<'_>) -> bool
    ensures { result ≡ member_eq (in_class java_lang_object (reference_of method.entry)) object_clone }
{
    method.name == b"clone".as_slice() && method.descriptor == b"()Ljava/lang/Object;".as_slice()
}

/// Whether the Methodref of an index is to `clone`, and of no array of a type that is left out.
fn names_clone(file: &ClassFile, rows: &[Described], index: u16) -> bool
    requires { rows.now ≡ rows_of file.now.pool }
    ensures { result ≡ option_map_or is_array_clone (method_at file.now.pool index) false }
{
    let Some(Constant::Method { class, .. }) = file.constant(index) else {
        return false;
    };
    match file.method_reference(index) {
        Some(method) => is_clone(method) && !class_says(file, rows, *class).leaves_out,
        None => false,
    }
}

/// Whether it clones an array, where it names a method of a class of arrays.
fn clones(file: &ClassFile, rows: &[Described], instr: Instr) -> bool
    requires { rows.now ≡ rows_of file.now.pool }
    ensures { result ≡ clones_array file.now.pool instr }
{
    match instr {
        Instr::Invoke {
            invocation: Invocation::Virtual,
            index,
        } => names_clone(file, rows, index),
        _ => false,
    }
}

/// Whether it calls another method of a class of arrays than `clone`, or that otherwise than by `invokevirtual`.
fn calls_array_class(file: &ClassFile, rows: &[Described], instr: Instr) -> bool
    requires { rows.now ≡ rows_of file.now.pool }
    ensures { result ≡ method_of_array_class file.now.pool instr }
{
    match called(file, instr) {
        Some(method) => is_array_class(method.class) && !clones(file, rows, instr),
        None => false,
    }
}

/// Whether an instruction is outside of the profile.
pub(crate) fn is_outside(file: &ClassFile, rows: &[Described], instr: Instr) -> bool
    requires { rows.now ≡ rows_of file.now.pool }
    ensures { result ≡ instruction_outside_profile file.now.pool instr }
{
    names_left_out(file, rows, instr)
        || makes_left_out_array(file, instr)
        || loads_float(file, instr)
        || loads_array_class(file, instr)
        || calls_array_class(file, rows, instr)
}

/// Whether an index names an entry of another kind than the instruction asks for.
fn names_wrong_kind(file: &ClassFile, instr: Instr) -> bool
    ensures { result ≡ operand_of_wrong_kind file.now.pool instr }
{
    match instr {
        Instr::LoadConstant { index } => !matches!(
            file.constant(index),
            Some(
                Constant::Integer(_)
                    | Constant::Float(_)
                    | Constant::String { .. }
                    | Constant::Class { .. }
            )
        ),
        Instr::Field { index, .. } => file.field_reference(index).is_none(),
        Instr::Invoke { index, .. } => file.method_reference(index).is_none(),
        Instr::InvokeInterface { index, .. } => file.interface_method_reference(index).is_none(),
        Instr::New { index }
        | Instr::NewReferenceArray { index }
        | Instr::CheckCast { index }
        | Instr::InstanceOf { index } => file.class_name(index).is_none(),
        _ => false,
    }
}

/// Whether it is an `invokeinterface` whose count isn't the slots of its arguments with the receiver.
fn has_wrong_count(file: &ClassFile, rows: &[Described], instr: Instr) -> bool
    requires { rows.now ≡ rows_of file.now.pool }
    ensures { result ≡ wrong_interface_count file.now.pool instr }
{
    match instr {
        Instr::InvokeInterface { index, count, .. } => {
            file.interface_method_reference(index).is_some()
                && u16::from(count) != u16::from(member_says(file, rows, index).slots) + 1
        }
        _ => false,
    }
}

/// Whether it is an `invokeinterface` whose last byte isn't 0.
fn has_wrong_end(instr: Instr) -> bool
    ensures { result ≡ wrong_interface_end instr }
{
    match instr {
        Instr::InvokeInterface { last, .. } => last != 0,
        _ => false,
    }
}

fn is_special(instr: Instr) -> bool
    ensures { result ≡ is_special instr }
{
    matches!(
        instr,
        Instr::Invoke {
            invocation: Invocation::Special,
            ..
        }
    )
}

/// Whether it calls a method of this name.
fn calls(file: &ClassFile, name: &[u8], instr: Instr) -> bool
    ensures { result ≡ calls_named file.now.pool name.now instr }
{
    match called(file, instr) {
        Some(method) => method.name == name,
        None => false,
    }
}

/// Whether it calls a constructor otherwise than by `invokespecial`, or an initialiser.
fn calls_by_the_machine(file: &ClassFile, instr: Instr) -> bool
    ensures { result ≡ (constructor_not_by_special file.now.pool instr || calls_initialiser file.now.pool instr) }
{
    calls(file, b"<init>", instr) && !is_special(instr) || calls(file, b"<clinit>", instr)
}

/// Whether it is an `invokespecial` of an index that is marked.
fn calls_aside(aside: &[bool], instr: Instr) -> bool
    ensures { result ≡ special_of (row_of aside.now) instr }
{
    match instr {
        Instr::Invoke {
            invocation: Invocation::Special,
            index,
        } => aside.get(index as usize).copied().unwrap_or(false),
        _ => false,
    }
}

/// How many brackets a name begins with.
fn dimensions(name: &[u8]) -> usize
    ensures { result ≡ dimensions_of name.now }
{
    let mut rest = name;
    let mut count = 0;
    'bytes: while let [b'[', after @ ..] = rest {
        rest = after;
        count += 1;
    }
    count
}

/// Whether it makes an object of a class of arrays, or an array of arrays that have all dimensions.
fn makes_no_such_class(file: &ClassFile, instr: Instr) -> bool
    ensures { result ≡ (new_of_array file.now.pool instr || too_many_dimensions file.now.pool instr) }
{
    match instr {
        Instr::New { index } => names_array(file, index),
        Instr::NewReferenceArray { index } => match file.class_name(index) {
            Some(name) => dimensions(name) >= MOST_DIMENSIONS,
            None => false,
        },
        _ => false,
    }
}

/// Whether what its operands name is malformed.
pub(crate) fn has_malformed_operand(
    file: &ClassFile,
    rows: &[Described],
    aside: &[bool],
    instr: Instr,
) -> bool
    requires { rows.now ≡ rows_of file.now.pool }
    ensures { result ≡ malformed_operand_by (row_of aside.now) file.now.pool instr }
{
    names_wrong_kind(file, instr)
        || has_wrong_count(file, rows, instr)
        || has_wrong_end(instr)
        || calls_by_the_machine(file, instr)
        || calls_aside(aside, instr)
        || makes_no_such_class(file, instr)
}
