//! Whether the class, the field or the method that an entry of the constant pool names is found as an instruction
//! wants it (JVMS 6.5).

ghost use Rattle.std.specs.Prelude.{◌≡◌, ◌&&◌, ◌||◌, IsFalse, false};
ghost use Rattle.std.specs.List.{list_any};
ghost use Rattle.std.specs.Option.{option_and_then, option_map_or};
ghost use Rattle.model.specs.declared.instr.Instr.TheVariants as instrs;
ghost use Rattle.model.specs.Pool.{class_name_at, name_and_type_at, reference_at, field_at, method_at, interface_method_at};
ghost use Rattle.model.specs.Classes.{class_of};
ghost use Rattle.model.specs.Linkable.{stands, DuplicateClass};
ghost use Rattle.model.specs.DescriptorParts.{is_array_class};
ghost use Rattle.model.specs.Resolution.{is_missing, is_missing_catch, member_classes, called_classes, is_uninstantiable, wants_static_field, is_system_stream, unresolved_instruction};
ghost use Rattle.constant_pool.specs.View.{reference_of};
ghost use Rattle.classfile.specs.View.{file_of};
ghost use Rattle.hierarchy.specs.Places.{member_in, IsFieldAt, IsMethodAt};
ghost use Rattle.link_conditions.specs.resolution.Rows.{descriptor_lacks_class, lacking_texts};
ghost use Rattle.link_conditions.specs.resolution.Operands.{is_put_static, fails_access, fails_call};

use crate::resolution::descriptor::{descriptor_lacks_class, text_lacks_class};
use crate::resolution::found::found_in_class;
use crate::resolution::member::{
    is_field, is_field_of_other_kind, is_hidden_field, is_hidden_method, is_method_of_other_kind,
};
use classfile::access_flags::{ABSTRACT, INTERFACE, has};
use classfile::{ClassFile, Constant, Reference};
use hierarchy::{ClassSet, Hierarchy, MemberPlace};
use model::{FieldAccess, Invocation};

/// System.out, which no file may put.
const SYSTEM_OUT: Reference<'static> = Reference {
    class: b"java/lang/System",
    name: b"out",
    descriptor: b"Ljava/io/PrintStream;",
};

/// System.err, which no file may put.
const SYSTEM_ERR: Reference<'static> = Reference {
    class: b"java/lang/System",
    name: b"err",
    descriptor: b"Ljava/io/PrintStream;",
};

fn is_array_class(name: &[u8]) -> bool
    ensures { result ≡ is_array_class name.now }
{
    matches!(name, [b'[', ..])
}

/// Whether no class has a name.
pub(crate) fn is_missing(set: &ClassSet, name: &[u8]) -> bool
    ensures { result ≡ is_missing set.now name.now }
{
    set.class_of(name).is_none()
}

/// Whether the class of an index is not found, or that of an array's elements, where an instruction names it.
pub(crate) fn is_class_unresolved(
    set: &ClassSet,
    file: &ClassFile,
    lacking: &[bool],
    index: u16,
) -> bool
    requires { lacking.now ≡ lacking_texts set.now file.now.pool }
    ensures { result ≡ unresolved_instruction set.now (file_of file.now) (instrs.CheckCast index) }
{
    let Some(Constant::Class { name }) = file.constant(index) else {
        return false;
    };
    match file.utf8(*name) {
        Some(text) if is_array_class(text) => text_lacks_class(set, file, lacking, *name),
        Some(text) => is_missing(set, text),
        None => false,
    }
}

/// Whether the class of an index is an interface or abstract.
fn is_uninstantiable(set: &ClassSet, file: &ClassFile, index: u16) -> bool
    ensures { result ≡ option_map_or is_uninstantiable
        (option_and_then (class_of set.now) (class_name_at file.now.pool index)) false }
{
    let Some(name) = file.class_name(index) else {
        return false;
    };
    match set.class_of(name) {
        Some(class) => has(class.flags, INTERFACE) || has(class.flags, ABSTRACT),
        None => false,
    }
}

/// Whether `new` makes no object of the class of an index: it is not found, is an interface, or is abstract.
pub(crate) fn is_new_unresolved(
    set: &ClassSet,
    file: &ClassFile,
    lacking: &[bool],
    index: u16,
) -> bool
    requires { lacking.now ≡ lacking_texts set.now file.now.pool }
    ensures { result ≡ unresolved_instruction set.now (file_of file.now) (instrs.New index) }
{
    is_class_unresolved(set, file, lacking, index) || is_uninstantiable(set, file, index)
}

/// Whether the class of an index is not found where it is a catch type.
pub(crate) fn is_catch_type_missing(set: &ClassSet, file: &ClassFile, index: u16) -> bool
    ensures { result ≡ option_map_or (is_missing_catch set.now) (class_name_at file.now.pool index) false }
{
    match file.class_name(index) {
        Some(name) => !is_array_class(name) && is_missing(set, name),
        None => false,
    }
}

/// Whether the class of a member is not found, or one of its descriptor.
fn member_lacks_class(
    set: &ClassSet,
    file: &ClassFile,
    lacking: &[bool],
    class: u16,
    name_and_type: u16,
) -> bool
    requires { lacking.now ≡ lacking_texts set.now file.now.pool }
    ensures { result ≡ list_any (is_missing set.now) (member_classes (reference_at file.now.pool class name_and_type)) }
{
    match file.class_name(class) {
        Some(name) => {
            file.name_and_type(name_and_type).is_some()
                && (is_missing(set, name)
                    || descriptor_lacks_class(set, file, lacking, name_and_type))
        }
        None => false,
    }
}

/// Whether the class of the field of a Fieldref is not found, or one of its descriptor.
fn field_lacks_class(set: &ClassSet, file: &ClassFile, lacking: &[bool], index: u16) -> bool
    requires { lacking.now ≡ lacking_texts set.now file.now.pool }
    ensures { result ≡ list_any (is_missing set.now) (member_classes (field_at file.now.pool index)) }
{
    match file.constant(index) {
        Some(
            Constant::Field {
                class,
                name_and_type,
            },
        ) => member_lacks_class(set, file, lacking, *class, *name_and_type),
        _ => false,
    }
}

/// Whether the class of the method of a Methodref is not found, or that of an array's elements, or one of its
/// descriptor.
fn method_lacks_class(set: &ClassSet, file: &ClassFile, lacking: &[bool], index: u16) -> bool
    requires { lacking.now ≡ lacking_texts set.now file.now.pool }
    ensures { result ≡ list_any (is_missing set.now) (called_classes (method_at file.now.pool index)) }
{
    match file.constant(index) {
        Some(
            Constant::Method {
                class,
                name_and_type,
            },
        ) => called_lacks_class(set, file, lacking, *class, *name_and_type),
        _ => false,
    }
}

/// Whether the interface of the method of an InterfaceMethodref is not found, or a class of its descriptor.
fn interface_method_lacks_class(
    set: &ClassSet,
    file: &ClassFile,
    lacking: &[bool],
    index: u16,
) -> bool
    requires { lacking.now ≡ lacking_texts set.now file.now.pool }
    ensures { result ≡ list_any (is_missing set.now) (member_classes (interface_method_at file.now.pool index)) }
{
    match file.constant(index) {
        Some(
            Constant::InterfaceMethod {
                class,
                name_and_type,
            },
        ) => member_lacks_class(set, file, lacking, *class, *name_and_type),
        _ => false,
    }
}

/// Whether a class is not found, or that of an array's elements, or one of a descriptor.
fn class_or_descriptor_lacks(
    set: &ClassSet,
    file: &ClassFile,
    lacking: &[bool],
    class: u16,
    name_and_type: u16,
) -> bool
    requires { lacking.now ≡ lacking_texts set.now file.now.pool }
    ensures { result ≡ (unresolved_instruction set.now (file_of file.now) (instrs.CheckCast class)
        || descriptor_lacks_class set.now (name_and_type_at file.now.pool name_and_type)) }
{
    is_class_unresolved(set, file, lacking, class)
        || descriptor_lacks_class(set, file, lacking, name_and_type)
}

/// Whether the class of a member is not found, or that of an array's elements, or one of its descriptor.
fn called_lacks_class(
    set: &ClassSet,
    file: &ClassFile,
    lacking: &[bool],
    class: u16,
    name_and_type: u16,
) -> bool
    requires { lacking.now ≡ lacking_texts set.now file.now.pool }
    ensures { result ≡ list_any (is_missing set.now) (called_classes (reference_at file.now.pool class name_and_type)) }
{
    file.class_name(class).is_some()
        && file.name_and_type(name_and_type).is_some()
        && class_or_descriptor_lacks(set, file, lacking, class, name_and_type)
}

fn wants_static_field(access: FieldAccess) -> bool
    ensures { result ≡ wants_static_field access }
{
    match access {
        FieldAccess::GetStatic | FieldAccess::PutStatic => true,
        FieldAccess::GetField | FieldAccess::PutField => false,
    }
}

/// Whether the field that is found at a place is System.out or System.err.
fn is_system_stream(set: &ClassSet, field: Reference<'_>, place: MemberPlace) -> bool
    ensures { result ≡ is_system_stream (member_in set.now (reference_of field.entry) place) }
{
    is_field(set, field, place, SYSTEM_OUT) || is_field(set, field, place, SYSTEM_ERR)
}

/// Whether an instruction puts a stream of System at a place.
fn puts_stream(
    set: &ClassSet,
    access: FieldAccess,
    field: Reference<'_>,
    place: MemberPlace,
) -> bool
    ensures { result ≡ (is_put_static access && is_system_stream (member_in set.now (reference_of field.entry) place)) }
{
    match access {
        FieldAccess::PutStatic => is_system_stream(set, field, place),
        FieldAccess::GetStatic | FieldAccess::GetField | FieldAccess::PutField => false,
    }
}

/// Whether an instruction may not access the field that it finds at a place: it is static where an instance field is
/// wanted or the reverse, it is put and is System.out or System.err, or it is hidden.
fn fails_access(
    set: &ClassSet,
    access: FieldAccess,
    field: Reference<'_>,
    place: MemberPlace,
) -> bool
    requires differ { IsFalse (stands set.now DuplicateClass) }
    requires at { IsFieldAt set.now (reference_of field) place }
    ensures { result ≡ fails_access set.now access (member_in set.now (reference_of field.entry) place) }
{
    if is_field_of_other_kind(set, field, place, wants_static_field(access)) {
        return true;
    }
    puts_stream(set, access, field, place) || is_hidden_field(set, field, place)
}

/// Whether a call may not have the method that it finds at a place: it is hidden, or is static where an instance
/// method is wanted or the reverse.
fn fails_call(set: &ClassSet, method: Reference<'_>, place: MemberPlace, wants_static: bool) -> bool
    requires differ { IsFalse (stands set.now DuplicateClass) }
    requires at { IsMethodAt set.now (reference_of method) place }
    ensures { result ≡ fails_call set.now wants_static (member_in set.now (reference_of method.entry) place) }
{
    is_hidden_method(set, method, place)
        || is_method_of_other_kind(set, method, place, wants_static)
}

/// Whether the field of an index is not found, or not as an instruction wants it that accesses it.
pub(crate) fn is_field_unresolved(
    hierarchy: &Hierarchy,
    file: &ClassFile,
    lacking: &[bool],
    access: FieldAccess,
    index: u16,
) -> bool
    requires differ { IsFalse (stands hierarchy.now DuplicateClass) }
    requires lacking { lacking.now ≡ lacking_texts hierarchy.now file.now.pool }
    ensures { result ≡ unresolved_instruction hierarchy.now (file_of file.now) (instrs.Field access index) }
{
    let set = hierarchy.set();
    let Some(field) = file.field_reference(index) else {
        return false;
    };
    if field_lacks_class(set, file, lacking, index) {
        return true;
    }
    match hierarchy.find_field(field) {
        Some(place) => fails_access(set, access, field, place),
        None => true,
    }
}

/// Whether the method of a Methodref is not found, or not as a call wants it.
pub(crate) fn is_method_unresolved(
    hierarchy: &Hierarchy,
    file: &ClassFile,
    lacking: &[bool],
    invocation: Invocation,
    index: u16,
) -> bool
    requires differ { IsFalse (stands hierarchy.now DuplicateClass) }
    requires lacking { lacking.now ≡ lacking_texts hierarchy.now file.now.pool }
    ensures { result ≡ unresolved_instruction hierarchy.now (file_of file.now) (instrs.Invoke invocation index) }
{
    let set = hierarchy.set();
    let Some(method) = file.method_reference(index) else {
        return false;
    };
    if method_lacks_class(set, file, lacking, index) || set.is_interface(method.class) {
        return true;
    }
    let wants_static = matches!(invocation, Invocation::Static);
    match found_in_class(hierarchy, method) {
        Some(place) => fails_call(set, method, place, wants_static),
        None => true,
    }
}

/// Whether the method of an InterfaceMethodref is not found, or not as `invokeinterface` wants it.
pub(crate) fn is_interface_method_unresolved(
    hierarchy: &Hierarchy,
    file: &ClassFile,
    lacking: &[bool],
    index: u16,
) -> bool
    requires differ { IsFalse (stands hierarchy.now DuplicateClass) }
    requires lacking { lacking.now ≡ lacking_texts hierarchy.now file.now.pool }
    ensures { result ≡ unresolved_instruction hierarchy.now (file_of file.now) (instrs.InvokeInterface index 0 0) }
{
    let set = hierarchy.set();
    let Some(method) = file.interface_method_reference(index) else {
        return false;
    };
    if interface_method_lacks_class(set, file, lacking, index) || !set.is_interface(method.class) {
        return true;
    }
    match hierarchy.find_interface_method(method) {
        Some(place) => fails_call(set, method, place, false),
        None => true,
    }
}
