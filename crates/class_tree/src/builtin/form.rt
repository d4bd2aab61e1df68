//! A class by its names, its members and what its code names.

ghost use Rattle.std.specs.Prelude.{◌≡◌, ◌+◌, ◌*◌, ◌<◌, ◌^◌, ◌++◌, [], ◌∷◌, length, map, IfOk, OnOk};
ghost use Rattle.model.specs.BuiltInForm.{texts_of, methods_from, classes_from, indices_from, with_code, methods_with_code, operands_end, tree_of};
ghost use Rattle.model.specs.Tree.{Utf8, Class};
ghost use Rattle.constant_pool.specs.View.{entry_of, entries_of};
ghost use Rattle.class_tree.specs.View.{field_of, method_of, file_of};
ghost use Rattle.class_tree.specs.builtin.View.{operand_of, operands_of, fields_in, coded_in, codes_in, members_of, class_of};

use crate::{ClassFile, Code, Constant, Field, Method, MethodAttribute, Pool};
use std::alloc::{AllocError, Global};

/// A method without code: its access flags, its name and its descriptor.
#[derive(Clone, Copy)]
pub(crate) struct Declared(
    pub(crate) u16,
    pub(crate) &'static [u8],
    pub(crate) &'static [u8],
);

/// An entry of the constant pool that code or a member names (JVMS 4.4), by what it has, in the order of the JVMS.
#[derive(Clone, Copy)]
pub(crate) enum Operand {
    Utf8(&'static [u8]),
    Integer(u32),
    Class(u16),
    String(u16),
    Field(u16, u16),
    Method(u16, u16),
    InterfaceMethod(u16, u16),
    NameAndType(u16, u16),
}

/// A field: its access flags, and the indices of its name and of its descriptor.
#[derive(Clone, Copy)]
pub(crate) struct Stored(pub(crate) u16, pub(crate) u16, pub(crate) u16);

/// A method with code: its access flags, the indices of its name and of its descriptor, how many operands and local
/// variables it has at most, and its code, which has no handlers.
#[derive(Clone, Copy)]
pub(crate) struct Coded(
    pub(crate) u16,
    pub(crate) u16,
    pub(crate) u16,
    pub(crate) u16,
    pub(crate) u16,
    pub(crate) &'static [u8],
);

/// A built-in class. Behind the names of classes its constant pool has what code and fields name, the text `Code` as
/// last where there is code; then the texts of the methods without code.
#[derive(Clone, Copy)]
pub(crate) struct BuiltInClass {
    pub(crate) flags: u16,
    pub(crate) name: &'static [u8],
    pub(crate) superclass: Option<&'static [u8]>,
    pub(crate) interfaces: &'static [&'static [u8]],
    pub(crate) operands: &'static [Operand],
    pub(crate) fields: &'static [Stored],
    pub(crate) coded: &'static [Coded],
    pub(crate) natives: &'static [Declared],
}

/// Appends a Utf8.
fn push_text(pool: &mut Vec<Constant>, alloc: Global, text: &[u8]) -> Result<(), AllocError>
    ensures { OnOk result (entries_of pool.new.items ≡ entries_of pool.old.items ++ Utf8 text.now ∷ []) }
{
    pool.push(Constant::Utf8(Vec::from_slice(alloc, text)?))?;
    Ok(())
}

/// Appends the name of a class, which has the index `at`, and the Class that has it.
fn push_class(
    pool: &mut Vec<Constant>,
    alloc: Global,
    name: &[u8],
    at: u16,
) -> Result<(), AllocError>
    ensures { OnOk result (entries_of pool.new.items ≡ entries_of pool.old.items ++ Utf8 name.now ∷ Class at ∷ []) }
{
    push_text(pool, alloc, name)?;
    pool.push(Constant::Class { name: at })?;
    Ok(())
}

/// Appends names of classes and their Classes, from the index `first` on.
fn push_classes(
    pool: &mut Vec<Constant>,
    alloc: Global,
    first: u16,
    classes: &[&[u8]],
) -> Result<(), AllocError>
    requires { first + 2 * length classes.now < 2 ^ 16 }
    ensures { OnOk result (entries_of pool.new.items
        ≡ entries_of pool.old.items ++ classes_from first (map (λ n. n.now) classes.now)) }
{
    let mut at = first;
    for class in classes {
        push_class(pool, alloc, class, at)?;
        at += 2;
    }
    Ok(())
}

/// The entry of a constant pool that an operand is.
fn constant(alloc: Global, operand: &Operand) -> Result<Constant, AllocError>
    ensures { IfOk result (λ c. entry_of c ≡ operand_of operand.now) }
{
    Ok(match *operand {
        Operand::Utf8(text) => Constant::Utf8(Vec::from_slice(alloc, text)?),
        Operand::Integer(bits) => Constant::Integer(bits),
        Operand::Class(name) => Constant::Class { name },
        Operand::String(text) => Constant::String { text },
        Operand::Field(class, name_and_type) => Constant::Field {
            class,
            name_and_type,
        },
        Operand::Method(class, name_and_type) => Constant::Method {
            class,
            name_and_type,
        },
        Operand::InterfaceMethod(class, name_and_type) => Constant::InterfaceMethod {
            class,
            name_and_type,
        },
        Operand::NameAndType(name, descriptor) => Constant::NameAndType { name, descriptor },
    })
}

/// Appends what code and members name.
fn push_operands(
    pool: &mut Vec<Constant>,
    alloc: Global,
    operands: &[Operand],
) -> Result<(), AllocError>
    ensures { OnOk result (entries_of pool.new.items ≡ entries_of pool.old.items ++ operands_of operands.now) }
{
    for operand in operands {
        pool.push(constant(alloc, operand)?)?;
    }
    Ok(())
}

/// Appends the texts of members.
fn push_texts(
    pool: &mut Vec<Constant>,
    alloc: Global,
    members: &[Declared],
) -> Result<(), AllocError>
    ensures { OnOk result (entries_of pool.new.items ≡ entries_of pool.old.items ++ texts_of (members_of members.now)) }
{
    for member in members {
        push_text(pool, alloc, member.1)?;
        push_text(pool, alloc, member.2)?;
    }
    Ok(())
}

/// The constant pool of a class: names of classes, what code and fields name, and the texts of methods without code.
fn pool_of(alloc: Global, class: &BuiltInClass) -> Result<Vec<Constant>, AllocError>
    requires { 5 + 2 * length class.now.interfaces.now + length class.now.operands.now
        + 2 * length class.now.natives.now < 2 ^ 16 }
    ensures { IfOk result (λ v. entries_of v.items ≡ (tree_of (class_of class.now)).pool) }
{
    let mut pool = Vec::new(alloc);
    push_class(&mut pool, alloc, class.name, 1)?;
    if let Some(superclass) = class.superclass {
        push_class(&mut pool, alloc, superclass, 3)?;
        push_classes(&mut pool, alloc, 5, class.interfaces)?;
    } else {
        push_classes(&mut pool, alloc, 3, class.interfaces)?;
    }
    push_operands(&mut pool, alloc, class.operands)?;
    push_texts(&mut pool, alloc, class.natives)?;
    Ok(pool)
}

/// The indices of interfaces, from 6 on.
fn interfaces_of(alloc: Global, interfaces: &[&[u8]]) -> Result<Vec<u16>, AllocError>
    requires { 6 + 2 * length interfaces.now < 2 ^ 16 }
    ensures { IfOk result (λ v. v.items ≡ indices_from 6 (map (λ n. n.now) interfaces.now)) }
{
    let mut indices = Vec::new(alloc);
    let mut at: u16 = 6;
    for _interface in interfaces {
        indices.push(at)?;
        at += 2;
    }
    Ok(indices)
}

/// The fields, which have no attributes.
fn fields_of(alloc: Global, stored: &[Stored]) -> Result<Vec<Field>, AllocError>
    ensures { IfOk result (λ v. map field_of v.items ≡ fields_in stored.now) }
{
    let mut fields = Vec::new(alloc);
    for field in stored {
        fields.push(Field {
            flags: field.0,
            name: field.1,
            descriptor: field.2,
            attributes: Vec::new(alloc),
        })?;
    }
    Ok(fields)
}

/// A method with code. The text `Code` has the index `name`.
fn method_with_code(alloc: Global, name: u16, coded: &Coded) -> Result<Method, AllocError>
    ensures { IfOk result (λ m. method_of m ≡ with_code name (coded_in coded.now)) }
{
    let code = Code {
        max_stack: coded.3,
        max_locals: coded.4,
        code: Vec::from_slice(alloc, coded.5)?,
        exceptions: Vec::new(alloc),
        attributes: Vec::new(alloc),
    };
    let code = Box::new(alloc, code)?;
    let mut attributes = Vec::new(alloc);
    attributes.push(MethodAttribute::Code { name, code })?;
    Ok(Method {
        flags: coded.0,
        name: coded.1,
        descriptor: coded.2,
        attributes,
    })
}

/// Appends methods with code. The text `Code` has the index `name`.
fn push_coded(
    methods: &mut Vec<Method>,
    alloc: Global,
    name: u16,
    coded: &[Coded],
) -> Result<(), AllocError>
    ensures { OnOk result (map method_of methods.new.items
        ≡ map method_of methods.old.items ++ methods_with_code name (codes_in coded.now)) }
{
    for method in coded {
        methods.push(method_with_code(alloc, name, method)?)?;
    }
    Ok(())
}

/// Appends the methods whose texts stand in the pool from an index on.
fn push_methods(
    methods: &mut Vec<Method>,
    alloc: Global,
    first: u16,
    members: &[Declared],
) -> Result<(), AllocError>
    requires { first + 2 * length members.now < 2 ^ 16 }
    ensures { OnOk result (map method_of methods.new.items
        ≡ map method_of methods.old.items ++ methods_from first (members_of members.now)) }
{
    let mut at = first;
    for member in members {
        methods.push(Method {
            flags: member.0,
            name: at,
            descriptor: at + 1,
            attributes: Vec::new(alloc),
        })?;
        at += 2;
    }
    Ok(())
}

/// How many entries the constant pool has before the texts of methods without code.
fn operands_end(class: &BuiltInClass) -> u16
    requires { 5 + 2 * length class.now.interfaces.now + length class.now.operands.now
        + 2 * length class.now.natives.now < 2 ^ 16 }
    ensures { result ≡ operands_end (class_of class.now) }
{
    let behind = 2 * class.interfaces.len() + class.operands.len();
    match class.superclass {
        Some(_) => (4 + behind) as u16,
        None => (2 + behind) as u16,
    }
}

/// The methods: those with code, then those without.
fn methods_of(alloc: Global, class: &BuiltInClass) -> Result<Vec<Method>, AllocError>
    requires { 5 + 2 * length class.now.interfaces.now + length class.now.operands.now
        + 2 * length class.now.natives.now < 2 ^ 16 }
    ensures { IfOk result (λ v. map method_of v.items ≡ (tree_of (class_of class.now)).methods) }
{
    let end = operands_end(class);
    let mut methods = Vec::new(alloc);
    push_coded(&mut methods, alloc, end, class.coded)?;
    push_methods(&mut methods, alloc, end + 1, class.natives)?;
    Ok(methods)
}

/// The index of the superclass, 0 where there is none.
fn super_index(class: &BuiltInClass) -> u16
    ensures { result ≡ (tree_of (class_of class.now)).super_class }
{
    match class.superclass {
        Some(_) => 4,
        None => 0,
    }
}

/// The class file of a built-in class.
pub(crate) fn class_file(alloc: Global, class: &BuiltInClass) -> Result<ClassFile, AllocError>
    requires { 6 + 2 * length class.now.interfaces.now + length class.now.operands.now
        + 2 * length class.now.natives.now < 2 ^ 16 }
    ensures { IfOk result (λ c. file_of c ≡ tree_of (class_of class.now)) }
{
    Ok(ClassFile {
        pool: Pool::new(pool_of(alloc, class)?),
        flags: class.flags,
        this_class: 2,
        super_class: super_index(class),
        interfaces: interfaces_of(alloc, class.interfaces)?,
        fields: fields_of(alloc, class.fields)?,
        methods: methods_of(alloc, class)?,
        attributes: Vec::new(alloc),
    })
}
