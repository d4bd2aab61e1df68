//! Which methods an invokespecial may not name (JVMS 4.9.1): those of a class that is neither the file's own nor
//! above it.

ghost use Rattle.std.specs.Prelude.{◌≡◌, false, IfOk};
ghost use Rattle.std.specs.List.{slice_index_or};
ghost use Rattle.constant_pool.specs.View.{entry_of};
ghost use Rattle.classfile.specs.View.{file_of};
ghost use Rattle.model.specs.Classes.{Program};
ghost use Rattle.classfile.specs.profile.Faults.{TellsClassAside};
ghost use Rattle.linker.specs.Aside.{names_other_class, other_classes, names_method_aside, methods_aside};

use classfile::{ClassFile, Constant, class_name};
use hierarchy::ClassSet;
use std::alloc::{AllocError, Global};

/// Whether an entry is a Class of another class than the file's own and those above it.
fn names_other_class(set: &ClassSet, file: &ClassFile, constant: &Constant) -> bool
    ensures { result ≡ names_other_class set.now (file_of file.now) (entry_of constant.now) }
{
    let Constant::Class { name } = constant else {
        return false;
    };
    match file.utf8(*name) {
        Some(name) => !set.is_subclass(class_name(file), name),
        None => false,
    }
}

/// Whether an entry is a Class of another class than the file's own and those above it, for each by its index.
fn other_classes(alloc: Global, set: &ClassSet, file: &ClassFile) -> Result<Vec<bool>, AllocError>
    ensures { IfOk result (λ rows. rows.items ≡ other_classes set.now (file_of file.now)) }
{
    let mut rows = Vec::new(alloc);
    rows.push(false)?;
    let constants = file.pool.constants();
    for constant in constants {
        rows.push(names_other_class(set, file, constant))?;
    }
    Ok(rows)
}

/// What the row of an index says, and false past the rows.
fn row(rows: &[bool], index: u16) -> bool
    ensures { result ≡ slice_index_or rows.now index false }
{
    rows.get(index as usize).copied().unwrap_or(false)
}

/// Whether an entry is a Methodref of such a class, and not to a constructor.
fn names_method_aside(file: &ClassFile, others: &[bool], constant: &Constant) -> bool
    ensures { (files : Program) → others.now ≡ other_classes files (file_of file.now)
        → result ≡ names_method_aside files (file_of file.now) (entry_of constant.now) }
{
    let Constant::Method {
        class,
        name_and_type,
    } = constant
    else {
        return false;
    };
    match file.name_and_type(*name_and_type) {
        Some(member) => member.name != b"<init>".as_slice() && row(others, *class),
        None => false,
    }
}

/// Whether an entry is a Methodref of such a class, and not to a constructor, for each by its index.
fn methods_aside(alloc: Global, file: &ClassFile, others: &[bool]) -> Result<Vec<bool>, AllocError>
    ensures { (files : Program) → others.now ≡ other_classes files (file_of file.now)
        → IfOk result (λ rows. rows.items ≡ methods_aside files (file_of file.now)) }
{
    let mut rows = Vec::new(alloc);
    rows.push(false)?;
    let constants = file.pool.constants();
    for constant in constants {
        rows.push(names_method_aside(file, others, constant))?;
    }
    Ok(rows)
}

/// For each index of a file's constant pool whether it is that of a Methodref to another method than a constructor,
/// of a class that is neither the file's own nor, by the names along the chain, a superclass of it. Asks once for
/// each Class of the pool.
pub(crate) fn class_aside(
    alloc: Global,
    set: &ClassSet,
    file: &ClassFile,
) -> Result<Vec<bool>, AllocError>
    ensures { IfOk result (λ rows. TellsClassAside set.now (file_of file.now) rows.items) }
{
    let others = other_classes(alloc, set, file)?;
    methods_aside(alloc, file, &others)
}
