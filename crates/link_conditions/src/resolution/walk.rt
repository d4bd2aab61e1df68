//! The walk over a class file.

ghost use Rattle.std.specs.Prelude.{◌≡◌, IfOk, IfSome, IsFalse, IsTrue, is_some};
ghost use Rattle.model.specs.Classes.{code_in};
ghost use Rattle.model.specs.Linkable.{stands, DuplicateClass};
ghost use Rattle.model.specs.Resolution.{is_unresolved};
ghost use Rattle.classfile.specs.View.{method_of, file_of};
ghost use Rattle.link_conditions.specs.resolution.Rows.{lacking_texts, Tells};
ghost use Rattle.link_conditions.specs.resolution.Unresolved.{stands_at, FindsInMethod, FindsInMethods};

use crate::resolution::class::{first_field, is_class_unresolved};
use crate::resolution::code::first_in_code;
use crate::resolution::descriptor::{lacking_texts, text_lacks_class};
use crate::resolution::place::{Spot, UnresolvedPlace};
use crate::resolution::table::{Row, entry_rows};
use classfile::{ClassFile, Method};
use hierarchy::Hierarchy;
use std::alloc::{AllocError, Global};

/// The first name in a method that is not found: in its descriptor, then in its code.
fn first_in_method(
    alloc: Global,
    hierarchy: &Hierarchy,
    file: &ClassFile,
    lacking: &[bool],
    rows: &[Row],
    method: &Method,
) -> Result<Option<Spot>, AllocError>
    requires lacking { lacking.now ≡ lacking_texts hierarchy.now file.now.pool }
    requires told { Tells hierarchy.now (file_of file.now) rows.now }
    ensures { IfOk result (FindsInMethod hierarchy.now (file_of file.now) (method_of method.now)) }
{
    if text_lacks_class(hierarchy.set(), file, lacking, method.descriptor) {
        return Ok(Some(Spot::Declaration));
    }
    match method.code() {
        Some(code) => first_in_code(alloc, hierarchy, file, rows, code),
        None => Ok(None),
    }
}

/// The first name in the methods that is not found.
fn first_in_methods(
    alloc: Global,
    hierarchy: &Hierarchy,
    file: &ClassFile,
    lacking: &[bool],
    rows: &[Row],
) -> Result<Option<UnresolvedPlace>, AllocError>
    requires lacking { lacking.now ≡ lacking_texts hierarchy.now file.now.pool }
    requires told { Tells hierarchy.now (file_of file.now) rows.now }
    ensures { IfOk result (FindsInMethods hierarchy.now (file_of file.now)) }
{
    for (place, method) in file.methods.iter().enumerate() {
        if let Some(spot) = first_in_method(alloc, hierarchy, file, lacking, rows, method)? {
            return Ok(Some(spot.in_method(place)));
        }
    }
    Ok(None)
}

/// The first place in a class file at which a class, a field or a method is named that is not found among the
/// classes, or not as it is wanted (JVMS 5.4.3, 6.5). `None` where all is found. `AllocError` for want of memory.
///
/// The superclass and the superinterfaces come first, then the fields, then the methods: of each its descriptor, then
/// its instructions, then its exception entries. Entries of the constant pool that none of these names are not asked
/// for.
pub fn first_unresolved(
    alloc: Global,
    hierarchy: &Hierarchy,
    file: &ClassFile,
) -> Result<Option<UnresolvedPlace>, AllocError>
    requires { IsFalse (stands hierarchy.now DuplicateClass) }
    ensures found { IfOk result (λ found. is_some found ≡ is_unresolved hierarchy.now (file_of file.now)) }
    ensures place { IfOk result (λ found.
        IfSome found (λ place. IsTrue (stands_at hierarchy.now (file_of file.now) place))) }
{
    let set = hierarchy.set();
    if is_class_unresolved(set, file) {
        return Ok(Some(UnresolvedPlace::Class));
    }
    let lacking = lacking_texts(alloc, set, file.pool.constants())?;
    if let Some(field) = first_field(set, file, &lacking) {
        return Ok(Some(UnresolvedPlace::Field { field }));
    }
    let rows = entry_rows(alloc, hierarchy, file, &lacking)?;
    first_in_methods(alloc, hierarchy, file, &lacking, &rows)
}
