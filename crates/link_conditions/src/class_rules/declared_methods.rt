//! The methods that the classes of a set declare, and which of them a method may redeclare as it must not.

ghost use Rattle.std.specs.Prelude.{◌≡◌, ◌==◌, true, false, not, IfOk};
ghost use Rattle.std.specs.Option.{option_map_or};
ghost use Rattle.std.specs.List.{list_any};
ghost use Rattle.classfile.specs.View.{file_of, method_of};
ghost use Rattle.link_conditions.specs.class_rules.Declared.{flags_at, flags_of, is_told_by, is_told, has_untold, TellsMethods, AreDeclaredIn};

use crate::class_rules::method_table::{MethodTable, flags_at, flags_of, number_of, table_of};
use classfile::{ClassFile, Method};
use hierarchy::ClassSet;
use std::alloc::{AllocError, Global};

/// The methods that the classes of a set declare, by which a method is sought in many classes at once.
#[derive(Drop)]
pub struct DeclaredMethods {
    pub(crate) table: MethodTable,
    /// Whether the table tells of each method. It does unless a class has two of one name and descriptor.
    pub(crate) is_whole: bool,
}

/// Whether some method of a number has these access flags.
fn has_flags(table: &MethodTable, number: usize, flags: u16) -> bool
    ensures { result ≡ list_any (λ f. f == flags) (flags_of table.now number) }
{
    flags_of(table, number).iter().any(|other| *other == flags)
}

/// Whether the method of a number that the class at a place declares has these access flags.
fn is_declared_with(table: &MethodTable, class: usize, number: usize, flags: u16) -> bool
    ensures { result ≡ option_map_or (λ f. f == flags) (flags_at table.now class number) false }
{
    match flags_at(table, class, number) {
        Some(other) => other == flags,
        None => false,
    }
}

/// Whether the table tells of the method of a number that the class at a place declares.
fn is_told_by(table: &MethodTable, class: usize, method: &Method, number: usize) -> bool
    ensures { result ≡ is_told_by table.now class (method_of method.now) number }
{
    has_flags(table, number, method.flags) && is_declared_with(table, class, number, method.flags)
}

/// Whether the table tells of a method of the class at a place.
fn is_told(table: &MethodTable, class: usize, file: &ClassFile, method: &Method) -> bool
    ensures { result ≡ is_told table.now class (file_of file.now) (method_of method.now) }
{
    let name = file.pool.text(method.name);
    let descriptor = file.pool.text(method.descriptor);
    match number_of(table, name, descriptor) {
        Some(number) => is_told_by(table, class, method, number),
        None => false,
    }
}

fn has_untold_among(table: &MethodTable, class: usize, file: &ClassFile, methods: &[Method]) -> bool
    ensures { result ≡ list_any (λ m. not (is_told table.now class (file_of file.now) (method_of m))) methods.now }
{
    methods
        .iter()
        .any(|method| !is_told(table, class, file, method))
}

/// Whether the table doesn't tell of some method of the class at a place.
fn has_untold(table: &MethodTable, class: usize, file: &ClassFile) -> bool
    ensures { result ≡ has_untold table.now class (file_of file.now) }
{
    has_untold_among(table, class, file, &file.methods)
}

/// Whether the table tells of each method of each class.
fn is_whole(table: &MethodTable, set: &ClassSet) -> bool
    ensures { result ≡ true → TellsMethods set.now table.now }
{
    for class in 0..set.count() {
        let Some(file) = set.class_at(class) else {
            return false;
        };
        if has_untold(table, class, file) {
            return false;
        }
    }
    true
}

impl DeclaredMethods {
    /// The declared methods of a set. This alone takes memory.
    pub fn of_set(alloc: Global, set: &ClassSet) -> Result<DeclaredMethods, AllocError>
        ensures { IfOk result (AreDeclaredIn set.now) }
    {
        let table = table_of(alloc, set)?;
        let is_whole = is_whole(&table, set);
        Ok(DeclaredMethods { table, is_whole })
    }
}
