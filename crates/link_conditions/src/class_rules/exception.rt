//! The catch types of exception tables (JVMS 4.7.3).

ghost use Rattle.std.specs.Prelude.{◌≡◌, position};
ghost use Rattle.model.specs.Classes.{code_in};
ghost use Rattle.model.specs.Hierarchy.{is_no_throwable};
ghost use Rattle.classfile.specs.View.{method_of, file_of};
ghost use Rattle.link_conditions.specs.class_rules.Rules.{entry_breaks_rule};
ghost use Rattle.link_conditions.specs.class_rules.Finding.{first_entry_in, FindsException};

use crate::class_rules::name::is_array_class;
use classfile::{ClassFile, Method};
use hierarchy::ClassSet;
use model::ExceptionEntry;

/// Whether a class is found and is neither Throwable nor below it, or is an array class.
fn is_no_throwable(set: &ClassSet, name: &[u8]) -> bool
    ensures { result ≡ is_no_throwable set.now name.now }
{
    if is_array_class(name) {
        return true;
    }
    match set.class_of(name) {
        Some(_) => !set.is_subclass(name, b"java/lang/Throwable"),
        None => false,
    }
}

/// Whether an exception entry catches what can't be thrown. One of catch type 0 catches any.
fn entry_breaks_rule(set: &ClassSet, file: &ClassFile, entry: ExceptionEntry) -> bool
    ensures { result ≡ entry_breaks_rule set.now (file_of file.now) entry }
{
    if entry.catch_type == 0 {
        return false;
    }
    match file.class_name(entry.catch_type) {
        Some(name) => is_no_throwable(set, name),
        None => false,
    }
}

/// The first of exception entries that catches what can't be thrown.
fn first_entry(set: &ClassSet, file: &ClassFile, entries: &[ExceptionEntry]) -> Option<usize>
    ensures { result ≡ position (entry_breaks_rule set.now (file_of file.now)) entries.now }
{
    entries
        .iter()
        .position(|entry| entry_breaks_rule(set, file, *entry))
}

/// The first exception entry of a method that catches what can't be thrown.
fn first_entry_of(set: &ClassSet, file: &ClassFile, method: &Method) -> Option<usize>
    ensures { result ≡ first_entry_in set.now (file_of file.now) (method_of method.now) }
{
    match method.code() {
        Some(code) => first_entry(set, file, &code.exceptions),
        None => None,
    }
}

/// The first exception entry that catches what can't be thrown: its method, and its place among the method's entries.
pub(crate) fn first_exception(set: &ClassSet, file: &ClassFile) -> Option<(usize, usize)>
    ensures { FindsException set.now (file_of file.now) result }
{
    for (place, method) in file.methods.iter().enumerate() {
        if let Some(entry) = first_entry_of(set, file, method) {
            return Some((place, entry));
        }
    }
    None
}
