//! Whether no two fields, and no two methods, have one name and one descriptor (JVMS 4.5, 4.6).

ghost use Rattle.std.specs.Prelude.{◌≡◌, ℕ, List, Bool, map, IfOk};
ghost use Rattle.constant_pool.specs.declared.reading.fault.Cause.TheVariants as causes;
ghost use Rattle.model.specs.Tree.{Entry};
ghost use Rattle.model.specs.Conditions.{name_and_descriptor_at, differ, fields_differ, methods_differ, members_differ};
ghost use Rattle.class_tree.specs.View.{file_of};
ghost use Rattle.class_tree.specs.Conditions.{ChecksOrStops};

use crate::spelled::Spelled;
use crate::tree::{ClassFile, Field, Method};
use constant_pool::FirstIndices;
use constant_pool::reading::{Cause, Malformed, Stop};
use std::alloc::Global;
use std::collections::HashSet;

/// A field or a method.
pub(crate) trait Member: Spelled + Sized {
    ghost name_index: { Self → ℕ };

    ghost descriptor_index: { Self → ℕ };

    /// The index of its name.
    fn name(&self) -> u16
        ensures { result ≡ name_index self.now };

    /// The index of its descriptor.
    fn descriptor(&self) -> u16
        ensures { result ≡ descriptor_index self.now };
}

impl Member for Field {
    ghost name_index = { λ f. f.name };

    ghost descriptor_index = { λ f. f.descriptor };

    fn name(&self) -> u16 {
        self.name
    }

    fn descriptor(&self) -> u16 {
        self.descriptor
    }
}

impl Member for Method {
    ghost name_index = { λ m. m.name };

    ghost descriptor_index = { λ m. m.descriptor };

    fn name(&self) -> u16 {
        self.name
    }

    fn descriptor(&self) -> u16 {
        self.descriptor
    }
}

/// The first indices that have the texts of a member's name and of its descriptor. Two members of one name and one
/// descriptor have the same.
#[derive(Clone, Copy, PartialEq, Eq, Hash)]
struct Firsts {
    name: usize,
    descriptor: usize,
}

/// Checks members, of which the first begins at the offset `at`, and gives the offset behind the last. The second of
/// two is at fault.
fn check_differ<T: Member>(
    alloc: Global,
    firsts: &FirstIndices<'_>,
    members: &[T],
    at: usize,
) -> Result<usize, Stop>
    ensures { ChecksOrStops causes.Duplicate
        result (differ (map (λ m.
        name_and_descriptor_at firsts.now (T.name_index m) (T.descriptor_index m)) members.now)) }
{
    let mut seen = HashSet::new(alloc);
    let mut at = at;
    'members: for member in members {
        let key = Firsts {
            name: firsts.first(member.name()),
            descriptor: firsts.first(member.descriptor()),
        };
        if !seen.insert(key)? {
            return Err(Stop::Fault(Malformed {
                cause: Cause::Duplicate,
                offset: at,
            }));
        }
        at = at.saturating_add(member.length());
    }
    Ok(at)
}

fn check_fields(
    alloc: Global,
    firsts: &FirstIndices<'_>,
    file: &ClassFile,
    at: usize,
) -> Result<usize, Stop>
    requires { firsts.now ≡ file.now.pool }
    ensures { ChecksOrStops causes.Duplicate result (fields_differ (file_of file.now)) }
{
    check_differ::<Field>(alloc, firsts, &file.fields, at)
}

fn check_methods(
    alloc: Global,
    firsts: &FirstIndices<'_>,
    file: &ClassFile,
    at: usize,
) -> Result<usize, Stop>
    requires { firsts.now ≡ file.now.pool }
    ensures { ChecksOrStops causes.Duplicate result (methods_differ (file_of file.now)) }
{
    check_differ::<Method>(alloc, firsts, &file.methods, at)
}

/// The members of a file, of which the first begins at the offset `at`.
pub(crate) fn check_members_differ(alloc: Global, file: &ClassFile, at: usize) -> Result<(), Stop>
    ensures { ChecksOrStops causes.Duplicate result (members_differ (file_of file.now)) }
{
    let firsts = FirstIndices::new(alloc, &file.pool)?;
    let behind = check_fields(alloc, &firsts, file, at)?;
    check_methods(alloc, &firsts, file, behind.saturating_add(2))?;
    Ok(())
}
