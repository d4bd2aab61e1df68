//! All conditions on a class file.

ghost use Rattle.std.specs.Prelude.{◌≡◌, IfOk, IfErr};
ghost use Rattle.model.specs.Spells.{IsWhole};
ghost use Rattle.class_tree.specs.View.{file_of};
ghost use Rattle.class_tree.specs.Conditions.{StandsOrStops};

use crate::attribute::check_attributes;
use crate::descriptor::check_descriptors;
use crate::duplicate::check_members_differ;
use crate::index::check_indices;
use crate::names::check_names;
use crate::place::first_field;
use crate::tree::ClassFile;
use constant_pool::Texts;
use constant_pool::reading::Stop;
use std::alloc::Global;

/// Checks the conditions on the tree of a file, one after the other, each over the whole file: `Index`, `Name`,
/// `Descriptor`, `Attribute` and `Duplicate`. Each text of the constant pool is looked at once.
pub fn check_conditions(alloc: Global, file: &ClassFile) -> Result<(), Stop>
    // What passes meets each condition.
    ensures met { IfOk result (λ _. IsWhole (file_of file.now)) }
    // A fault is answered only where the condition of its cause is not met.
    ensures stands { IfErr result (λ stop. StandsOrStops stop (file_of file.now)) }
{
    let texts = Texts::new(alloc, &file.pool)?;
    check_indices(&texts, file)?;
    check_names(&texts, file)?;
    check_descriptors(&texts, file)?;
    let fields = first_field(file);
    check_attributes(&texts, file, fields)?;
    check_members_differ(alloc, file, fields)
}
