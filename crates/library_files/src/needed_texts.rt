//! The texts of a constant pool that linking takes for names of classes, and for descriptors with such.

ghost use Rattle.std.specs.Prelude.{◌≡◌, ◌⊎◌, ℕ, List, OnOk, Some, true, slice_get};
ghost use Rattle.std.specs.List.{flat_map};
ghost use Rattle.std.specs.Option.{option_to_list};
ghost use Rattle.model.specs.Tree.{Entry};
ghost use Rattle.model.specs.Pool.{utf8_at};
ghost use Rattle.model.specs.Names.{Name};
ghost use Rattle.model.specs.DescriptorParts.{classes_in};
ghost use Rattle.library_files.specs.NeededTexts.{Adds, IsMarked, IsNeededBy, is_marked};

use std::alloc::{AllocError, Global};

/// Texts of a constant pool, marked by their indices.
#[derive(Drop)]
pub(crate) struct NeededTexts {
    /// Names of classes.
    pub(crate) names: Vec<bool>,
    /// Descriptors of fields or methods, and array classes.
    pub(crate) descriptors: Vec<bool>,
}

/// Marks an index.
fn mark(marks: &mut Vec<bool>, index: u16) -> Result<(), AllocError>
    ensures kept { (k : ℕ) → IsMarked marks.old.items k → IsMarked marks.new.items k }
    ensures marked { OnOk result (IsMarked marks.new.items index) }
    ensures only { (k : ℕ) → IsMarked marks.new.items k → IsMarked marks.old.items k ⊎ (k ≡ index) }
{
    let index = index as usize;
    if marks.len() <= index {
        marks.resize(index + 1, false)?;
    }
    marks[index] = true;
    Ok(())
}

/// Whether an index is marked.
pub(crate) fn is_marked(marks: &[bool], index: usize) -> bool
    ensures { result ≡ is_marked marks.now index }
{
    marks.get(index).copied().unwrap_or(false)
}

impl NeededTexts {
    pub(crate) fn new(alloc: Global) -> NeededTexts
        ensures { (pool : List Entry) (name : Name) → IsNeededBy pool result name → ⊥ }
    {
        NeededTexts {
            names: Vec::new(alloc),
            descriptors: Vec::new(alloc),
        }
    }

    /// Needs the class whose name stands at an index.
    pub(crate) fn need_name(&mut self, index: u16) -> Result<(), AllocError>
        ensures { OnOk result ((pool : List Entry) → Adds pool self.old self.new (option_to_list (utf8_at pool index))) }
    {
        mark(&mut self.names, index)
    }

    /// Needs the classes of the descriptor at an index.
    pub(crate) fn need_descriptor(&mut self, index: u16) -> Result<(), AllocError>
        ensures { OnOk result ((pool : List Entry)
            → Adds pool self.old self.new (flat_map classes_in (option_to_list (utf8_at pool index)))) }
    {
        mark(&mut self.descriptors, index)
    }
}
