//! Tables of the methods that classes declare. What a table says is checked where it is made.

ghost use Rattle.std.specs.Prelude.{◌≡◌};
ghost use Rattle.link_conditions.specs.class_rules.Declared.{number_of, flags_at, flags_of};

use crate::limits_of_linking::TextSet;
use classfile::{ClassFile, Method};
use hierarchy::ClassSet;
use indexmap::IndexMap;
use std::alloc::{AllocError, Global};

/// The numbers of the name and of the descriptor of a method.
#[derive(Clone, Copy, PartialEq, Eq, Hash)]
pub(crate) struct Signature {
    pub(crate) name: usize,
    pub(crate) descriptor: usize,
}

/// A method, by the place of the class that declares it, and by the number of its name with its descriptor.
#[derive(Clone, Copy, PartialEq, Eq, Hash)]
pub(crate) struct Declaration {
    pub(crate) class: usize,
    pub(crate) signature: usize,
}

/// The methods that classes declare, by the numbers of their names with their descriptors.
#[derive(Drop)]
pub(crate) struct MethodTable {
    /// Names and descriptors, each once.
    pub(crate) texts: TextSet,
    /// The number of each name with a descriptor.
    pub(crate) signatures: IndexMap<Signature, usize>,
    /// The access flags of all methods of a number, each once.
    pub(crate) flags: Vec<Vec<u16>>,
    /// The access flags of each method.
    pub(crate) declared: IndexMap<Declaration, u16>,
}

// ---- look-ups

/// The number of a name with a descriptor.
pub(crate) fn number_of(table: &MethodTable, name: &[u8], descriptor: &[u8]) -> Option<usize>
    ensures { result ≡ number_of table.now name.now descriptor.now }
{
    let Some(name) = table.texts.number_of(name) else {
        return None;
    };
    let Some(descriptor) = table.texts.number_of(descriptor) else {
        return None;
    };
    table
        .signatures
        .get(&Signature { name, descriptor })
        .copied()
}

/// The access flags with which the class at a place declares the method of a number.
pub(crate) fn flags_at(table: &MethodTable, class: usize, signature: usize) -> Option<u16>
    ensures { result ≡ flags_at table.now class signature }
{
    table
        .declared
        .get(&Declaration { class, signature })
        .copied()
}

/// The access flags with which any class declares the method of a number.
pub(crate) fn flags_of(table: &MethodTable, signature: usize) -> &[u16]
    ensures { result.now ≡ flags_of table.now signature }
{
    match table.flags.get(signature) {
        Some(row) => row.as_slice(),
        None => &[],
    }
}

// ---- how a table is made

impl MethodTable {
    fn new(alloc: Global) -> MethodTable {
        MethodTable {
            texts: TextSet::new(alloc),
            signatures: IndexMap::new(alloc),
            flags: Vec::new(alloc),
            declared: IndexMap::new(alloc),
        }
    }

    /// The number of a text, which is added unless it is there.
    fn text(&mut self, alloc: Global, text: &[u8]) -> Result<usize, AllocError> {
        self.texts.add(alloc, text)?;
        Ok(self.texts.number_of(text).unwrap_or(0))
    }

    /// The number of a name with a descriptor, which is added unless it is there.
    fn signature(&mut self, alloc: Global, signature: Signature) -> Result<usize, AllocError> {
        if let Some(number) = self.signatures.get(&signature).copied() {
            return Ok(number);
        }
        let number = self.flags.len();
        self.flags.push(Vec::new(alloc))?;
        let Ok(_earlier) = self.signatures.insert(signature, number) else {
            return Err(AllocError);
        };
        Ok(number)
    }

    /// Adds access flags of a method of a number, unless they are there.
    fn add_flags(&mut self, signature: usize, flags: u16) -> Result<(), AllocError> {
        if let Some(row) = self.flags.get_mut(signature) {
            if !row.contains(&flags) {
                row.push(flags)?;
            }
        }
        Ok(())
    }

    /// Adds a method of the class at a place.
    fn add(
        &mut self,
        alloc: Global,
        class: usize,
        file: &ClassFile,
        method: &Method,
    ) -> Result<(), AllocError> {
        let name = self.text(alloc, file.pool.text(method.name))?;
        let descriptor = self.text(alloc, file.pool.text(method.descriptor))?;
        let signature = self.signature(alloc, Signature { name, descriptor })?;
        self.add_flags(signature, method.flags)?;
        let Ok(_earlier) = self
            .declared
            .insert(Declaration { class, signature }, method.flags)
        else {
            return Err(AllocError);
        };
        Ok(())
    }
}

/// Adds the methods of the class at a place.
fn add_methods(
    alloc: Global,
    table: &mut MethodTable,
    class: usize,
    file: &ClassFile,
) -> Result<(), AllocError> {
    for method in &file.methods {
        table.add(alloc, class, file, method)?;
    }
    Ok(())
}

/// The methods of the classes of a set. Nothing is proved of what it tells.
pub(crate) fn table_of(alloc: Global, set: &ClassSet) -> Result<MethodTable, AllocError> {
    let mut table = MethodTable::new(alloc);
    for class in 0..set.count() {
        if let Some(file) = set.class_at(class) {
            add_methods(alloc, &mut table, class, file)?;
        }
    }
    Ok(table)
}
