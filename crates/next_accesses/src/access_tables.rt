//! What the instructions of linked class files are, which fields they name, and which methods their calls name and
//! select: what the accesses of a machine's threads are looked up in.
//!
//! # Proved
//!
//! - `AccessTables::instruction_at`: by the number of a method that has code, the instruction at an offset there, if
//!   one begins there (`IsInstructionAt`).
//! - `AccessTables::field_named`: the field that it names (`IsFieldNamed`).

ghost use Rattle.std.specs.Prelude.{◌≡◌, IfOk};
ghost use Rattle.method_tables.specs.method_links.Named.{AreNamedOf};
ghost use Rattle.method_tables.specs.method_links.Numbers.{AreNumbersOf};
ghost use Rattle.method_tables.specs.method_links.Selected.{AreSelectionsOf};
ghost use Rattle.next_accesses.specs.access_tables.Tables.{IsFieldNamed, IsInstructionAt};

use code_places::method_of;
use field_names::named_fields::{NamedField, field_at};
use linker::Linked;
use method_tables::method_links::{MethodNumbers, NamedMethods, SelectedMethods};
use model::Instr;
use opcodes::decode_at;
use std::alloc::{AllocError, Global};

/// Linked class files, which methods the numbers of their program stand for, which of them entries of constant pools
/// name, and which of them classes select.
#[derive(Drop)]
pub struct AccessTables<'a> {
    pub(crate) linked: &'a Linked,
    pub(crate) numbers: MethodNumbers,
    pub(crate) named: NamedMethods,
    pub(crate) selected: SelectedMethods,
    ghost numbered: { AreNumbersOf linked.now numbers },
    ghost are_named: { AreNamedOf linked.now named },
    ghost are_selected: { AreSelectionsOf linked.now selected },
}

impl<'a> AccessTables<'a> {
    /// Of linked class files. The only error is a want of memory.
    pub fn new(alloc: Global, linked: &'a Linked) -> Result<AccessTables<'a>, AllocError>
        ensures { IfOk result (λ tables. tables.linked.now ≡ linked.entry.now) }
    {
        let numbers = MethodNumbers::new(alloc, linked.set())?;
        let named = NamedMethods::new(alloc, linked.hierarchy(), &numbers)?;
        let selected = SelectedMethods::new(alloc, linked.set(), &numbers)?;
        Ok(AccessTables {
            linked,
            numbers,
            named,
            selected,
        })
    }

    /// The instruction at an offset of a method, by the method's number.
    pub(crate) fn instruction_at(&self, method: u32, offset: u16) -> Option<Instr>
        ensures { IsInstructionAt self.now.linked.now method offset result }
    {
        let Some(method) = method_of(self.linked, &self.numbers, method as usize) else {
            return None;
        };
        decode_at(&method.code().code, usize::from(offset))
    }

    /// The field that an instruction at an offset of a method names, if it names one.
    pub(crate) fn field_named(
        &self,
        method: u32,
        offset: u16,
        instruction: Instr,
    ) -> Option<NamedField>
        ensures { IsFieldNamed self.now.linked.now method offset instruction result }
    {
        match instruction {
            Instr::Field { .. } => field_at(self.linked, &self.numbers, method, offset),
            _ => None,
        }
    }
}
