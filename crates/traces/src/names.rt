//! Classes and methods by their names.

ghost use Rattle.std.specs.Prelude.{◌≡◌, ◌++◌, IfOk, OnOk};
ghost use Rattle.hierarchy.specs.Places.{name_at};
ghost use Rattle.linked_code.specs.Numbers.{IsMethodAt};
ghost use Rattle.listings.specs.printed_names.Printed.{printed};
ghost use Rattle.method_tables.specs.method_links.Numbers.{AreNumbersOf};
ghost use Rattle.traces.specs.Lines.{method_members, method_words};
ghost use Rattle.traces.specs.Methods.{IsPlaceOf, IsBodyOf, name_in};

use crate::json::push_text_member;
use hierarchy::{ClassSet, MemberPlace};
use linked_code::LinkedProgram;
use linker::Linked;
use listings::printed_names::push_printed;
use method_tables::method_links::MethodNumbers;
use std::alloc::{AllocError, Global};
use types::method_code::MethodCode;

/// Class files that are linked, the program that runs them, and which methods its numbers stand for.
#[derive(Drop)]
pub struct ProgramNames<'a> {
    pub(crate) linked: &'a Linked,
    pub(crate) program: &'a LinkedProgram,
    numbers: MethodNumbers,
    ghost numbered: { AreNumbersOf linked.now numbers },
}

/// The name of the method at a place.
fn method_name(set: &ClassSet, place: MemberPlace) -> &[u8]
    ensures { result.now ≡ name_in set.now place }
{
    match set.class_at(place.class) {
        Some(class) => match class.methods.get(place.member) {
            Some(method) => class.pool.text(method.name),
            None => b"",
        },
        None => b"",
    }
}

impl<'a> ProgramNames<'a> {
    /// Of linked class files and their program. The only error is a want of memory.
    pub fn new(
        alloc: Global,
        linked: &'a Linked,
        program: &'a LinkedProgram,
    ) -> Result<ProgramNames<'a>, AllocError>
        ensures { IfOk result (λ names. names.linked.now ≡ linked.entry.now) }
    {
        let numbers = MethodNumbers::new(alloc, linked.set())?;
        Ok(ProgramNames {
            linked,
            program,
            numbers,
        })
    }

    /// The name of a class, by its number, in the form of a class file: `java/lang/Object`.
    pub fn class_name(&self, class: u32) -> &[u8]
        ensures { result.now ≡ name_at self.now.linked.now class }
    {
        self.linked.set().name_at(class as usize)
    }

    /// Where the method of a number stands.
    fn place(&self, number: u32) -> MemberPlace
        ensures { IsPlaceOf self.now.linked.now number result }
    {
        match self.numbers.place(number as usize) {
            Some(found) => found,
            None => MemberPlace {
                class: 0,
                member: 0,
            },
        }
    }

    /// The method of a number, if it has code.
    pub(crate) fn method(&self, number: u32) -> Option<MethodCode<'_>>
        ensures { IsBodyOf self.now.linked.now number result }
    {
        let place = self.place(number);
        MethodCode::new(self.linked.hierarchy(), place.class, place.member)
    }

    /// Writes the name of a method, by its number, behind that of its class and a dot: `Counter.run`.
    pub fn push_method(&self, text: &mut Vec<u8>, number: u32) -> Result<(), AllocError>
        ensures { (method : _) → IsMethodAt self.now.linked.now number method
            → OnOk result (text.new.items ≡ text.old.items ++ method_words method) }
    {
        let place = self.place(number);
        let set = self.linked.set();
        text.extend_from_slice(set.name_at(place.class))?;
        text.extend_from_slice(b".")?;
        text.extend_from_slice(method_name(set, place))?;
        Ok(())
    }

    /// Writes the name of a method as it stands in a line.
    pub(crate) fn push_printed_method(
        &self,
        text: &mut Vec<u8>,
        number: u32,
    ) -> Result<(), AllocError>
        ensures { (method : _) → IsMethodAt self.now.linked.now number method
            → OnOk result (text.new.items ≡ text.old.items ++ printed (method_words method)) }
    {
        let place = self.place(number);
        let set = self.linked.set();
        push_printed(text, set.name_at(place.class))?;
        push_printed(text, b".")?;
        push_printed(text, method_name(set, place))
    }

    /// Writes class and method as members of an object of JSON.
    pub(crate) fn push_method_members(
        &self,
        text: &mut Vec<u8>,
        number: u32,
    ) -> Result<(), AllocError>
        ensures { (method : _) → IsMethodAt self.now.linked.now number method
            → OnOk result (text.new.items ≡ text.old.items ++ method_members method) }
    {
        let place = self.place(number);
        let set = self.linked.set();
        push_text_member(text, "class", set.name_at(place.class))?;
        push_text_member(text, "method", method_name(set, place))
    }
}
