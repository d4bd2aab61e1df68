//! What stands above a class, and its fields.

ghost use Rattle.std.specs.Prelude.{◌≡◌, OnOk};
ghost use Rattle.classfile.specs.View.{field_of, file_of};
ghost use Rattle.link_conditions.specs.resolution.Unresolved.{class_stands};
ghost use Rattle.advice.specs.Told.{Keeps};
ghost use Rattle.advice.specs.Wrong.{is_field_wrong, is_wrong_at};
ghost use Rattle.advice.specs.Telling.{Tells, TellsEach, TellsFile};
ghost use Rattle.advice.specs.declared.told.ToldPlace.TheVariants as places;

use crate::facts::Facts;
use crate::told::{Told, ToldPlace, push_told};
use crate::words::class::{say_field, say_missing_class};
use crate::words::instruction::{is_enum, say_enum};
use crate::words::place::{say_class_place, say_place};
use crate::words::{Line, lacking_name};
use classfile::source_lines::LineTable;
use classfile::{Field, Method, class_name};
use std::alloc::{AllocError, Global};

/// A class file that is walked over: the name of its file as it was given, its number, and what can be asked of it.
#[derive(Drop)]
pub(crate) struct Site<'a> {
    pub(crate) alloc: Global,
    pub(crate) given: &'a str,
    pub(crate) number: usize,
    pub(crate) facts: Facts<'a>,
}

impl Site<'_> {
    /// The lines of a method's code.
    pub(crate) fn lines_of(&self, method: &Method) -> Result<LineTable, AllocError> {
        match method.code() {
            Some(code) => LineTable::of_code(self.alloc, self.facts.file(), code),
            None => Ok(LineTable::empty(self.alloc)),
        }
    }

    /// The words that the class is an enum, which is told of its line.
    fn enum_words(&self) -> Result<Vec<u8>, AllocError> {
        let file = self.facts.file();
        let mut line = Line::new(self.alloc);
        match file.methods.first() {
            Some(method) => {
                let lines = self.lines_of(method)?;
                let place = ToldPlace::Method { method: 0 };
                say_place(&mut line, self.given, file, method, &lines, place)?;
            }
            None => say_class_place(&mut line, self.given, file)?,
        }
        say_enum(&mut line, class_name(file))?;
        Ok(line.into_bytes())
    }

    /// The class above the class that is not found, of those in their order: the superclass, and the superinterfaces.
    fn lacking_above(&self, place: usize) -> Option<&[u8]> {
        let file = self.facts.file();
        let index = match place.checked_sub(1) {
            None => file.super_class,
            Some(number) => file.interfaces.get(number).copied()?,
        };
        lacking_name(self.facts.hierarchy().set(), file.class_name(index)?)
    }

    /// The place of the first class above the class that is not found.
    fn first_above(&self) -> usize {
        for place in 0..self.facts.file().interfaces.len() {
            if self.lacking_above(place).is_some() {
                return place;
            }
        }
        self.facts.file().interfaces.len()
    }

    /// Which class above the class is not found, by its place among them.
    fn above_words(&self, place: usize) -> Result<Vec<u8>, AllocError> {
        let file = self.facts.file();
        let set = self.facts.hierarchy().set();
        if place == 0 && is_enum(set, class_name(file)) {
            return self.enum_words();
        }
        let mut line = Line::new(self.alloc);
        say_class_place(&mut line, self.given, file)?;
        say_missing_class(&mut line, self.lacking_above(place).unwrap_or(b""))?;
        Ok(line.into_bytes())
    }

    /// What is wrong with a field.
    fn field_words(&self, field: &Field) -> Result<Vec<u8>, AllocError> {
        let file = self.facts.file();
        let mut line = Line::new(self.alloc);
        say_class_place(&mut line, self.given, file)?;
        say_field(&mut line, self.facts.hierarchy().set(), file, field)?;
        Ok(line.into_bytes())
    }

    /// Tells the class at a place above the class, where it is not found.
    fn push_lacking(&self, place: usize, told: &mut Vec<Told>) -> Result<(), AllocError>
        ensures { OnOk result (Keeps told.old.items told.new.items) }
    {
        if self.lacking_above(place).is_none() {
            return Ok(());
        }
        let words = self.above_words(place)?;
        push_told(told, self.number, ToldPlace::Class, words)
    }

    /// Tells the classes above the class that are not found, behind the place of one.
    fn push_above(&self, first: usize, told: &mut Vec<Told>) -> Result<(), AllocError>
        ensures { OnOk result (Keeps told.old.items told.new.items) }
    {
        for place in first..self.facts.file().interfaces.len() {
            self.push_lacking(place.saturating_add(1), told)?;
        }
        Ok(())
    }

    /// Tells what stands above the class, where it is not found.
    fn push_class(&self, told: &mut Vec<Told>) -> Result<(), AllocError>
        ensures { OnOk result (Tells told.old.items told.new.items self.now.number places.Class
            (class_stands self.now.facts.0 self.now.facts.1)) }
    {
        if !self.facts.is_class_wrong() {
            return Ok(());
        }
        let first = self.first_above();
        let words = self.above_words(first)?;
        push_told(told, self.number, ToldPlace::Class, words)?;
        self.push_above(first, told)
    }

    /// Tells a field with something wrong.
    fn push_field(
        &self,
        number: usize,
        field: &Field,
        told: &mut Vec<Told>,
    ) -> Result<(), AllocError>
        ensures { OnOk result (Tells told.old.items told.new.items self.now.number (places.Field number)
            (is_field_wrong self.now.facts.0 self.now.facts.1 (field_of field.now))) }
    {
        if !self.facts.is_field_wrong(field) {
            return Ok(());
        }
        let words = self.field_words(field)?;
        push_told(told, self.number, ToldPlace::Field { field: number }, words)
    }

    /// Tells each field with something wrong.
    fn push_fields(&self, told: &mut Vec<Told>) -> Result<(), AllocError>
        ensures { OnOk result (TellsEach told.old.items told.new.items self.now.number (λ k. places.Field k)
            (λ k. is_wrong_at self.now.facts.0 self.now.facts.1 (places.Field k))) }
    {
        let file = self.facts.file();
        for (number, field) in file.fields.iter().enumerate() {
            self.push_field(number, field, told)?;
        }
        Ok(())
    }

    /// Tells each place of the class file at which something is wrong.
    pub(crate) fn push_all(&self, told: &mut Vec<Told>) -> Result<(), AllocError>
        ensures { OnOk result
            (TellsFile self.now.facts.0 self.now.facts.1 told.old.items told.new.items self.now.number) }
    {
        self.push_class(told)?;
        self.push_fields(told)?;
        self.push_methods(told)
    }
}
