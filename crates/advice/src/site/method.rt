//! The methods of a class file.

ghost use Rattle.std.specs.Prelude.{◌≡◌, length, OnOk};
ghost use Rattle.classfile.specs.View.{method_of};
ghost use Rattle.advice.specs.Wrong.{is_declaration_wrong};
ghost use Rattle.advice.specs.Telling.{Tells, TellsMethod, TellsMethods};
ghost use Rattle.advice.specs.declared.told.ToldPlace.TheVariants as places;

use crate::site::code::CodeSite;
use crate::site::declarations::Site;
use crate::told::{Told, ToldPlace, push_told};
use crate::words::Line;
use crate::words::class::say_method;
use crate::words::place::say_place;
use classfile::Method;
use std::alloc::AllocError;

impl Site<'_> {
    /// What is wrong with the declaration of a method.
    fn declaration_words(&self, number: usize, method: &Method) -> Result<Vec<u8>, AllocError> {
        let file = self.facts.file();
        let lines = self.lines_of(method)?;
        let place = ToldPlace::Method { method: number };
        let mut line = Line::new(self.alloc);
        say_place(&mut line, self.given, file, method, &lines, place)?;
        say_method(&mut line, self.facts.hierarchy().set(), file, method)?;
        Ok(line.into_bytes())
    }

    /// Tells the declaration of a method, where something is wrong with it.
    fn push_declaration(
        &self,
        number: usize,
        method: &Method,
        told: &mut Vec<Told>,
    ) -> Result<(), AllocError>
        ensures { OnOk result (Tells told.old.items told.new.items self.now.number (places.Method number)
            (is_declaration_wrong self.now.facts.0 self.now.facts.1 (method_of method.now))) }
    {
        if !self.facts.is_declaration_wrong(method) {
            return Ok(());
        }
        let words = self.declaration_words(number, method)?;
        push_told(
            told,
            self.number,
            ToldPlace::Method { method: number },
            words,
        )
    }

    /// Tells what is wrong with a method: its declaration, then what its code has.
    fn push_method(
        &self,
        number: usize,
        method: &Method,
        told: &mut Vec<Told>,
    ) -> Result<(), AllocError>
        ensures { OnOk result
            (TellsMethod self.now.facts.0 self.now.facts.1 told.old.items told.new.items self.now.number number
            (method_of method.now)) }
    {
        self.push_declaration(number, method, told)?;
        match method.code() {
            Some(code) => {
                let lines = self.lines_of(method)?;
                CodeSite {
                    site: self,
                    number,
                    method,
                    code,
                    lines,
                }
                .push_all(told)
            }
            None => Ok(()),
        }
    }

    /// Tells what is wrong with each method.
    pub(crate) fn push_methods(&self, told: &mut Vec<Told>) -> Result<(), AllocError>
        ensures { OnOk result
            (TellsMethods self.now.facts.0 self.now.facts.1 told.old.items told.new.items self.now.number
            (length self.now.facts.1.methods)) }
    {
        let file = self.facts.file();
        for (number, method) in file.methods.iter().enumerate() {
            self.push_method(number, method, told)?;
        }
        Ok(())
    }
}
