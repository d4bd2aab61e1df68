//! The code of a method.

ghost use Rattle.std.specs.Prelude.{◌≡◌, ◌&&◌, IfOk, OnOk, not, true};
ghost use Rattle.std.specs.Option.{option_map_or};
ghost use Rattle.model.specs.Instruction.{instr_at};
ghost use Rattle.model.specs.CodeParts.{begins_none};
ghost use Rattle.classfile.specs.View.{code_of};
ghost use Rattle.link_conditions.specs.resolution.Unresolved.{exception_stands};
ghost use Rattle.advice.specs.Told.{Keeps};
ghost use Rattle.advice.specs.Wrong.{is_entry_wrong, is_instruction_wrong, is_offset_wrong};
ghost use Rattle.advice.specs.Telling.{Tells, TellsCode, TellsEach};
ghost use Rattle.advice.specs.declared.told.ToldPlace.TheVariants as places;

use crate::site::declarations::Site;
use crate::told::{Told, ToldPlace, push_told};
use crate::words::class::say_missing_class;
use crate::words::instruction::{interface_method_of, say_interface_method, say_wrong_instruction};
use crate::words::java::{LeftOutType, left_out_type};
use crate::words::left_out::{Beyond, beyond_at, say_beyond, say_no_instruction};
use crate::words::place::say_place;
use crate::words::{Line, Named, named_at};
use classfile::source_lines::LineTable;
use classfile::{Code, Method};
use model::{ExceptionEntry, Instr};
use opcodes::{decode_at, sized_at, starts};
use std::alloc::AllocError;

/// The code of a method of a class file that is walked over.
#[derive(Drop)]
pub(crate) struct CodeSite<'a> {
    pub(crate) site: &'a Site<'a>,
    pub(crate) number: usize,
    pub(crate) method: &'a Method,
    pub(crate) code: &'a Code,
    pub(crate) lines: LineTable,
}

impl CodeSite<'_> {
    /// The begin of a line that tells something of a place.
    fn line_at(&self, place: ToldPlace) -> Result<Line, AllocError> {
        let site = self.site;
        let mut line = Line::new(site.alloc);
        say_place(
            &mut line,
            site.given,
            site.facts.file(),
            self.method,
            &self.lines,
            place,
        )?;
        Ok(line)
    }

    /// The place of an instruction.
    fn place(&self, pc: usize) -> ToldPlace
        ensures { result ≡ places.Instruction self.now.number pc }
    {
        ToldPlace::Instruction {
            method: self.number,
            pc,
        }
    }

    /// What is wrong with an instruction, where the file or the program are to blame.
    fn instruction_words(&self, pc: usize, instr: Instr) -> Result<Vec<u8>, AllocError> {
        let facts = &self.site.facts;
        let mut line = self.line_at(self.place(pc))?;
        say_wrong_instruction(&mut line, facts.hierarchy(), facts.file(), instr)?;
        Ok(line.into_bytes())
    }

    /// What stands where no instruction of this machine begins.
    fn own_words(&self, pc: usize) -> Result<Vec<u8>, AllocError> {
        let file = self.site.facts.file();
        let mut line = self.line_at(self.place(pc))?;
        match beyond_at(file, &self.code.code, pc) {
            Some(beyond) => say_beyond(&mut line, file, beyond)?,
            None => say_no_instruction(&mut line, &self.code.code, pc)?,
        }
        Ok(line.into_bytes())
    }

    /// The line of the source to which an offset belongs.
    fn line_number(&self, pc: usize) -> Option<u16> {
        self.lines.line_at(u16::try_from(pc).ok()?)
    }

    /// The type that is left out, of the instruction at an offset, or of what it names.
    fn left_out_at(&self, pc: usize) -> Result<Option<LeftOutType>, AllocError> {
        let file = self.site.facts.file();
        match beyond_at(file, &self.code.code, pc) {
            Some(beyond) => Ok(beyond.left_out()),
            None => match named_at(file, &self.code.code, pc) {
                Some(
                    Named {
                        member: Some((_, descriptor)),
                        ..
                    },
                ) => left_out_type(self.site.alloc, descriptor),
                _ => Ok(None),
            },
        }
    }

    /// What was told last, where it is of an instruction of this method on the same line, and of the same type.
    fn said_before<'a>(
        &self,
        pc: usize,
        left_out: LeftOutType,
        told: &'a [Told],
    ) -> Result<Option<&'a [u8]>, AllocError> {
        let Some(last) = told.last() else {
            return Ok(None);
        };
        match last.place {
            ToldPlace::Instruction { method, pc: before }
                if last.file == self.site.number
                    && method == self.number
                    && self.line_number(before) == self.line_number(pc)
                    && self.left_out_at(before)? == Some(left_out) => {
                Ok(Some(last.words.as_slice()))
            }
            _ => Ok(None),
        }
    }

    /// The call behind an instruction that this machine has not, which needs what that one makes: it is on the same
    /// line, and has the same type.
    fn call_behind(
        &self,
        beyond: Beyond,
        left_out: LeftOutType,
    ) -> Result<Option<(usize, Instr)>, AllocError> {
        let pc = beyond.pc.saturating_add(beyond.length);
        match decode_at(&self.code.code, pc) {
            Some(instr @ (Instr::Invoke { .. } | Instr::InvokeInterface { .. }))
                if self.site.facts.is_instruction_wrong(instr)
                    && self.line_number(beyond.pc) == self.line_number(pc)
                    && self.left_out_at(pc)? == Some(left_out) => { Ok(Some((pc, instr))) }
            _ => Ok(None),
        }
    }

    /// What is told where no instruction of this machine begins: of a type that is left out, rather what is told of
    /// the call that needs it, or what was told on that line before.
    fn beyond_words(&self, pc: usize, told: &[Told]) -> Result<Vec<u8>, AllocError> {
        let Some(beyond) = beyond_at(self.site.facts.file(), &self.code.code, pc) else {
            return self.own_words(pc);
        };
        let Some(left_out) = beyond.left_out() else {
            return self.own_words(pc);
        };
        if let Some(words) = self.said_before(pc, left_out, told)? {
            return Vec::from_slice(self.site.alloc, words);
        }
        match self.call_behind(beyond, left_out)? {
            Some((pc, instr)) => self.instruction_words(pc, instr),
            None => self.own_words(pc),
        }
    }

    /// Tells a call of a method with a body of an interface.
    fn push_interface_call(
        &self,
        pc: usize,
        instr: Instr,
        told: &mut Vec<Told>,
    ) -> Result<(), AllocError>
        ensures { OnOk result (Keeps told.old.items told.new.items) }
    {
        let file = self.site.facts.file();
        let Some(named) = interface_method_of(file, instr) else {
            return Ok(());
        };
        let mut line = self.line_at(self.place(pc))?;
        say_interface_method(&mut line, self.site.facts.hierarchy().set(), &named)?;
        push_told(told, self.site.number, self.place(pc), line.into_bytes())
    }

    /// Tells an instruction with something wrong.
    fn push_instruction(
        &self,
        pc: usize,
        instr: Instr,
        told: &mut Vec<Told>,
    ) -> Result<(), AllocError>
        ensures { OnOk result
            (Tells told.old.items told.new.items self.now.site.now.number (places.Instruction self.now.number pc)
            (is_instruction_wrong self.now.site.now.facts.0 self.now.site.now.facts.1 instr)) }
    {
        if !self.site.facts.is_instruction_wrong(instr) {
            return self.push_interface_call(pc, instr, told);
        }
        let words = self.instruction_words(pc, instr)?;
        push_told(told, self.site.number, self.place(pc), words)
    }

    /// Tells what is wrong at an offset, and answers whether an instruction of this machine begins there.
    fn push_offset(&self, pc: usize, told: &mut Vec<Told>) -> Result<bool, AllocError>
        ensures told { OnOk result
            (Tells told.old.items told.new.items self.now.site.now.number (places.Instruction self.now.number pc)
            (option_map_or (is_instruction_wrong self.now.site.now.facts.0 self.now.site.now.facts.1)
            (instr_at (code_of self.now.code.now).code pc) true)) }
        ensures begins { IfOk result (λ begins. begins ≡ not (begins_none (code_of self.now.code.now).code pc)) }
    {
        let Some(instr) = decode_at(&self.code.code, pc) else {
            let words = self.beyond_words(pc, told)?;
            push_told(told, self.site.number, self.place(pc), words)?;
            return Ok(false);
        };
        self.push_instruction(pc, instr, told)?;
        Ok(true)
    }

    /// Tells what is wrong at an offset, if it is an instruction boundary, and answers whether decoding goes on
    /// behind it.
    fn push_boundary(
        &self,
        pc: usize,
        is_start: bool,
        told: &mut Vec<Told>,
    ) -> Result<bool, AllocError>
        ensures told { OnOk result
            (Tells told.old.items told.new.items self.now.site.now.number (places.Instruction self.now.number pc)
            (is_start && option_map_or (is_instruction_wrong self.now.site.now.facts.0 self.now.site.now.facts.1)
            (instr_at (code_of self.now.code.now).code pc) true)) }
        ensures goes_on { IfOk result (λ goes_on.
            goes_on ≡ not (is_start && begins_none (code_of self.now.code.now).code pc)) }
    {
        if is_start {
            self.push_offset(pc, told)
        } else {
            Ok(true)
        }
    }

    /// Tells what stands at an offset that code is read on at, and answers where it goes on behind that, if it does.
    fn push_behind(&self, pc: usize, told: &mut Vec<Told>) -> Result<Option<usize>, AllocError>
        ensures { OnOk result (Keeps told.old.items told.new.items) }
    {
        if let Some((instr, length)) = sized_at(&self.code.code, pc) {
            self.push_instruction(pc, instr, told)?;
            return Ok(Some(pc.saturating_add(length)));
        }
        let Some(beyond) = beyond_at(self.site.facts.file(), &self.code.code, pc) else {
            return Ok(None);
        };
        let words = self.beyond_words(pc, told)?;
        push_told(told, self.site.number, self.place(pc), words)?;
        Ok(Some(pc.saturating_add(beyond.length)))
    }

    /// Tells what stands from the first instruction on that this machine has not, as far as the code can be read.
    fn push_beyond(&self, first: usize, told: &mut Vec<Told>) -> Result<(), AllocError>
        ensures { OnOk result (Keeps told.old.items told.new.items) }
    {
        let mut pc = first;
        for _ in 0..self.code.code.len() {
            let Some(next) = self.push_behind(pc, told)? else {
                return Ok(());
            };
            pc = next;
        }
        Ok(())
    }

    /// Tells what is wrong with each instruction.
    fn push_offsets(&self, told: &mut Vec<Told>) -> Result<(), AllocError>
        ensures { OnOk result (TellsEach told.old.items told.new.items self.now.site.now.number
            (λ pc. places.Instruction self.now.number pc)
            (is_offset_wrong self.now.site.now.facts.0 self.now.site.now.facts.1 (code_of self.now.code.now))) }
    {
        let marks = starts(self.site.alloc, &self.code.code)?;
        for (pc, is_start) in marks.iter().enumerate() {
            if !self.push_boundary(pc, *is_start, told)? {
                return self.push_beyond(pc, told);
            }
        }
        Ok(())
    }

    /// The catch type of an exception entry that is not found.
    fn entry_words(&self, number: usize, entry: ExceptionEntry) -> Result<Vec<u8>, AllocError> {
        let mut line = self.line_at(ToldPlace::Exception {
            method: self.number,
            entry: number,
        })?;
        let file = self.site.facts.file();
        say_missing_class(&mut line, file.class_name(entry.catch_type).unwrap_or(b""))?;
        Ok(line.into_bytes())
    }

    /// Tells an exception entry whose catch type is not found.
    fn push_entry(
        &self,
        number: usize,
        entry: ExceptionEntry,
        told: &mut Vec<Told>,
    ) -> Result<(), AllocError>
        ensures { OnOk result
            (Tells told.old.items told.new.items self.now.site.now.number (places.Exception self.now.number number)
            (exception_stands self.now.site.now.facts.0 self.now.site.now.facts.1 entry)) }
    {
        if !self.site.facts.is_exception_wrong(entry) {
            return Ok(());
        }
        let words = self.entry_words(number, entry)?;
        let place = ToldPlace::Exception {
            method: self.number,
            entry: number,
        };
        push_told(told, self.site.number, place, words)
    }

    /// Tells each exception entry whose catch type is not found.
    fn push_entries(&self, told: &mut Vec<Told>) -> Result<(), AllocError>
        ensures { OnOk result
            (TellsEach told.old.items told.new.items self.now.site.now.number (λ k. places.Exception self.now.number k)
            (is_entry_wrong self.now.site.now.facts.0 self.now.site.now.facts.1 (code_of self.now.code.now))) }
    {
        for (number, entry) in self.code.exceptions.iter().enumerate() {
            self.push_entry(number, *entry, told)?;
        }
        Ok(())
    }

    /// Tells what is wrong with the code.
    pub(crate) fn push_all(&self, told: &mut Vec<Told>) -> Result<(), AllocError>
        ensures { OnOk result
            (TellsCode self.now.site.now.facts.0 self.now.site.now.facts.1 told.old.items told.new.items
            self.now.site.now.number self.now.number (code_of self.now.code.now)) }
    {
        self.push_offsets(told)?;
        self.push_entries(told)
    }
}
