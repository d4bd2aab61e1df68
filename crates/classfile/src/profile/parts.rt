//! What of a class file is outside of the profile, asked part by part.

ghost use Rattle.std.specs.Prelude.{◌≡◌, IfOk};
ghost use Rattle.model.specs.Profile.{field_outside_profile, method_outside_profile, instruction_outside_profile};
ghost use Rattle.classfile.specs.View.{field_of, file_of, method_of};

use crate::profile::described::{Described, describe_pool};
use crate::profile::{field, method, operand};
use crate::{ClassFile, Field, Method};
use model::Instr;
use std::alloc::{AllocError, Global};
use std::marker::Model;

/// A class file, of each part of which can be asked whether it is outside of the profile. Contracts see its tree.
#[derive(Drop)]
pub struct OutsideParts<'a> {
    file: &'a ClassFile,
    rows: Vec<Described>,
}

impl<'a> Model for OutsideParts<'a> {
    ghost use Rattle.std.specs.Prelude.{◌≡◌};
    ghost use Rattle.model.specs.Tree.{FileTree};
    ghost use Rattle.classfile.specs.View.{file_of};
    ghost use Rattle.classfile.specs.profile.Descriptions.{rows_of};

    ghost Value = { FileTree };

    ghost view = { λ p. file_of p.file.now };

    ghost invariant = { λ p. p.rows.items ≡ rows_of p.file.now.pool };
}

impl<'a> OutsideParts<'a> {
    /// The parts of a class file. This alone takes memory.
    pub fn new(alloc: Global, file: &'a ClassFile) -> Result<OutsideParts<'a>, AllocError>
        ensures { IfOk result (λ parts. parts ≡ file_of file.now) }
    {
        let rows = describe_pool(alloc, file.pool.constants())?;
        Ok(OutsideParts { file, rows })
    }

    /// Whether a field of the file is outside: its type, its constant, or its flags.
    pub fn has_field(&self, field: &Field) -> bool
        ensures { result ≡ field_outside_profile self.now (field_of field.now) }
    {
        field::is_outside(self.file, &self.rows, field)
    }

    /// Whether the descriptor or the flags of a method of the file are outside.
    pub fn has_declaration(&self, method: &Method) -> bool
        ensures { result ≡ method_outside_profile self.now (method_of method.now) }
    {
        method::is_outside(self.file, &self.rows, method)
    }

    /// Whether an instruction is outside, by what its operands name in the file.
    pub fn has_instruction(&self, instr: Instr) -> bool
        ensures { result ≡ instruction_outside_profile self.now.pool instr }
    {
        operand::is_outside(self.file, &self.rows, instr)
    }
}
