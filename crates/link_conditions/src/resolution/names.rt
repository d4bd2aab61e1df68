//! Whether what a class file names is found, asked part by part.

ghost use Rattle.std.specs.Prelude.{◌≡◌, IfOk, IsFalse};
ghost use Rattle.model.specs.Linkable.{stands, DuplicateClass};
ghost use Rattle.model.specs.Resolution.{unresolved_instruction};
ghost use Rattle.classfile.specs.View.{field_of, file_of, method_of};
ghost use Rattle.link_conditions.specs.resolution.Unresolved.{class_stands, declaration_stands, exception_stands, field_stands};

use crate::resolution::class::is_class_unresolved;
use crate::resolution::code::is_catch_missing;
use crate::resolution::descriptor::{lacking_texts, text_lacks_class};
use crate::resolution::instruction::is_unresolved;
use crate::resolution::table::{Row, entry_rows};
use classfile::{ClassFile, Field, Method};
use hierarchy::Hierarchy;
use model::{ExceptionEntry, Instr};
use std::alloc::{AllocError, Global};
use std::marker::Model;

/// A class file among the classes of a program, of each part of which can be asked whether what it names is not found
/// as it is wanted. Contracts see the program and the tree of the file.
#[derive(Drop)]
pub struct UnresolvedNames<'a> {
    hierarchy: &'a Hierarchy,
    file: &'a ClassFile,
    lacking: Vec<bool>,
    rows: Vec<Row>,
}

impl<'a> Model for UnresolvedNames<'a> {
    ghost use Rattle.std.specs.Prelude.{◌≡◌};
    ghost use Rattle.model.specs.Classes.{Program};
    ghost use Rattle.model.specs.Tree.{FileTree};
    ghost use Rattle.classfile.specs.View.{file_of};
    ghost use Rattle.link_conditions.specs.resolution.Rows.{lacking_texts, Tells};

    ghost Value = { Program × FileTree };

    ghost view = { λ n. (n.hierarchy.now, file_of n.file.now) };

    ghost invariant = { λ n. (n.lacking.items ≡ lacking_texts n.hierarchy.now n.file.now.pool)
        × Tells n.hierarchy.now (file_of n.file.now) n.rows.items };
}

impl<'a> UnresolvedNames<'a> {
    /// The names of a class file. This alone takes memory.
    pub fn new(
        alloc: Global,
        hierarchy: &'a Hierarchy,
        file: &'a ClassFile,
    ) -> Result<UnresolvedNames<'a>, AllocError>
        requires { IsFalse (stands hierarchy.now DuplicateClass) }
        ensures { IfOk result (λ names. names ≡ (hierarchy.now, file_of file.now)) }
    {
        let lacking = lacking_texts(alloc, hierarchy.set(), file.pool.constants())?;
        let rows = entry_rows(alloc, hierarchy, file, &lacking)?;
        Ok(UnresolvedNames {
            hierarchy,
            file,
            lacking,
            rows,
        })
    }

    /// Whether the superclass or a superinterface is not found.
    pub fn lack_class(&self) -> bool
        ensures { result ≡ class_stands self.now.0 self.now.1 }
    {
        is_class_unresolved(self.hierarchy.set(), self.file)
    }

    /// Whether a class of the descriptor of a field of the file is not found.
    pub fn lack_field(&self, field: &Field) -> bool
        ensures { result ≡ field_stands self.now.0 self.now.1 (field_of field.now) }
    {
        text_lacks_class(
            self.hierarchy.set(),
            self.file,
            &self.lacking,
            field.descriptor,
        )
    }

    /// Whether a class of the descriptor of a method of the file is not found.
    pub fn lack_declaration(&self, method: &Method) -> bool
        ensures { result ≡ declaration_stands self.now.0 self.now.1 (method_of method.now) }
    {
        text_lacks_class(
            self.hierarchy.set(),
            self.file,
            &self.lacking,
            method.descriptor,
        )
    }

    /// Whether an instruction doesn't find what it names in the file as it wants it.
    pub fn lack_instruction(&self, instr: Instr) -> bool
        ensures { result ≡ unresolved_instruction self.now.0 self.now.1 instr }
    {
        is_unresolved(self.hierarchy, self.file, &self.rows, instr)
    }

    /// Whether the catch type of an exception entry is not found.
    pub fn lack_catch_type(&self, entry: ExceptionEntry) -> bool
        ensures { result ≡ exception_stands self.now.0 self.now.1 entry }
    {
        is_catch_missing(self.hierarchy, self.file, &self.rows, entry)
    }
}
