//! A class file among those of a program, asked part by part what is wrong with it.

ghost use Rattle.std.specs.Prelude.{◌≡◌, IfOk, IsFalse};
ghost use Rattle.model.specs.Linkable.{stands, DuplicateClass};
ghost use Rattle.classfile.specs.View.{field_of, file_of, method_of};
ghost use Rattle.link_conditions.specs.resolution.Unresolved.{class_stands, exception_stands};
ghost use Rattle.advice.specs.Wrong.{is_declaration_wrong, is_field_wrong, is_instruction_wrong};

use classfile::profile::OutsideParts;
use classfile::{ClassFile, Field, Method};
use hierarchy::Hierarchy;
use link_conditions::resolution::UnresolvedNames;
use model::{ExceptionEntry, Instr};
use std::alloc::{AllocError, Global};
use std::marker::Model;

/// A class file among those of a program, of each part of which can be asked whether it is outside of the profile, or
/// names what is not found. Contracts see the program and the tree of the file.
#[derive(Drop)]
pub(crate) struct Facts<'a> {
    hierarchy: &'a Hierarchy,
    file: &'a ClassFile,
    outside: OutsideParts<'a>,
    names: UnresolvedNames<'a>,
}

impl<'a> Model for Facts<'a> {
    ghost use Rattle.std.specs.Prelude.{◌≡◌};
    ghost use Rattle.model.specs.Classes.{Program};
    ghost use Rattle.model.specs.Tree.{FileTree};
    ghost use Rattle.classfile.specs.View.{file_of};

    ghost Value = { Program × FileTree };

    ghost view = { λ f. (f.hierarchy.now, file_of f.file.now) };

    ghost invariant = { λ f. (f.outside ≡ file_of f.file.now) × (f.names ≡ (f.hierarchy.now, file_of f.file.now)) };
}

impl<'a> Facts<'a> {
    /// The facts of a class file. This alone takes memory.
    pub(crate) fn new(
        alloc: Global,
        hierarchy: &'a Hierarchy,
        file: &'a ClassFile,
    ) -> Result<Facts<'a>, AllocError>
        requires { IsFalse (stands hierarchy.now DuplicateClass) }
        ensures { IfOk result (λ facts. facts ≡ (hierarchy.now, file_of file.now)) }
    {
        let outside = OutsideParts::new(alloc, file)?;
        let names = UnresolvedNames::new(alloc, hierarchy, file)?;
        Ok(Facts {
            hierarchy,
            file,
            outside,
            names,
        })
    }

    /// The classes of the program.
    pub(crate) fn hierarchy(&self) -> &Hierarchy {
        self.hierarchy
    }

    /// The class file.
    pub(crate) fn file(&self) -> &ClassFile
        ensures { file_of result.now ≡ self.now.1 }
    {
        self.file
    }

    /// Whether the superclass or a superinterface is not found.
    pub(crate) fn is_class_wrong(&self) -> bool
        ensures { result ≡ class_stands self.now.0 self.now.1 }
    {
        self.names.lack_class()
    }

    /// Whether a field is outside of the profile, or a class of its descriptor is not found.
    pub(crate) fn is_field_wrong(&self, field: &Field) -> bool
        ensures { result ≡ is_field_wrong self.now.0 self.now.1 (field_of field.now) }
    {
        self.outside.has_field(field) || self.names.lack_field(field)
    }

    /// Whether the declaration of a method is outside of the profile, or a class of its descriptor is not found.
    pub(crate) fn is_declaration_wrong(&self, method: &Method) -> bool
        ensures { result ≡ is_declaration_wrong self.now.0 self.now.1 (method_of method.now) }
    {
        self.outside.has_declaration(method) || self.names.lack_declaration(method)
    }

    /// Whether an instruction is outside of the profile, or doesn't find what it names.
    pub(crate) fn is_instruction_wrong(&self, instr: Instr) -> bool
        ensures { result ≡ is_instruction_wrong self.now.0 self.now.1 instr }
    {
        self.outside.has_instruction(instr) || self.names.lack_instruction(instr)
    }

    /// Whether the catch type of an exception entry is not found.
    pub(crate) fn is_exception_wrong(&self, entry: ExceptionEntry) -> bool
        ensures { result ≡ exception_stands self.now.0 self.now.1 entry }
    {
        self.names.lack_catch_type(entry)
    }
}
