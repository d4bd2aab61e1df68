//! The bytes that the parts of a class file are written as, and how many they are.

ghost use Rattle.std.specs.Prelude.{◌≡◌, ◌+◌, ◌++◌, ℕ, List, length, map, OnOk, IfOk};
ghost use Rattle.std.specs.List.{flat_map};
ghost use Rattle.model.specs.declared.class_file.ExceptionEntry.{ExceptionEntry};
ghost use Rattle.model.specs.Tree.{SkippedTree, CodeTree, FieldPart, FieldTree, MethodPart, MethodTree};
ghost use Rattle.model.specs.Spelling as spelling;
ghost use Rattle.model.specs.Spelling.{u2, u4, table, sized, Layout};
ghost use Rattle.constant_pool.specs.Checking.{saturated};
ghost use Rattle.class_tree.specs.View.{skipped_of, code_of, field_part_of, field_of, method_part_of, method_of, file_of};

use crate::tree::{Attribute, ClassFile, Code, Field, FieldAttribute, Method, MethodAttribute};
use model::ExceptionEntry;
use std::alloc::{AllocError, Global};

/// What is written as bytes.
pub(crate) trait Spelled: Sized {
    /// It, without where it lies in memory.
    ghost Form: { Type 0 };

    ghost form_of: { Self → Form };

    ghost text: { Form → List ℕ };

    /// How many bytes it has, or the highest `usize` where it has more.
    fn length(&self) -> usize
        ensures { result ≡ saturated (length (text (form_of self.now))) };

    /// Appends its bytes.
    fn put(&self, alloc: Global, out: &mut Vec<u8>) -> Result<(), AllocError>
        ensures { OnOk result (out.new.items ≡ out.old.items ++ text (form_of self.now)) };
}

/// The length of the parts one after the other.
pub(crate) fn length_of<T: Spelled>(parts: &[T]) -> usize
    ensures { result ≡ saturated (length (flat_map T.text (map T.form_of parts.now))) }
{
    let mut sum = 0usize;
    'parts: for part in parts {
        sum = sum.saturating_add(part.length());
    }
    sum
}

/// The lowest two bytes of a number, the highest of them first.
fn put_u2(n: usize, out: &mut Vec<u8>) -> Result<(), AllocError>
    ensures { OnOk result (out.new.items ≡ out.old.items ++ u2 n) }
{
    let low = (n % 0x1_0000) as u16;
    out.extend_from_slice(&low.to_be_bytes())
}

/// The lowest four bytes of a number, the highest of them first.
fn put_u4(n: usize, out: &mut Vec<u8>) -> Result<(), AllocError>
    ensures { OnOk result (out.new.items ≡ out.old.items ++ u4 n) }
{
    let low = (n % 0x1_0000_0000) as u32;
    out.extend_from_slice(&low.to_be_bytes())
}

impl Spelled for u16 {
    ghost Form = { ℕ };

    ghost form_of = { λ n. n };

    ghost text = { λ n. u2 n };

    fn length(&self) -> usize {
        2
    }

    fn put(&self, _alloc: Global, out: &mut Vec<u8>) -> Result<(), AllocError> {
        out.extend_from_slice(&self.to_be_bytes())
    }
}

/// A count, and each part.
fn put_table<T: Spelled>(alloc: Global, parts: &[T], out: &mut Vec<u8>) -> Result<(), AllocError>
    ensures { OnOk result (out.new.items ≡ out.old.items ++ table T.text (map T.form_of parts.now)) }
{
    put_u2(parts.len(), out)?;
    'parts: for part in parts {
        part.put(alloc, out)?;
    }
    Ok(())
}

/// A length, and the bytes.
fn put_sized(bytes: &[u8], out: &mut Vec<u8>) -> Result<(), AllocError>
    ensures { OnOk result (out.new.items ≡ out.old.items ++ sized bytes.now) }
{
    put_u4(bytes.len(), out)?;
    out.extend_from_slice(bytes)
}

impl Spelled for Attribute {
    ghost Form = { SkippedTree };

    ghost form_of = { λ a. skipped_of a };

    ghost text = { λ a. spelling.skipped a };

    fn length(&self) -> usize {
        self.bytes.len().saturating_add(6)
    }

    fn put(&self, alloc: Global, out: &mut Vec<u8>) -> Result<(), AllocError> {
        self.name.put(alloc, out)?;
        put_sized(&self.bytes, out)
    }
}

impl Spelled for ExceptionEntry {
    ghost Form = { ExceptionEntry };

    ghost form_of = { λ e. e };

    ghost text = { λ e. spelling.exception e };

    fn length(&self) -> usize {
        8
    }

    fn put(&self, alloc: Global, out: &mut Vec<u8>) -> Result<(), AllocError> {
        self.start.put(alloc, out)?;
        self.end.put(alloc, out)?;
        self.handler.put(alloc, out)?;
        self.catch_type.put(alloc, out)
    }
}

/// The length of a Code of these bytes whose tables are empty.
fn length_around(code: &[u8]) -> usize
    ensures { result ≡ saturated (12 + length code.now) }
{
    code.len().saturating_add(12)
}

impl Spelled for Code {
    ghost Form = { CodeTree };

    ghost form_of = { λ c. code_of c };

    ghost text = { λ c. spelling.code c };

    fn length(&self) -> usize {
        length_around(&self.code)
            .saturating_add(length_of(&self.exceptions))
            .saturating_add(length_of(&self.attributes))
    }

    fn put(&self, alloc: Global, out: &mut Vec<u8>) -> Result<(), AllocError> {
        self.max_stack.put(alloc, out)?;
        self.max_locals.put(alloc, out)?;
        put_sized(&self.code, out)?;
        put_table(alloc, &self.exceptions, out)?;
        put_table(alloc, &self.attributes, out)?;
        Ok(())
    }
}

/// The bytes that stand behind a length.
fn put_filled(alloc: Global, code: &Code, out: &mut Vec<u8>) -> Result<(), AllocError>
    ensures { OnOk result (out.new.items ≡ out.old.items ++ sized (spelling.code (code_of code.now))) }
{
    let mut body = Vec::new(alloc);
    code.put(alloc, &mut body)?;
    put_sized(&body, out)
}

impl Spelled for FieldAttribute {
    ghost Form = { FieldPart };

    ghost form_of = { λ p. field_part_of p };

    ghost text = { λ p. spelling.field_part p };

    fn length(&self) -> usize {
        match self {
            FieldAttribute::ConstantValue { .. } => 8,
            FieldAttribute::Skipped(attribute) => attribute.length(),
        }
    }

    fn put(&self, alloc: Global, out: &mut Vec<u8>) -> Result<(), AllocError> {
        match self {
            FieldAttribute::ConstantValue { name, index } => {
                name.put(alloc, out)?;
                put_u4(2, out)?;
                index.put(alloc, out)
            }
            FieldAttribute::Skipped(attribute) => attribute.put(alloc, out),
        }
    }
}

impl Spelled for MethodAttribute {
    ghost Form = { MethodPart };

    ghost form_of = { λ p. method_part_of p };

    ghost text = { λ p. spelling.method_part p };

    fn length(&self) -> usize {
        match self {
            MethodAttribute::Code { code, .. } => code.length().saturating_add(6),
            MethodAttribute::Skipped(attribute) => attribute.length(),
        }
    }

    fn put(&self, alloc: Global, out: &mut Vec<u8>) -> Result<(), AllocError> {
        match self {
            MethodAttribute::Code { name, code } => {
                name.put(alloc, out)?;
                put_filled(alloc, code, out)
            }
            MethodAttribute::Skipped(attribute) => attribute.put(alloc, out),
        }
    }
}

impl Spelled for Field {
    ghost Form = { FieldTree };

    ghost form_of = { λ f. field_of f };

    ghost text = { λ f. spelling.field f };

    fn length(&self) -> usize {
        length_of(&self.attributes).saturating_add(8)
    }

    fn put(&self, alloc: Global, out: &mut Vec<u8>) -> Result<(), AllocError> {
        self.flags.put(alloc, out)?;
        self.name.put(alloc, out)?;
        self.descriptor.put(alloc, out)?;
        put_table(alloc, &self.attributes, out)
    }
}

impl Spelled for Method {
    ghost Form = { MethodTree };

    ghost form_of = { λ m. method_of m };

    ghost text = { λ m. spelling.method m };

    fn length(&self) -> usize {
        length_of(&self.attributes).saturating_add(8)
    }

    fn put(&self, alloc: Global, out: &mut Vec<u8>) -> Result<(), AllocError> {
        self.flags.put(alloc, out)?;
        self.name.put(alloc, out)?;
        self.descriptor.put(alloc, out)?;
        put_table(alloc, &self.attributes, out)
    }
}

/// The members and the attributes of the class.
fn put_members(alloc: Global, file: &ClassFile, out: &mut Vec<u8>) -> Result<(), AllocError>
    ensures { OnOk result (out.new.items ≡ out.old.items
        ++ (table spelling.field (file_of file.now).fields
        ++ (table spelling.method (file_of file.now).methods
        ++ table spelling.skipped (file_of file.now).attributes))) }
{
    put_table(alloc, &file.fields, out)?;
    put_table(alloc, &file.methods, out)?;
    put_table(alloc, &file.attributes, out)?;
    Ok(())
}

/// What stands behind the version.
fn put_parts(alloc: Global, file: &ClassFile, out: &mut Vec<u8>) -> Result<(), AllocError>
    ensures { OnOk result (out.new.items ≡ out.old.items ++ spelling.parts (file_of file.now)) }
{
    file.pool.encode(out)?;
    file.flags.put(alloc, out)?;
    file.this_class.put(alloc, out)?;
    file.super_class.put(alloc, out)?;
    put_table(alloc, &file.interfaces, out)?;
    put_members(alloc, file, out)
}

/// The bytes of a class file: those that it was decoded from, where it was. Of a number that has no room in its field
/// the lowest bytes are written.
pub fn encode(alloc: Global, file: &ClassFile) -> Result<Vec<u8>, AllocError>
    ensures spelled { IfOk result (λ bytes. bytes.items ≡ spelling.file (file_of file.now)) }
    // It gives back the bytes that a tree was decoded from.
    ensures back { (bytes : List ℕ) → Layout bytes (file_of file.now) → IfOk result (λ written. written.items ≡ bytes) }
{
    let mut out = Vec::new(alloc);
    out.extend_from_slice(&[0xca, 0xfe, 0xba, 0xbe, 0, 0, 0, 49])?;
    put_parts(alloc, file, &mut out)?;
    Ok(out)
}
