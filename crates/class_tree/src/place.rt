//! Where the parts of a class file stand in it.

ghost use Rattle.std.specs.Prelude.{◌≡◌, ◌<◌, ◌^◌, ◌++◌, ℕ, List, length, map, drop, slice_get};
ghost use Rattle.model.specs.Tree.{CodeTree, MethodTree};
ghost use Rattle.model.specs.Spelling.{code, Layout};
ghost use Rattle.model.specs.Classes.{code_in};
ghost use Rattle.constant_pool.specs.Checking.{saturated};
ghost use Rattle.class_tree.specs.View.{method_part_of, method_of, file_of};
ghost use Rattle.class_tree.specs.CodePlace.{BeginsWith};
ghost use Rattle.class_tree.specs.CodePlace.{before_fields, before_methods, before_parts, before_code, methods_front, front_of_code};

use crate::spelled::{Spelled, length_of};
use crate::tree::{ClassFile, Method, MethodAttribute};

/// The offset of the first field, or of the count of the methods where there is none.
pub(crate) fn first_field(file: &ClassFile) -> usize
    ensures { result ≡ saturated (length (before_fields (file_of file.now))) }
{
    20usize
        .saturating_add(file.pool.length())
        .saturating_add(length_of(&file.interfaces))
}

/// The offset of the first method, or of the count of the attributes where there is none.
fn first_method(file: &ClassFile) -> usize
    ensures { result ≡ saturated (length (before_methods (file_of file.now))) }
{
    first_field(file)
        .saturating_add(length_of(&file.fields))
        .saturating_add(2)
}

/// The length of what stands before the Code among attributes, with its name and length.
fn length_before_code(attributes: &[MethodAttribute]) -> usize
    ensures { result ≡ saturated (length (before_code (map method_part_of attributes.now))) }
{
    let mut sum = 0usize;
    'parts: for part in attributes {
        if part.is_code() {
            return sum.saturating_add(6);
        }
        sum = sum.saturating_add(part.length());
    }
    sum
}

/// The length of what stands in a method before its Code, with its name and length.
fn length_in_method(method: &Method) -> usize
    ensures { result ≡ saturated
        (length (before_parts (method_of method.now) ++ before_code (method_of method.now).parts)) }
{
    length_before_code(&method.attributes).saturating_add(8)
}

/// The length of what stands among methods before what the Code of one holds.
fn length_before(methods: &[Method], index: usize) -> usize
    ensures { result ≡ saturated (length (methods_front (map method_of methods.now) index)) }
{
    let mut sum = 0usize;
    let mut left = index;
    'methods: for method in methods {
        if left == 0 {
            return sum.saturating_add(length_in_method(method));
        }
        sum = sum.saturating_add(method.length());
        left -= 1;
    }
    sum
}

impl ClassFile {
    /// The offset of what the Code of a method holds, behind its name and length. Methods count from 0. Where the
    /// method has no Code it is the offset behind its attributes, and where there is no such method that behind them
    /// all. No file in memory is so long that the highest `usize` is answered in its place.
    pub fn code_offset(&self, method: usize) -> usize
        ensures place { result ≡ saturated (length (front_of_code (file_of self.now) method)) }
        // Where the tree is that of bytes in memory, what the Code holds stands there.
        ensures stands { (bytes : List ℕ) (m : MethodTree) (c : CodeTree) → Layout bytes (file_of self.now)
            → length bytes < 2 ^ 64
            → slice_get (file_of self.now).methods method ≡ Some m → code_in m.parts ≡ Some c
            → BeginsWith (code c) (drop result bytes) }
    {
        first_method(self).saturating_add(length_before(&self.methods, method))
    }
}
