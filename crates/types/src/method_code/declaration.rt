//! A method with the code that it has.

ghost use Rattle.class_tree.specs.View.{file_of, method_of, code_of};
ghost use Rattle.types.specs.method_code.Declaration.{IsDeclared};

use class_tree::{ClassFile, Code, Method};
use hierarchy::Hierarchy;

/// A method of a class of a set, and its code.
#[derive(Clone, Copy)]
pub struct MethodCode<'a> {
    pub hierarchy: &'a Hierarchy,
    /// The place of its class.
    pub class: usize,
    /// The file of the class.
    pub file: &'a ClassFile,
    pub method: &'a Method,
    pub code: &'a Code,
    pub ghost declared: { IsDeclared hierarchy.now class (file_of file.now) (method_of method.now) (code_of code.now) },
}
