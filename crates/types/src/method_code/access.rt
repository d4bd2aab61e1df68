//! What is asked of a method.

ghost use Rattle.std.specs.Prelude.{◌≡◌, codes};
ghost use Rattle.model.specs.Names.{name_eq, constructor_name, initialiser_name};
ghost use Rattle.model.specs.Typing.{is_constructor, has_no_receiver, is_static_of};
ghost use Rattle.hierarchy.specs.Places.{name_at};
ghost use Rattle.class_tree.specs.View.{code_of};

use crate::method_code::declaration::MethodCode;
use class_tree::{ClassFile, Code};
use hierarchy::{ClassSet, Hierarchy};

impl<'a> MethodCode<'a> {
    ghost use Rattle.types.specs.method_code.View.{files_of, member_of, body_of};

    /// The set of its class.
    pub fn set(&self) -> &ClassSet
        ensures { result.now ≡ files_of self.now }
    {
        self.hierarchy.set()
    }

    /// The set of its class with what is above each class.
    pub fn hierarchy(&self) -> &Hierarchy
        ensures { result.now ≡ files_of self.now }
    {
        self.hierarchy
    }

    pub fn code(&self) -> &Code
        ensures { code_of result.now ≡ (body_of self.now).code }
    {
        self.code
    }

    /// The file of its class.
    pub fn file(&self) -> &ClassFile
        ensures { result.now.pool ≡ (body_of self.now).pool }
    {
        self.file
    }

    /// The place of its class.
    pub fn class(&self) -> usize
        ensures { name_at (files_of self.now) result ≡ (member_of self.now).class }
    {
        self.class
    }

    pub fn name(&self) -> &[u8]
        ensures { result.now ≡ (member_of self.now).name }
    {
        self.file.pool.text(self.method.name)
    }

    pub fn descriptor(&self) -> &[u8]
        ensures { result.now ≡ (member_of self.now).descriptor }
    {
        self.file.pool.text(self.method.descriptor)
    }

    /// Whether it is an instance initialization method (JVMS 2.9).
    pub fn is_constructor(&self) -> bool
        ensures { result ≡ is_constructor (member_of self.now) }
    {
        self.name() == b"<init>".as_slice()
    }

    fn is_static(&self) -> bool
        ensures { result ≡ is_static_of (files_of self.now) (member_of self.now) }
    {
        self.method.is_static()
    }

    /// Whether it has no receiver: if it is static, or the initialiser of its class whatever its flags are.
    pub fn has_no_receiver(&self) -> bool
        ensures { result ≡ has_no_receiver (files_of self.now) (member_of self.now) }
    {
        self.is_static() || self.name() == b"<clinit>".as_slice()
    }
}
