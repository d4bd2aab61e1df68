//! Access flags of classes, fields and methods (JVMS tables 4.1-A, 4.5-A and 4.6-A).
//!
//! # Proved
//!
//! - `has` is whether the bit of a flag is set; whether a class is an interface, a field or a method static, a method
//!   private, is as in the definitions.

ghost use Rattle.std.specs.Prelude.{◌≡◌, ◌/◌, ◌%◌, ◌<◌, ◌==◌};
ghost use Rattle.model.specs.AccessFlags.{is_interface_class, is_static_field, is_static_method, is_private_method};
ghost use Rattle.class_tree.specs.View.{field_of, method_of, file_of};

use crate::tree::{ClassFile, Field, Method};

pub const PUBLIC: u16 = 0x0001;

pub const PRIVATE: u16 = 0x0002;

pub const PROTECTED: u16 = 0x0004;

pub const STATIC: u16 = 0x0008;

pub const FINAL: u16 = 0x0010;

pub const SYNCHRONIZED: u16 = 0x0020;

pub const NATIVE: u16 = 0x0100;

pub const INTERFACE: u16 = 0x0200;

pub const ABSTRACT: u16 = 0x0400;

/// Whether a flag is set.
pub fn has(flags: u16, flag: u16) -> bool
    requires { 0 < flag }
    ensures { result ≡ (flags / flag % 2 == 1) }
{
    flags / flag % 2 == 1
}

impl ClassFile {
    /// Whether it declares an interface.
    pub fn is_interface(&self) -> bool
        ensures { result ≡ is_interface_class (file_of self.now) }
    {
        has(self.flags, INTERFACE)
    }
}

impl Field {
    /// Whether it is static.
    pub fn is_static(&self) -> bool
        ensures { result ≡ is_static_field (field_of self.now) }
    {
        has(self.flags, STATIC)
    }
}

impl Method {
    /// Whether it is static.
    pub fn is_static(&self) -> bool
        ensures { result ≡ is_static_method (method_of self.now) }
    {
        has(self.flags, STATIC)
    }

    /// Whether it is private.
    pub fn is_private(&self) -> bool
        ensures { result ≡ is_private_method (method_of self.now) }
    {
        has(self.flags, PRIVATE)
    }
}
