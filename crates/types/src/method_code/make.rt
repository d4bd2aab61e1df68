//! The method at a place.

ghost use Rattle.std.specs.Prelude.{◌≡◌, option_map, IfSome};
ghost use Rattle.types.specs.method_code.Linked.{IsLinked};

use crate::method_code::declaration::MethodCode;
use hierarchy::Hierarchy;

impl<'a> MethodCode<'a> {
    ghost use Rattle.types.specs.method_code.View.{files_of, shown, shown_at};

    /// The method at a place among those of the class at a place, or `None` where there is no such place, or it has
    /// no code.
    pub fn new(hierarchy: &'a Hierarchy, class: usize, method: usize) -> Option<MethodCode<'a>>
        requires { IsLinked hierarchy.now }
        ensures files { IfSome result (λ m. files_of m ≡ hierarchy.now) }
        ensures value { option_map shown result ≡ shown_at hierarchy.now class method }
    {
        let Some(file) = hierarchy.set().class_at(class) else {
            return None;
        };
        let Some(found) = file.methods.get(method) else {
            return None;
        };
        let Some(code) = found.code() else {
            return None;
        };
        Some(MethodCode {
            hierarchy,
            class,
            file,
            method: found,
            code,
        })
    }
}
