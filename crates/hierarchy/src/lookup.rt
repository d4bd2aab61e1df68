//! The members that classes declare, and which method a call runs (JVMS 6.5).

ghost use Rattle.std.specs.Prelude.{◌≡◌, option_map, IfSome};
ghost use Rattle.constant_pool.specs.View.{reference_of};
ghost use Rattle.class_tree.specs.View.{method_of};
ghost use Rattle.model.specs.Classes.{lineage};
ghost use Rattle.model.specs.Lookup.{method_in_class, first_found, any_method, field_in_class};
ghost use Rattle.hierarchy.specs.Places.{member_in, IsFieldAt, IsMethodAt};
ghost use Rattle.hierarchy.specs.Wanted.{wants};

use crate::place::MemberPlace;
use crate::set::ClassSet;
use class_tree::access_flags::{PUBLIC, STATIC, has};
use class_tree::{Method, Reference};

/// Which methods count in a look-up.
#[derive(Clone, Copy)]
pub(crate) enum Wanted {
    Any,
    /// A public instance method.
    PublicInstance,
}

/// Whether a method counts in a look-up.
pub(crate) fn counts(wanted: Wanted, method: &Method) -> bool
    ensures { result ≡ wants wanted (method_of method.now) }
{
    match wanted {
        Wanted::Any => true,
        Wanted::PublicInstance => has(method.flags, PUBLIC) && !has(method.flags, STATIC),
    }
}

impl ClassSet {
    /// The method that a class itself declares, where it counts.
    pub(crate) fn method_in(
        &self,
        class: &[u8],
        method: Reference<'_>,
        wanted: Wanted,
    ) -> Option<MemberPlace>
        ensures found { option_map (λ p. member_in self.now (reference_of method.entry) p) result
            ≡ method_in_class self.now (wants wanted) (reference_of method.entry) class.now }
        ensures place { IfSome result (IsMethodAt self.now (reference_of method.entry)) }
    {
        self.sought(method).method_in(class, wanted)
    }

    /// The nearest declaration, from a class upwards, that counts.
    pub(crate) fn method_above(
        &self,
        class: &[u8],
        method: Reference<'_>,
        wanted: Wanted,
    ) -> Option<MemberPlace>
        ensures found { option_map (λ p. member_in self.now (reference_of method.entry) p) result
            ≡ first_found (method_in_class self.now (wants wanted) (reference_of method.entry))
            (lineage self.now class.now) }
        ensures place { IfSome result (IsMethodAt self.now (reference_of method.entry)) }
    {
        let Some(start) = self.place_of(class) else {
            return None;
        };
        let sought = self.sought(method);
        let mut place = start;
        for _step in 0..self.count() {
            if let Some(found) = sought.method_at(place, wanted) {
                return Some(found);
            }
            let Some(next) = self.superclass_place(place) else {
                return None;
            };
            place = next;
        }
        None
    }

    /// The method of this name and descriptor that the class of a reference itself declares (JVMS 4.6). Takes no
    /// memory.
    pub fn declared_method(&self, method: Reference<'_>) -> Option<MemberPlace>
        ensures found { option_map (λ p. member_in self.now (reference_of method.entry) p) result
            ≡ method_in_class self.now any_method (reference_of method.entry) method.entry.class.now }
        ensures place { IfSome result (IsMethodAt self.now (reference_of method.entry)) }
    {
        self.method_in(method.class, method, Wanted::Any)
    }

    /// The field of this name and descriptor that the class of a reference itself declares (JVMS 4.5). Takes no memory.
    pub fn declared_field(&self, field: Reference<'_>) -> Option<MemberPlace>
        ensures found { option_map (λ p. member_in self.now (reference_of field.entry) p) result
            ≡ field_in_class self.now (reference_of field.entry) field.entry.class.now }
        ensures place { IfSome result (IsFieldAt self.now (reference_of field.entry)) }
    {
        self.field_in(field.class, field)
    }

    /// The field that a class itself declares.
    pub(crate) fn field_in(&self, class: &[u8], field: Reference<'_>) -> Option<MemberPlace>
        ensures found { option_map (λ p. member_in self.now (reference_of field.entry) p) result
            ≡ field_in_class self.now (reference_of field.entry) class.now }
        ensures place { IfSome result (IsFieldAt self.now (reference_of field.entry)) }
    {
        self.sought(field).field_in(class)
    }
}
