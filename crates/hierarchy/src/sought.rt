//! Look-ups of one member in many classes, by the places of these.

ghost use Rattle.std.specs.Prelude.{◌≡◌, option_map, IfSome};
ghost use Rattle.constant_pool.specs.View.{reference_of};
ghost use Rattle.model.specs.Lookup.{method_in_class, field_in_class};
ghost use Rattle.hierarchy.specs.Places.{member_in, IsFieldAt, IsMethodAt};
ghost use Rattle.hierarchy.specs.Wanted.{wants};
ghost use Rattle.hierarchy.specs.MemberKeys.{HasMemberKeys};
ghost use Rattle.hierarchy.specs.MembersAt.{SoughtIn, method_place, field_place, method_at, field_at};

use crate::declared::{field_place, method_place};
use crate::lookup::{Wanted, counts};
use crate::member_keys::{MemberKey, MemberKeys, place_of_key};
use crate::place::MemberPlace;
use crate::set::ClassSet;
use class_tree::Reference;
use std::marker::Model;

/// A member that is sought in classes of a set, by the numbers of its name and descriptor. The class that its
/// reference names doesn't matter.
#[derive(Drop)]
pub(crate) struct Sought<'a> {
    set: &'a ClassSet,
    keys: &'a MemberKeys,
    member: Reference<'a>,
    key: MemberKey,
}

impl<'a> Model for Sought<'a> {
    ghost use Rattle.constant_pool.specs.View.{reference_of};
    ghost use Rattle.hierarchy.specs.MembersAt.{SoughtIn, IsSought, sought_in};

    ghost Value = { SoughtIn };

    ghost view = { λ s. sought_in s.set.now (reference_of s.member) };

    ghost invariant = { λ s. IsSought s.set.now s.keys.now.texts s.keys.now.classes.items (reference_of s.member) s.key };
}

impl<'a> Sought<'a> {
    /// A member that is sought, by the keys of the members of a set.
    pub(crate) fn new(set: &'a ClassSet, keys: &'a MemberKeys, member: Reference<'a>) -> Sought<'a>
        requires { HasMemberKeys set.now keys.now.texts keys.now.classes.items }
        ensures files { result.files ≡ set.now }
        ensures member { result.member ≡ reference_of member.entry }
    {
        let key = MemberKey {
            name: keys.texts.number_of(member.name),
            descriptor: keys.texts.number_of(member.descriptor),
        };
        Sought {
            set,
            keys,
            member,
            key,
        }
    }

    /// The place among its methods of the one that the class at a place declares.
    fn method_place(&self, class: usize) -> Option<usize>
        ensures { result ≡ method_place self.now.files self.now.member class }
    {
        let Some(file) = self.set.class_at(class) else {
            return None;
        };
        match self.keys.classes.get(class) {
            Some(keys) => place_of_key(&keys.methods, self.key),
            None => method_place(file, self.member.name, self.member.descriptor),
        }
    }

    /// The place among its fields of the one that the class at a place declares.
    fn field_place(&self, class: usize) -> Option<usize>
        ensures { result ≡ field_place self.now.files self.now.member class }
    {
        let Some(file) = self.set.class_at(class) else {
            return None;
        };
        match self.keys.classes.get(class) {
            Some(keys) => place_of_key(&keys.fields, self.key),
            None => field_place(file, self.member.name, self.member.descriptor),
        }
    }

    /// The method that the class at a place declares, where it counts.
    pub(crate) fn method_at(&self, class: usize, wanted: Wanted) -> Option<MemberPlace>
        ensures { result ≡ method_at self.now.files (wants wanted) self.now.member class }
    {
        let Some(file) = self.set.class_at(class) else {
            return None;
        };
        let Some(member) = self.method_place(class) else {
            return None;
        };
        let Some(declared) = file.methods.get(member) else {
            return None;
        };
        if !counts(wanted, declared) {
            return None;
        }
        Some(MemberPlace { class, member })
    }

    /// The field that the class at a place declares.
    pub(crate) fn field_at(&self, class: usize) -> Option<MemberPlace>
        ensures { result ≡ field_at self.now.files self.now.member class }
    {
        match self.field_place(class) {
            Some(member) => Some(MemberPlace { class, member }),
            None => None,
        }
    }

    /// The method that the class of a name declares, where it counts.
    pub(crate) fn method_in(&self, class: &[u8], wanted: Wanted) -> Option<MemberPlace>
        ensures found { option_map (λ p. member_in self.now.files self.now.member p) result
            ≡ method_in_class self.now.files (wants wanted) self.now.member class.now }
        ensures place { IfSome result (IsMethodAt self.now.files self.now.member) }
    {
        match self.set.place_of(class) {
            Some(place) => self.method_at(place, wanted),
            None => None,
        }
    }

    /// The field that the class of a name declares.
    pub(crate) fn field_in(&self, class: &[u8]) -> Option<MemberPlace>
        ensures found { option_map (λ p. member_in self.now.files self.now.member p) result
            ≡ field_in_class self.now.files self.now.member class.now }
        ensures place { IfSome result (IsFieldAt self.now.files self.now.member) }
    {
        match self.set.place_of(class) {
            Some(place) => self.field_at(place),
            None => None,
        }
    }
}
