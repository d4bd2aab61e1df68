//! Methods by their numbers.

ghost use Rattle.std.specs.Prelude.{◌≡◌, ◌++◌, ◌==◌, ◌&&◌, ◌<◌, ◌^◌, Some, length, option_map, slice_get, slice_index_or, IfOk, OnOk};
ghost use Rattle.model.specs.Classes.{Program};
ghost use Rattle.method_tables.specs.method_links.Methods.{methods_of, member_at, Names};
ghost use Rattle.method_tables.specs.method_links.Numbers.{AreNumbersOf, is_at, places_in, table_of};

use hierarchy::{ClassSet, MemberPlace};
use std::alloc::{AllocError, Global};
use std::marker::Model;

/// The numbers of the methods of a set of classes: class by class, the built-in ones first, in the order in which
/// each class declares them, from 0 on.
#[derive(Drop)]
pub struct MethodNumbers {
    /// For each class the number of its first method.
    firsts: Vec<usize>,
    /// For each number where its method stands.
    places: Vec<MemberPlace>,
}

impl Model for MethodNumbers {
    ghost use Rattle.method_tables.specs.method_links.Numbers.{NumberTable};

    ghost Value = { NumberTable };

    ghost view = { λ n. record { firsts = n.firsts.items; places = n.places.items } };
}

/// Adds the places of so many methods of a class.
fn add_places(places: &mut Vec<MemberPlace>, class: usize, count: usize) -> Result<(), AllocError>
    ensures { OnOk result (places.new.items ≡ places.old.items ++ places_in class 0 count) }
{
    for member in 0..count {
        places.push(MemberPlace { class, member })?;
    }
    Ok(())
}

/// The numbers of the methods, as they are counted.
fn counted(alloc: Global, set: &ClassSet) -> Result<MethodNumbers, AllocError>
    ensures { IfOk result (λ numbers. numbers ≡ table_of set.now) }
{
    let mut firsts = Vec::new(alloc);
    let mut places = Vec::new(alloc);
    for class in 0..set.count() {
        let Some(file) = set.class_at(class) else {
            return Ok(MethodNumbers { firsts, places });
        };
        firsts.push(places.len())?;
        add_places(&mut places, class, file.methods.len())?;
    }
    Ok(MethodNumbers { firsts, places })
}

fn is_same(a: MemberPlace, b: MemberPlace) -> bool
    ensures { result ≡ (a.class == b.class && a.member == b.member) }
{
    a.class == b.class && a.member == b.member
}

impl MethodNumbers {
    /// The numbers of the methods of a set. This alone takes memory.
    pub fn new(alloc: Global, set: &ClassSet) -> Result<MethodNumbers, AllocError>
        ensures { IfOk result (AreNumbersOf set.now) }
    {
        Ok(counted(alloc, set)?)
    }

    /// How many methods there are.
    pub fn count(&self) -> usize
        ensures places { result ≡ length self.now.places }
        ensures fits { length self.now.places < 2 ^ 64 }
        ensures methods { (files : Program) → AreNumbersOf files self.now → result ≡ length (methods_of files) }
    {
        self.places.len()
    }

    fn stored(&self, number: usize) -> Option<&MemberPlace>
        ensures { option_map (λ p. p.now) result ≡ slice_get self.now.places number }
    {
        self.places.get(number)
    }

    fn at(&self, number: usize) -> Option<MemberPlace>
        ensures { result ≡ slice_get self.now.places number }
    {
        match self.stored(number) {
            Some(place) => Some(*place),
            None => None,
        }
    }

    /// Where the method of a number stands.
    pub fn place(&self, number: usize) -> Option<MemberPlace>
        ensures place { result ≡ slice_get self.now.places number }
        ensures method { (files : Program) → AreNumbersOf files self.now
            → option_map (member_at files) result ≡ option_map (λ m. Some m) (slice_get (methods_of files) number) }
    {
        self.at(number)
    }

    /// The number of the first method of the class at a place.
    fn first(&self, class: usize) -> usize
        ensures { result ≡ slice_index_or self.now.firsts class 0 }
    {
        self.firsts.get(class).copied().unwrap_or(0)
    }

    /// Whether a place stands at a number.
    fn stands_at(&self, number: usize, place: MemberPlace) -> bool
        ensures fits { length self.now.places < 2 ^ 64 }
        ensures stands { result ≡ is_at self.now.places number place }
    {
        if number >= self.count() {
            return false;
        }
        match self.at(number) {
            Some(found) => is_same(found, place),
            None => false,
        }
    }

    /// The number of the method at a place.
    pub fn number_of(&self, place: MemberPlace) -> Option<usize>
        ensures { (files : Program) → AreNumbersOf files self.now → Names files result (member_at files place) }
    {
        let number = self.first(place.class).saturating_add(place.member);
        if !self.stands_at(number, place) {
            return None;
        }
        Some(number)
    }
}
