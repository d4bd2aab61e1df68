//! Whether a class is a subclass of another, from place to place.

ghost use Rattle.std.specs.Prelude.{◌≡◌, Some, None, false};
ghost use Rattle.std.specs.Option.{option_and_then, option_map_or};
ghost use Rattle.model.specs.Names.{name_eq};
ghost use Rattle.model.specs.Classes.{super_name_of, is_subclass};
ghost use Rattle.hierarchy.specs.Places.{class_at, place_of, name_at};

use crate::set::ClassSet;
use class_tree::superclass_name;

impl ClassSet {
    /// Whether the class at a place names this direct superclass.
    fn names_superclass(&self, class: usize, name: &[u8]) -> bool
        ensures { result ≡ option_map_or (λ s.
            name_eq s name.now) (option_and_then super_name_of (class_at self.now class)) false }
    {
        let Some(class) = self.class_at(class) else {
            return false;
        };
        match superclass_name(class) {
            Some(superclass) => superclass == name,
            None => false,
        }
    }

    /// Whether the class at a place is that at another, or a subclass of it.
    fn is_subclass_by_places(&self, class: usize, superclass: usize) -> bool
        requires class { place_of self.now (name_at self.now class) ≡ Some class }
        requires superclass { place_of self.now (name_at self.now superclass) ≡ Some superclass }
        ensures { result ≡ is_subclass self.now (name_at self.now class) (name_at self.now superclass) }
    {
        let mut place = class;
        for _step in 0..self.count() {
            if place == superclass {
                return true;
            }
            let Some(next) = self.superclass_place(place) else {
                return false;
            };
            place = next;
        }
        place == superclass
    }

    /// Whether the class at a place is below a name that no class has.
    pub(crate) fn is_below_absent(&self, class: usize, name: &[u8]) -> bool
        requires class { place_of self.now (name_at self.now class) ≡ Some class }
        requires absent { place_of self.now name.now ≡ None }
        ensures { result ≡ is_subclass self.now (name_at self.now class) name.now }
    {
        let mut place = class;
        for _step in 0..self.count() {
            let Some(next) = self.superclass_place(place) else {
                return self.names_superclass(place, name);
            };
            place = next;
        }
        false
    }

    /// What `is_subclass` answers, step by step.
    pub(crate) fn is_subclass_by_steps(&self, class: &[u8], superclass: &[u8]) -> bool
        ensures { result ≡ is_subclass self.now class.now superclass.now }
    {
        let Some(place) = self.place_of(class) else {
            return class == superclass;
        };
        match self.place_of(superclass) {
            Some(above) => self.is_subclass_by_places(place, above),
            None => self.is_below_absent(place, superclass),
        }
    }
}
