//! The names of classes.

ghost use Rattle.std.specs.Prelude.{◌≡◌, true, Some};
ghost use Rattle.hierarchy.specs.Places.{place_of};
ghost use Rattle.types.specs.subclass_table.Rows.{FindOwnPlaces};

use classfile::class_name;
use hierarchy::ClassSet;

/// Whether the class of a name stands at a place.
fn is_found_at(set: &ClassSet, name: &[u8], place: usize) -> bool
    ensures { result ≡ true → place_of set.now name.now ≡ Some place }
{
    match set.place_of(name) {
        Some(found) => found == place,
        None => false,
    }
}

/// Whether each class is found by its name, so that no two have one. It is so of each set that was made of files.
pub(crate) fn find_own_places(set: &ClassSet) -> bool
    ensures { result ≡ true → FindOwnPlaces set.now }
{
    for place in 0..set.count() {
        let Some(file) = set.class_at(place) else {
            return false;
        };
        if !is_found_at(set, class_name(file), place) {
            return false;
        }
    }
    true
}
