//! Classes by their places in a set.

ghost use Rattle.std.specs.Prelude.{◌≡◌, option_map};
ghost use Rattle.model.specs.Names.{name_eq, java_lang_object};
ghost use Rattle.model.specs.Classes.{superclass_of, is_subclass};
ghost use Rattle.model.specs.TypeJoin.{class_join};
ghost use Rattle.hierarchy.specs.Places.{name_at};
ghost use Rattle.types.specs.Superclasses.{HasSuperclasses};

use hierarchy::ClassSet;
use model::built_in::OBJECT;

/// Whether the classes at two places have one name.
pub fn is_same_class(set: &ClassSet, c: usize, d: usize) -> bool
    ensures { result ≡ name_eq (name_at set.now c) (name_at set.now d) }
{
    c == d || set.name_at(c) == set.name_at(d)
}

pub(crate) fn is_object(set: &ClassSet, class: usize) -> bool
    ensures { result ≡ name_eq (name_at set.now class) java_lang_object }
{
    class == OBJECT || set.name_at(class) == b"java/lang/Object".as_slice()
}

/// Whether the first class is the second, or a subclass of it (JVMS 2.4).
pub(crate) fn is_subclass(set: &ClassSet, class: usize, superclass: usize) -> bool
    ensures { result ≡ is_subclass set.now (name_at set.now class) (name_at set.now superclass) }
{
    class == superclass || set.is_subclass_at(class, superclass)
}

/// The direct superclass.
fn superclass_of(set: &ClassSet, class: usize) -> Option<usize>
    requires { HasSuperclasses set.now }
    ensures { option_map (name_at set.now) result ≡ superclass_of set.now (name_at set.now class) }
{
    let Some(name) = set.superclass_of(set.name_at(class)) else {
        return None;
    };
    set.place_of(name)
}

/// The join as the definition has it, also where superclasses do not end. Takes up to as many steps as the square of
/// the number of classes.
fn join_by_search(set: &ClassSet, c: usize, d: usize) -> Option<usize>
    requires { HasSuperclasses set.now }
    ensures { option_map (name_at set.now) result ≡ class_join set.now (name_at set.now c) (name_at set.now d) }
{
    let mut class = c;
    for _place in 0..set.count() {
        if is_subclass(set, d, class) {
            return Some(class);
        }
        let Some(next) = superclass_of(set, class) else {
            return None;
        };
        class = next;
    }
    if is_subclass(set, d, class) {
        return Some(class);
    }
    None
}

/// The first class, from one upwards, of which another is a subclass. Takes no memory, and where the superclasses of
/// both end, as in linked files, some steps more where they are twice as many.
pub(crate) fn class_join(set: &ClassSet, c: usize, d: usize) -> Option<usize>
    requires { HasSuperclasses set.now }
    ensures { option_map (name_at set.now) result ≡ class_join set.now (name_at set.now c) (name_at set.now d) }
{
    if c == d {
        return Some(c);
    }
    match set.common_superclass(c, d) {
        Some(class) => Some(class),
        None => join_by_search(set, c, d),
    }
}
