//! What is wanted of operands.

ghost use Rattle.std.specs.Prelude.{◌≡◌};
ghost use Rattle.model.specs.Classes.{Program};
ghost use Rattle.model.specs.ReferenceTypes.{ClassType};
ghost use Rattle.model.specs.Types.{AReference};
ghost use Rattle.model.specs.Calls.{of_class, of_named};
ghost use Rattle.model.specs.DescribedTypes.{type_named};
ghost use Rattle.model.specs.Resolution.{is_missing};
ghost use Rattle.hierarchy.specs.Places.{name_at};
ghost use Rattle.instruction_types.specs.operand_types.View.{want_in};
ghost use Rattle.types.specs.described_types.Described.{Gives, type_missing};
ghost use Rattle.instruction_types.specs.Wants.{want_for};

use crate::operand_types::Want;
use crate::places::place_of;
use hierarchy::ClassSet;
use model::built_in::OBJECT;
use types::described_types::{made_type, named_type};
use types::{Element, ReferenceType, VerificationType};

/// Any initialised reference, or null.
pub(crate) const ANY_OBJECT: Want = Want::AReference(ReferenceType {
    dimensions: 0,
    element: Element::Class(OBJECT),
});

/// An array of references, or null.
pub(crate) const REFERENCES: Want = Want::AReference(ReferenceType {
    dimensions: 1,
    element: Element::Class(OBJECT),
});

/// An object of a class, as a type.
pub(crate) fn class_type(class: usize) -> ReferenceType
    ensures { result ≡ record { dimensions = 0; element = Element.Class class } }
{
    ReferenceType {
        dimensions: 0,
        element: Element::Class(class),
    }
}

/// What is passed on to what is declared of a type.
pub(crate) fn want_for(t: VerificationType) -> Want
    ensures { result ≡ want_for t }
{
    match t {
        VerificationType::Unusable => Want::AnInt,
        VerificationType::Int => Want::AnInt,
        VerificationType::Null => Want::AnInt,
        VerificationType::Object(of) => Want::AReference(of),
        VerificationType::Uninitialised { .. } => Want::AnInt,
        VerificationType::UninitialisedThis { .. } => Want::AnInt,
    }
}

/// An object of the class at a place, or null.
pub(crate) fn object_at(set: &ClassSet, class: usize) -> Want
    ensures { want_in set.now result ≡ of_class set.now (name_at set.now class) }
{
    Want::AReference(made_type(set, class_type(class)))
}

/// An object of the class of a name, or null.
pub(crate) fn object_of(set: &ClassSet, class: &[u8]) -> Option<Want>
    ensures { Gives (want_in set.now) (is_missing set.now class.now) (of_class set.now class.now) result }
{
    let Some(place) = place_of(set, class) else {
        return None;
    };
    Some(object_at(set, place))
}

/// An object of the class or of the array type that a class constant names, or null.
pub(crate) fn object_named(set: &ClassSet, name: &[u8]) -> Option<Want>
    ensures { Gives (want_in set.now) (type_missing set.now (type_named name.now)) (of_named set.now name.now) result }
{
    match named_type(set, name) {
        Some(of) => Some(Want::AReference(of)),
        None => None,
    }
}
