//! Where an instruction leads from a frame type, in place.

ghost use Rattle.std.specs.Prelude.{◌≡◌, ◌&&◌, ◌==◌, map, reverse, drop, take, length, slice_index_or, OnOk, IfOk};
ghost use Rattle.model.specs.Classes.{Program};
ghost use Rattle.model.specs.ReferenceTypes.{ClassType};
ghost use Rattle.model.specs.Types.{NullType, OfType};
ghost use Rattle.model.specs.InitialisedTypes.{forgotten, is_uninitialised, is_uninitialised_this, initialised};
ghost use Rattle.hierarchy.specs.Places.{name_at};
ghost use Rattle.types.specs.View.{type_in};

use hierarchy::ClassSet;
use instruction_types::operand_types::Wants;
use types::{Element, ReferenceType, VerificationType, is_same_class};

/// A local variable after a `new`: what it made before is not to be used any more.
fn forgotten(offset: u16, t: VerificationType) -> VerificationType
    ensures { (files : Program) → type_in files result ≡ forgotten offset (type_in files t) }
{
    match t {
        VerificationType::Uninitialised { offset: at, .. } if at == offset => {
            VerificationType::Unusable
        }
        _ => t,
    }
}

fn is_uninitialised(set: &ClassSet, offset: u16, class: usize, t: VerificationType) -> bool
    ensures { result ≡ is_uninitialised offset (name_at set.now class) (type_in set.now t) }
{
    match t {
        VerificationType::Unusable => false,
        VerificationType::Int => false,
        VerificationType::Null => false,
        VerificationType::Object(_) => false,
        VerificationType::Uninitialised {
            offset: at,
            class: of,
        } => at == offset && is_same_class(set, of, class),
        VerificationType::UninitialisedThis { .. } => false,
    }
}

fn is_uninitialised_this(set: &ClassSet, class: usize, t: VerificationType) -> bool
    ensures { result ≡ is_uninitialised_this (name_at set.now class) (type_in set.now t) }
{
    match t {
        VerificationType::Unusable => false,
        VerificationType::Int => false,
        VerificationType::Null => false,
        VerificationType::Object(_) => false,
        VerificationType::Uninitialised { .. } => false,
        VerificationType::UninitialisedThis { class: of } => is_same_class(set, of, class),
    }
}

/// An object of a class.
fn object_of(class: usize) -> VerificationType
    ensures { (files : Program) → type_in files result ≡ OfType (ClassType (name_at files class)) }
{
    VerificationType::Object(ReferenceType {
        dimensions: 0,
        element: Element::Class(class),
    })
}

/// A type after the call of a constructor on a receiver: all copies of the receiver are initialised.
fn initialised(set: &ClassSet, receiver: VerificationType, t: VerificationType) -> VerificationType
    ensures { type_in set.now result ≡ initialised (type_in set.now receiver) (type_in set.now t) }
{
    match receiver {
        VerificationType::Unusable => t,
        VerificationType::Int => t,
        VerificationType::Null => t,
        VerificationType::Object(_) => t,
        VerificationType::Uninitialised { offset, class } => {
            if is_uninitialised(set, offset, class, t) {
                return object_of(class);
            }
            t
        }
        VerificationType::UninitialisedThis { class } => {
            if is_uninitialised_this(set, class, t) {
                return object_of(class);
            }
            t
        }
    }
}

/// Forgets what a `new` made before.
pub(crate) fn forget(offset: u16, types: &mut [VerificationType])
    ensures { (files : Program)
        → map (type_in files) types.new ≡ map (forgotten offset) (map (type_in files) types.old) }
{
    for i in 0..types.len() {
        types[i] = forgotten(offset, types[i]);
    }
}

/// Initialises all copies of a receiver.
pub(crate) fn initialise(set: &ClassSet, receiver: VerificationType, types: &mut [VerificationType])
    ensures { map (type_in set.now) types.new
        ≡ map (initialised (type_in set.now receiver)) (map (type_in set.now) types.old) }
{
    for i in 0..types.len() {
        types[i] = initialised(set, receiver, types[i]);
    }
}

/// An operand, counted from the top; null where there is none.
pub(crate) fn operand(wants: &Wants, stack: &[VerificationType], k: usize) -> VerificationType
    ensures { (files : Program) → type_in files result
        ≡ slice_index_or (take (length wants.now.pops.items) (reverse (map (type_in files) stack.now))) k NullType }
{
    if k < wants.pops.len() && k < stack.len() {
        return stack[stack.len() - 1 - k];
    }
    VerificationType::Null
}

/// Takes the operands off a stack.
pub(crate) fn pop(wants: &Wants, stack: &mut Vec<VerificationType>)
    ensures { (files : Program) → reverse (map (type_in files) stack.new.items)
        ≡ drop (length wants.now.pops.items) (reverse (map (type_in files) stack.old.items)) }
{
    let under = stack.len().saturating_sub(wants.pops.len());
    stack.truncate(under);
}
