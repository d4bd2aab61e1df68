//! The class whose methods an object has.

ghost use Rattle.machine_state.specs.method_selection.Receivers.{IsReceiverClass};

use heap::ObjectKind;

/// The number of the class whose methods an object has: that of an instance is its class, that of an array Object
/// (JVMS 2.4, JLS 10.7).
pub fn class_of_kind(kind: ObjectKind) -> u32
    ensures { IsReceiverClass kind result }
{
    match kind {
        ObjectKind::Instance { class } => class,
        ObjectKind::Ints | ObjectKind::References { .. } | ObjectKind::Narrow(_) => 0,
    }
}
