//! What rows give for the classes that have them: each function here is a theorem, and does nothing.

ghost use Rattle.method_tables.specs.selection_tables.Carried.{AreSelectionsCarried, AreInterfaceSelectionsCarried};

/// What rows select for `invokevirtual`, linked classes with these rows select.
pub fn selections_are_carried()
    ensures holds { AreSelectionsCarried }
{}

/// What rows select for `invokeinterface`, linked classes with these rows select.
pub fn interface_selections_are_carried()
    ensures holds { AreInterfaceSelectionsCarried }
{}
