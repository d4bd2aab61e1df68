//! The theory of the search for a typing: each function here is a theorem, and does nothing.
//!
//! A verifier (JVMS 4.10.2) looks for frame types by a worklist: it takes an offset off, asks where its instruction
//! leads, and joins what it leads to with what was found there. Here stands what such a search may rest on, whatever
//! its code is: the join is the least upper bound, rules go down the order, an invariant that each turn keeps, and a
//! weight that each turn lessens. The lemmas in `proofs/` are there for a crate above to cite.
//!
//! # Proved
//!
//! For programs in which no class is above itself (`Rooted`); of instructions also where directly above each interface
//! is Object (`IsOrdered`):
//!
//! - Files that link are so (`linked_files_are_ordered`).
//! - The join of the definitions is the least upper bound of their order, and there is none only where nothing is above
//!   both, for reference types, types on the stack and in local variables, and frame types (`join_is_least`); the order
//!   of frame types is an order (`frame_types_are_ordered`).
//! - What an instruction may find it may find lower, and it then leads to the same offsets, to lower frame types
//!   (`flow_goes_down`). All instructions are in it, with their handlers, the constructor's mark and what `new` asks.
//! - Of a search that says nothing of its order: it begins with the entry type (`a_search_begins`), each turn keeps its
//!   invariant (`a_search_turns`), at its end there is a typing (`a_search_that_ends_is_a_typing`), and where a rule or
//!   a merge fails there is none (`a_search_turns`, `a_search_begins`). Merges may follow one another
//!   (`merges_follow`).
//! - Of tables: an empty one types nothing, and what is set at one offset leaves the others (`tables_hold_a_search`); a
//!   frame type is merged where it fits, where none is yet, and by the join (`a_frame_type_is_merged`); no typing has
//!   one that has no join with what is there, is of another size or where no instruction begins
//!   (`a_frame_type_clashes`).
//! - A merge that changes something and an offset that is taken off lessen the work that is left
//!   (`a_search_gets_lighter`), given a limit on how many types are above each; a join of types under the limit is
//!   under it. Each method has such a limit (`types_of_a_method_are_limited`).
//! - From these: a search over tables ends with a typing or shows that there is none, whichever offset that waits comes
//!   next (`a_method_is_typed_or_not`).

ghost use Rattle.std.specs.Prelude.{ℕ, IsFalse};
ghost use Rattle.model.specs.Names.{Member};
ghost use Rattle.model.specs.Classes.{Program, Body};
ghost use Rattle.model.specs.Linkable.{some_stands};
ghost use Rattle.run_laws.specs.laws.Steps.{Rooted};
ghost use Rattle.run_laws.specs.typing_search.Orders.{IsOrdered, AreJoins, IsFrameOrder, GoesDown};
ghost use Rattle.run_laws.specs.typing_search.Search.{Begins, Turns, Ends, Follows};
ghost use Rattle.run_laws.specs.typing_search.Tables.{AreTables, MergesOne, ClashesOne};
ghost use Rattle.run_laws.specs.typing_search.Weights.{GetsLighter};
ghost use Rattle.run_laws.specs.typing_search.Decided.{IsBounded, IsDecided};

/// Files that link are ordered: no class is above itself, and directly above each interface is Object.
pub fn linked_files_are_ordered()
    ensures holds { (files : Program) → IsFalse (some_stands files) → IsOrdered files }
{}

/// The join of two types or frame types is the least that is above both, and there is none only where nothing is
/// (JVMS 4.10.2.2).
pub fn join_is_least()
    ensures holds { (files : Program) → Rooted files → AreJoins files }
{}

/// The order of frame types is an order.
pub fn frame_types_are_ordered()
    ensures holds { (files : Program) → Rooted files → IsFrameOrder files }
{}

/// What an instruction may find it may find lower, and it then leads to the same offsets, to lower frame types.
pub fn flow_goes_down()
    ensures holds { (files : Program) → IsOrdered files → GoesDown files }
{}

/// A search begins with the entry type; where that can't be merged, there is no typing.
pub fn a_search_begins()
    ensures holds { (files : Program) → IsOrdered files → (method : Member) (body : Body) → Begins files method body }
{}

/// Each turn keeps what a search is; a turn that fails shows that the method has no typing.
pub fn a_search_turns()
    ensures holds { (files : Program) → IsOrdered files → (method : Member) (body : Body) → Turns files method body }
{}

/// A search at whose end nothing waits has found a typing.
pub fn a_search_that_ends_is_a_typing()
    ensures holds { (files : Program) → IsOrdered files → (method : Member) (body : Body) → Ends files method body }
{}

/// Frame types may be merged one after another, in any order.
pub fn merges_follow()
    ensures holds { (files : Program) → IsOrdered files → (method : Member) (body : Body) → Follows files method body }
{}

/// Tables hold a search: an empty one types nothing, and a change at one offset leaves the others.
pub fn tables_hold_a_search()
    ensures holds { AreTables }
{}

/// One frame type is merged into a table where it fits, where none is yet, and by the join.
pub fn a_frame_type_is_merged()
    ensures holds { (files : Program) → IsOrdered files → (method : Member) (body : Body)
        → MergesOne files method body }
{}

/// No typing has a frame type that has no join with what is there, or is of another size, or stands past the end of
/// the code.
pub fn a_frame_type_clashes()
    ensures holds { (files : Program) → IsOrdered files → (method : Member) (body : Body)
        → ClashesOne files method body }
{}

/// Each merge that changes something, and each offset that is taken off, lessens the work of a search; so it ends.
pub fn a_search_gets_lighter()
    ensures holds { (files : Program) → Rooted files → (body : Body) (limit : ℕ) → GetsLighter files body limit }
{}

/// The ranks of the types of a method are limited, so that weights can be given to them.
pub fn types_of_a_method_are_limited()
    ensures holds { (files : Program) (method : Member) (body : Body) → (limit : ℕ)
        × IsBounded files method body limit }
{}

/// A search over a method ends: it finds a typing, or there is none.
pub fn a_method_is_typed_or_not()
    ensures holds { (files : Program) → IsOrdered files → (method : Member) (body : Body)
        → IsDecided files method body }
{}
