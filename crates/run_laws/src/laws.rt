//! What types and linked files give, whatever is run: each function here is a theorem, and does nothing.
//!
//! The order of types, what an instruction finds in a typed frame, and what linking gives to that. The lemmas in
//! `proofs/` are there for a crate above to cite.
//!
//! # Proved
//!
//! Of programs in which no class is above itself:
//!
//! - The order of the verifier's reference types is an order (`assignable_is_an_order`), and what is of a type is of
//!   each type above it (`types_go_up`); what an instruction finds in the types of a frame it finds in the values
//!   (`operands_are_found`), and a local instruction leaves values of the types that it leaves (`rows_keep_types`); in
//!   a well-typed state no thread meets a missing instruction or an operand of a wrong kind (`well_typed_is_right`),
//!   and, where the first class has a main with code, no event is answered so (`wrong_kind_is_never_answered`).
//! - In `proofs/laws/` stands also what linking gives (`Linked`, and `LinkedOf` with the files that it names).

ghost use Rattle.model.specs.Classes.{Program};
ghost use Rattle.run_laws.specs.laws.Steps.{HasMain, IsFound, IsKept, IsNeverWrong, IsOrder, IsRight, IsUpward, Rooted};

/// Where no class is above itself, the order of the verifier's reference types is an order.
pub fn assignable_is_an_order()
    ensures holds { (files : Program) → Rooted files → IsOrder files }
{}

/// What is of a type is of each type above it.
pub fn types_go_up()
    ensures holds { (files : Program) → Rooted files → IsUpward files }
{}

/// What an instruction finds in the types of a frame, it finds in the values.
pub fn operands_are_found()
    ensures holds { (files : Program) → Rooted files → IsFound files }
{}

/// After a local instruction the values are of the types that a typing says.
pub fn rows_keep_types()
    ensures holds { (files : Program) → Rooted files → IsKept files }
{}

/// In a well-typed state no thread meets a missing instruction, or an operand of a wrong kind.
pub fn well_typed_is_right()
    ensures holds { (files : Program) → Rooted files → IsRight files }
{}

/// No event at a well-typed state is answered by a wrong kind.
pub fn wrong_kind_is_never_answered()
    ensures holds { (files : Program) → Rooted files → HasMain files → IsNeverWrong files }
{}
