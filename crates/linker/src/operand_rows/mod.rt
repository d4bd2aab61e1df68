//! What the entries of constant pools are for the instructions that name them, in linked code: fields, the classes of
//! `new`, and the constants of `ldc`. One entry at a time, from the links of [`field_links`].
//!
//! # Proved
//!
//! - `field_operand`: the row of a Fieldref of linked files is right (`IsField`): System.out and System.err by the word
//!   of the PrintStream that each has from the start; a static field by the class that declares it and its slot among
//!   the static fields of all files; an instance field by its slot, which whatever may come to be the receiver has,
//!   `this` of a constructor among them (`HaveSlot`); and what a put keeps (`Keeps`). There is a row wherever
//!   `field_links` has a link, as long as its numbers fit in linked code: 16 bits for a class and for a slot of an
//!   object, 32 for a static slot and for a word.
//! - `new_operand`: the class that a `new` names, by its number, how many fields its objects have, and how many of
//!   these count for the limit on cells (`IsNewClass`); there is such a row wherever the three fit in 16 bits.
//! - `constant_operand`: the int, or the word of the Class or the String, that an `ldc` names (`IsConstant`), and
//!   exactly which entries have such a row (`constant_row`).
//!
//! # Not proved
//!
//! - Not shown: that these numbers fit for all linked files. They do by the limits of linking.

mod constant;
mod field;
mod kept;
mod new;
mod word;

pub use constant::constant_operand;
pub use field::field_operand;
pub use kept::kept_as;
pub use new::new_operand;
