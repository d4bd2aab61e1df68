//! What the entries of constant pools name in linked classes (JVMS 5.1, 5.4.3), by numbers: classes, the slots of
//! fields, and the texts of string constants. They are made once, so that nothing is looked up by name later.
//!
//! # Proved
//!
//! - `FieldLinks`, memory aside: `field` gives for each Fieldref of a class what its look-up finds (`field_link`):
//!   System.out or System.err, or a static field by its place in the list of all static fields, or an instance field by
//!   its slot in an object, in the class that declares it. The slot is the same in the objects of all subclasses
//!   (`KeepsSlots`). `slot_count` and `static_count` are the lengths of the definitions' lists; `cell_count` is how
//!   many of the slots count for the limit on cells (`is_cell`).
//! - `ClassNumbers` and `StringNumbers`: a Class entry by the place of its class, a String entry by the place of its
//!   text among all texts (`string_texts`): those of the files, of the built-in classes and of the machine, each once.
//!   `into_texts` gives these in UTF-16 code units (`decoded`); `empty_text`, `division_text` and `main_text` give the
//!   places of the empty one, of `/ by zero` and of `main`. The getters take no memory.
//!
//! # Wrong bodies
//!
//! - `field_links-main_is_no_text`: the machine's text `main` is left out; refused by `add_machine_texts`.
//! - `field_links-main_is_another_text`: the empty text stands for `main`; refused by `StringNumbers::new`.
//! - `field_links-system_err_is_out`: System.err is linked as System.out; refused by `named_link`.
//! - `field_links-hidden_fields_count`: each field counts for the limit on cells; refused by `own_count`.

mod chain;
mod class_numbers;
mod count;
mod link;
mod links;
mod named;
mod row;
mod sizes;
mod slots;
mod statics;
mod string_numbers;

pub use class_numbers::ClassNumbers;
pub use link::FieldLink;
pub use links::FieldLinks;
pub use string_numbers::StringNumbers;
