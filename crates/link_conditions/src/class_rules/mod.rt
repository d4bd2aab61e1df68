//! What the classes of a program have to be to one another (JVMS 4.1, 4.6, 4.10, 5.4.5): where a class file is at odds
//! with the other classes of its program. That no class is above itself is asked elsewhere.
//!
//! # Proved
//!
//! - `first_broken_rule`: it answers a place exactly where one of the conditions of BadHierarchy but for a cycle stands
//!   in the class file (`found`), so that the file is refused as BadHierarchy exactly where it is in a cycle or a place
//!   is answered (`refused`). At that place a rule is broken, and at none before it (`first`): the class itself (its
//!   superclass, its superinterfaces) comes first, then its methods, then the exception entries, method by method. It
//!   holds of sets with cycles and with classes that are missing, too. The caller keeps: no two classes have one name,
//!   as in each set that `ClassSet::new` makes; and the declared methods are those of the set (`AreDeclaredIn`), as
//!   `DeclaredMethods::of_set` makes them. That call alone takes memory.
//! - Of the table of declared methods it is checked when it is made that it tells the access flags of each method. By
//!   these a superclass is passed over only where it declares no method that the class redeclares as it must not. How
//!   much time that saves is not proved.
//!
//! # Not proved
//!
//! - Cases show each condition, with the method or none that the refusal names.

mod class;
mod declared_methods;
mod exception;
mod flags;
mod method;
mod method_table;
mod name;
mod place;
mod rule;
mod suspects;

pub use declared_methods::DeclaredMethods;
pub use place::RulePlace;
pub use rule::first_broken_rule;
