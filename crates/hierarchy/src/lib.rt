//! Sets of classes (JVMS 5.3), and which field or method a symbolic reference names in them (JVMS 5.4.3).
//!
//! # Proved
//!
//! `ClassSet` has the classes of a program: the built-in ones, then those of its files. A place counts from the first
//! built-in class on. In the model it is the list of the files' trees.
//!
//! - `ClassSet::new`: what is answered is the set of the files that were handed in, no two of one name and none of a
//!   built-in class's name (`set`, `differ`). `DuplicateClass` names a file whose class has the name of a built-in
//!   class or of a file before it, and is answered only where the condition `DuplicateClass` stands (`refused`). Want
//!   of memory may be answered in the place of either.
//! - Of the getters: `count`, `class_at`, `name_at`, `place_of`, `class_of`, `superclass_of`, `is_interface` and
//!   `is_subclass` are the definitions of the same names; `is_subclass_at` is `is_subclass` of the classes at two
//!   places. `file_count` is how many files there are, and `file_at` the class of the file of a number.
//! - `common_superclass`: a class that it answers is the join of the definitions (`class_join`) of the classes at two
//!   places. None stands for want of a table, and for classes without a join; that it answers each join is not proved.
//! - `declared_field` and `declared_method`: the member that the definition gives (`found`), and where it stands
//!   (`place`). None of these and of the getters takes memory.
//! - A class is found by hashing its name, a member by comparing numbers of its name and descriptor with those of the
//!   members of the class, which are proved to be the numbers of their texts (`HasMemberKeys`). That each class has
//!   such numbers is not proved; without them texts are compared. `is_subclass`, `is_subclass_at` and
//!   `common_superclass` pass superclasses by skips, of which a table is proved to be right (`HasLineages`). That a
//!   skip is long is not proved, nor is that there is a table where superclasses end; without one `is_subclass` takes a
//!   step for each superclass.
//! - `first_in_cycle`: it names the first file, in the order of the files, whose class is above itself (`in_cycle`),
//!   and none where there is no such file. Ranks and ways that a search finds only spare time: they are checked, and
//!   were a check to fail, all that is above each class would be written down.
//! - `Hierarchy` is a set of classes with, for each class, the numbers of the names of its superinterfaces, those of
//!   its superclasses aside; and, where a walk along superclasses would be long, of all that is above it. Of
//!   `Hierarchy::new`: it is that set, memory aside. Each row is made once, by the rows of what is directly above the
//!   class, and once more to check it; with cycles, step by step. When rows of all that is above classes are kept is
//!   not proved, only that look-ups find the definition's member with them and without.
//! - `implements`, `is_subclass_or_implements` and `is_subtype` (also of arrays): they are the definitions of the same
//!   names.
//! - `searched_class`, in whose place `find_method` looks for a method of an array class, is the definition of that name.
//! - `find_field`, `find_method` and `find_interface_method`: the member that the definition gives (`found`), and where
//!   it stands (`place`). All of this is so of any set, also of one with cycles or with names of no class. None of
//!   these calls takes memory.
//!
//! # Not proved
//!
//! - Shown by cases too: look-ups in small sets of classes and interfaces; cycles by superclasses and by interfaces.
//! - Not proved: how long it takes, of which no contract speaks. By the code it grows at most as follows, beyond the
//!   bytes of the files, which linking doesn't limit:
//!   - references take their number times that of the members that a look-up goes through, of which numbers are
//!     compared, and a hash of a name and a descriptor each. Methods that are declared again take the square of the
//!     number of methods along a chain of classes;
//!   - the superinterfaces of a class take the number of its direct ones times the length of their rows, 4 bytes each.
//!     So a ladder of interfaces takes the square of its depth, in memory too;
//!   - a member that no class of a chain declares is sought in the rows of all of its classes. Where these may be more
//!     than four times as many rows and classes as there are classes in all, and a thousand, all that is above each
//!     class is written down, each once, and members are sought there;
//!   - whether a class is a subclass of another, and the first common superclass of two, take some twice the binary
//!     logarithm of the number of superclasses, where superclasses end.
#![tactic(auto)]

mod below;
mod climb;
mod components;
mod cycles;
mod declared;
mod fields;
mod hierarchy;
mod lineage;
mod long_walks;
mod lookup;
mod member_keys;
mod name_table;
mod named_rows;
mod number_set;
mod order;
mod place;
mod ranked_rows;
mod ranks;
mod reference_type;
mod refusal;
mod row;
mod rows;
mod set;
mod sought;

pub use cycles::first_in_cycle;
pub use hierarchy::{Hierarchy, searched_class};
pub use place::MemberPlace;
pub use reference_type::{Innermost, ReferenceType};
pub use refusal::SetRefusal;
pub use set::ClassSet;
