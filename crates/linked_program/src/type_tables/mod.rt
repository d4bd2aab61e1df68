//! The types that class constants name (JVMS 4.4.1), in linked code: for all classes what the indices of their constant
//! pools are for `checkcast`, `instanceof`, `anewarray` and exception entries, with the component types, and with the
//! table of subclasses, which has a column for each class against which a run tests.
//!
//! # Proved
//!
//! - `TypeTables::new`: one row for each class, of types, component types and catch types, right in each linked program
//!   that has these component types and this table of subclasses, and complete. Each type, component type and caught
//!   class that stands in them can be tested by that table; String has its number; the table says which classes are
//!   below which. The only error is a want of memory.
//!
//! # Not proved
//!
//! - Not proved: that no class has a column in vain.

mod caught;
mod pool_rows;
mod tables;

pub use tables::TypeTables;
