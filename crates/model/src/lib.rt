//! The plain types that every crate speaks of. What they mean, and what class files mean under a schedule,
//! stands in `specs/`, in the terms of the Java Virtual Machine Specification (JVMS) and of chapter 17 of
//! the Java Language Specification (JLS), both of Java SE 8.
//!
//! # Proved
//!
//! - The definitions have the rules of the whole machine: class files and when they are refused, look-up of fields and
//!   methods, all instructions but those that are left out, exceptions, monitors and wait sets, threads, class
//!   initialisation, the built-in methods, the verifier's typings, limits, reports, listings, and both versions of
//!   schedule files.
//! - `Limits::new` is `Some` exactly where each limit is in its range, and then holds the numbers handed in
//!   (`in_range`, `kept`). `RunCause` and `End` are displayed as the words of the report (`output`).
//! - What `Source` and `Sink` promise of any reader and writer is stated by their methods (`read`, `end`, `lost`,
//!   `written`, `part`, `counted`).
//!
//! # Not proved
//!
//! - Neither proved nor tested by code: that the definitions are the JVMS. They say its rules once more, with its
//!   sections beside them; the theorems of `examples` show what they say on cases.
#![tactic(auto)]

mod builder_method;
pub mod built_in;
mod class_file;
mod device;
mod end;
mod event;
mod instr;
mod limits;
mod monitor_answer;
mod name_method;
mod object_method;
mod primitive;
mod print_method;
mod report;
mod string_method;
mod text_method;
mod value;

pub use builder_method::BuilderMethod;
pub use built_in::BUILT_IN_CLASSES;
pub use class_file::ExceptionEntry;
pub use device::{DeviceFault, Sink, Source};
pub use end::{End, RunCause};
pub use event::{Event, ScheduleEntry};
pub use instr::{
    Arithmetic, ArrayKind, Comparison, Conversion, FieldAccess, Instr, Invocation, Kind, Returned,
    StackMove,
};
pub use limits::Limits;
pub use monitor_answer::MonitorAnswer;
pub use name_method::NameMethod;
pub use object_method::ObjectMethod;
pub use primitive::Primitive;
pub use print_method::PrintMethod;
pub use report::{EndState, Report};
pub use string_method::StringMethod;
pub use text_method::TextMethod;
pub use value::Value;
