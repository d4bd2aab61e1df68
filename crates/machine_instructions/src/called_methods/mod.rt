//! The instructions that call methods (JVMS 6.5 invokestatic, invokespecial, invokevirtual, invokeinterface), as
//! events of a thread. That the class of a static method is initialised is asked before.
//!
//! # Proved
//!
//! - In each state in which a thread runs at such an instruction, `invoke_static`, `invoke_special`, `invoke_virtual`,
//!   `invoke_interface` and `println` do what becomes of the event by its instruction (`DoesInstruction`), whatever its
//!   pick. Null under the parameters is a NullPointerException, a receiver that doesn't implement the interface an
//!   IncompatibleClassChangeError, an abstract method an AbstractMethodError. A method with code gets a frame and
//!   enters its monitor; a built-in one is done at once, and a notify wakes the member that is picked. Unless it is
//!   done, nothing has changed. A static synchronized method enters the Class object of the class that declares it.
//!   `call_static`, `call_special`, `call_virtual` and `call_interface` answer that the method is called only where
//!   that is done and nothing that is shared has changed; else nothing has changed at all. That they ever answer so
//!   isn't asked: they spare time.
//!
//! # Not proved
//!
//! - Not proved here: that the class of a static method is initialised first, which is asked elsewhere; that memory
//!   suffices where it is refused.

mod calls;
mod direct_calls;
mod frames;
mod plain_calls;
mod printing;
mod running;

pub use calls::{interface_method, invoke_interface, invoke_virtual, virtual_method};
pub use direct_calls::{class_object, class_object_of, invoke_special, invoke_static};
pub use frames::receiver;
pub use plain_calls::{call_interface, call_special, call_static, call_virtual};
pub use printing::println;
pub use running::entered;
