//! What takes an exception that is thrown (JVMS 2.10): the handlers of linked code, and whether it is an Error.
//!
//! # Proved
//!
//! - Whatever files a program is linked from and whatever objects these show: `handler_of` answers the place of the
//!   first handler in the order of the table that covers the offset and takes the exception, and none where no handler
//!   does. `is_error` tells whether the object of a reference is an Error; it goes up from class to class, since no
//!   instruction tests against Error.
//!
//! # Wrong bodies
//!
//! - `exception_handlers-takes-the-last-handler`: the last handler that fits is taken; refused by `FindsHandler` of
//!   `handler_of`.

mod errors;
mod handlers;

pub use errors::is_error;
pub use handlers::handler_of;
