//! The walk over a class file: each place at which something is wrong is told.

mod code;
mod declarations;
mod method;

pub(crate) use declarations::Site;
