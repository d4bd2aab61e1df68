//! The events of a schedule, done by a machine of many threads as far as they go.
//!
//! # Proved
//!
//! - `run_schedule`: whatever run of accepted files a machine shows, it goes on by a front of the schedule, of as many
//!   events as is answered, at none of which a limit stands by the definitions (`within_limits`), and the machine shows
//!   the words of the state to which `run` of the definitions leads. None is left; or the next one is not enabled there
//!   (`is_enabled`); or it is, and the limit that is told stands at it (`LimitStands`), or it takes memory, which is
//!   wanted.

mod run;

pub use run::run_schedule;
