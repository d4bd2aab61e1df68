//! A run as a page: one file of HTML that has within it what is told of the run, and shows it without a network.
//!
//! # Proved
//!
//! - `page_of`, memory aside: the page is the frame, with two texts in it, which stand for the lines of a trace and for
//!   the report behind these (`IsPage`). Each is made of line feeds and of what ASCII prints, without `&`, `<` and `>`,
//!   so that no markup begins or ends in it (HTML, 13.2.5); and read by percent-decoding (RFC 3986, 2.1) it gives the
//!   bytes again, whatever they are.
//!
//! # Not proved
//!
//! - What a browser shows of the frame. `compare/pages.py` opens pages of the lessons, and compares what stands there.
//!
//! # Wrong bodies
//!
//! - `less-than-stands`: `<` is kept as it is; refused by `StandsFor`, of `push_data`.
//! - `percent-stands`: the sign of an escape is kept as it is; refused by `StandsFor`, of `push_data`.
//! - `report-comes-first`: the report stands in both places; refused by `IsPage`, of `page_of`.
//! - `frame-has-no-end`: the page doesn't end as the frame does; refused by `IsPage`, of `page_of`.
#![tactic(auto)]

mod frame;
mod page;

pub use frame::{BETWEEN, HEAD, TAIL};
pub use page::page_of;
