//! The page of a run.

ghost use Rattle.std.specs.Prelude.{◌≡◌, ◌++◌, List, ℕ, IfOk, OnOk, string_bytes};
ghost use Rattle.pages.specs.Pages.{IsPage, StandsFor};

use crate::frame::{BETWEEN, HEAD, TAIL};
use percent_encoding::{AsciiSet, CONTROLS, ascii_set, percent_encode};
use std::alloc::{AllocError, Global};

/// What is escaped: what ASCII doesn't print, but for line feeds, the sign of an escape, and what markup begins or
/// ends with (HTML, 13.2.5).
const ESCAPED: AsciiSet = ascii_set!(
    CONTROLS
        .remove(b'\n')
        .add(b'%')
        .add(b'&')
        .add(b'<')
        .add(b'>')
);

/// Writes bytes behind a page, as text.
fn push_data(page: &mut String, bytes: &[u8]) -> Result<(), AllocError>
    ensures { OnOk result ((text : List ℕ) × (string_bytes page.new ≡ string_bytes page.old ++ text)
        × StandsFor text bytes.now) }
{
    percent_encode(bytes, ESCAPED).append_to(page)
}

/// The page of a run, by the lines of its trace, each an object of JSON, and the report that stands behind them. The
/// only error is a want of memory.
pub fn page_of(alloc: Global, lines: &[u8], report: &[u8]) -> Result<String, AllocError>
    ensures { IfOk result (λ page. IsPage lines.now report.now (string_bytes page)) }
{
    let mut page = String::new(alloc);
    page.push_str(HEAD)?;
    push_data(&mut page, lines)?;
    page.push_str(BETWEEN)?;
    push_data(&mut page, report)?;
    page.push_str(TAIL)?;
    Ok(page)
}
