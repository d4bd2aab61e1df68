//! What the arguments spell and name.

use anyhow::{Context, Error, Result};
use std::env::Args;
use std::fs;

/// The number that a word spells.
pub fn number(word: Option<String>, what: &'static str) -> Result<u32> {
    let word = word.context(what)?;
    word.as_str().parse::<u32>().map_err(Error::from)
}

/// The bytes of the files that the arguments name.
pub fn files(rt: &HostRuntime, args: Args) -> Result<Vec<Vec<u8>>> {
    let mut files = Vec::new(rt.alloc());
    for path in args {
        files.push(fs::read(rt, path.as_str())?)?;
    }
    Ok(files)
}
