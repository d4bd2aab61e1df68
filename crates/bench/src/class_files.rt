//! `decode FILE` decodes a class file, and says `ok` or its fault. `bench/decode.py` times it.

use anyhow::{Context, Result};
use classfile::{Malformed, decode};
use std::alloc::Global;
use std::env::Args;
use std::fs;

/// Why these bytes are no class file, where they are none.
fn fault_of(alloc: Global, bytes: &[u8]) -> Option<Malformed> {
    match decode(alloc, bytes) {
        Ok(_) => None,
        Err(fault) => Some(fault),
    }
}

pub fn run(rt: &HostRuntime, mut args: Args) -> Result<()> {
    let path = args.next().context("which file")?;
    let bytes = fs::read(rt, path.as_str())?;
    match fault_of(rt.alloc(), bytes.as_slice()) {
        None => println!(rt; "ok")?,
        Some(fault) => println!(rt; "{:?} {}", fault.cause, fault.offset)?,
    }
    Ok(())
}
