//! `link FILE [whole]` links class files. Each line of the file has the names of class files, parted by spaces, and
//! makes one program: of each it is told how many files were linked, or why they are refused. With `whole` the linked
//! program is made too, and told how many methods it has. `bench/link.py` times both.

use crate::telling::tell_refusal;
use anyhow::{Context, Result};
use linked_program::linked_program;
use linker::{Linked, link};
use std::env::Args;
use std::fs;

/// The bytes of the files that a line names.
fn files_of(rt: &HostRuntime, line: &str) -> Result<Vec<Vec<u8>>> {
    let mut files = Vec::new(rt.alloc());
    for name in line.split_whitespace() {
        files.push(fs::read(rt, name)?)?;
    }
    Ok(files)
}

/// Tells what is linked, and if this is wanted what its linked program has.
fn tell_linked(rt: &HostRuntime, linked: &Linked, is_whole: bool) -> Result<()> {
    if !is_whole {
        println!(rt; "linked {}", linked.file_count())?;
        return Ok(());
    }
    let program = linked_program(rt.alloc(), linked)?;
    println!(rt;
        "linked {} with {} methods",
        linked.file_count(),
        program.methods.len()
    )?;
    Ok(())
}

/// Tells what is linked of the files that a line names.
fn tell(rt: &HostRuntime, line: &str, is_whole: bool) -> Result<()> {
    let files = files_of(rt, line)?;
    match link(rt.alloc(), &files) {
        Ok(linked) => tell_linked(rt, &linked, is_whole),
        Err(refusal) => tell_refusal(rt, &refusal),
    }
}

pub fn run(rt: &HostRuntime, mut args: Args) -> Result<()> {
    let path = args.next().context("which file")?;
    let is_whole = match args.next() {
        Some(word) => word.as_str() == "whole",
        None => false,
    };
    let lines = fs::read_to_string(rt, path.as_str())?;
    for line in lines.lines() {
        tell(rt, line, is_whole)?;
    }
    Ok(())
}
