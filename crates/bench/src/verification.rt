//! `verify [within N] FILE..` links class files, verifies them, and says how many bytes of code they have and whether
//! they pass; how long the verification alone took it says on standard error. With `within N` it may take so many
//! steps, and not those that the program gives. `bench/verifier.py` times it.

use crate::arguments::files;
use crate::telling::{tell_refusal, tell_time};
use anyhow::{Context, Error, Result};
use classfile::Method;
use hierarchy::ClassSet;
use link_conditions::refusal::Refusal;
use linker::{Linked, link};
use model::BUILT_IN_CLASSES;
use std::alloc::Global;
use std::env::Args;
use std::fs;
use std::time::Instant;
use verifier::{MOST_STEPS, verify_within};

/// How many bytes of code a method has.
fn code_length(method: &Method) -> u64 {
    match method.code() {
        Some(code) => code.code.len() as u64,
        None => 0,
    }
}

/// How many bytes of code the methods of the classes of files have, which are verified.
fn code_of_files(set: &ClassSet) -> u64 {
    let mut bytes: u64 = 0;
    for place in BUILT_IN_CLASSES..set.count() {
        if let Some(class) = set.class_at(place) {
            for method in &class.methods {
                bytes = bytes.saturating_add(code_length(method));
            }
        }
    }
    bytes
}

/// Why classes do not pass, where they do not.
fn refusal_of(alloc: Global, linked: Linked, steps: u64) -> Option<Refusal> {
    match verify_within(alloc, linked, steps) {
        Ok(_) => None,
        Err(refusal) => Some(refusal),
    }
}

/// Verifies linked classes, tells how long it took, and answers why they do not pass, where they do not.
fn timed(rt: &HostRuntime, linked: Linked, steps: u64) -> Result<Option<Refusal>> {
    let start = Instant::now(rt)?;
    let refusal = refusal_of(rt.alloc(), linked, steps);
    tell_time(rt, start)?;
    Ok(refusal)
}

/// Tells whether linked classes pass within so many steps.
fn tell(rt: &HostRuntime, linked: Linked, steps: u64) -> Result<()> {
    let bytes = code_of_files(linked.set());
    match timed(rt, linked, steps)? {
        None => println!(rt; "{bytes} bytes of code verified")?,
        Some(refusal) => {
            print!(rt; "{bytes} bytes of code ")?;
            tell_refusal(rt, &refusal)?;
        }
    }
    Ok(())
}

/// The steps that are given, and the bytes of the files that are named.
fn given(rt: &HostRuntime, mut args: Args) -> Result<(u64, Vec<Vec<u8>>)> {
    let first = args.next().context("which file")?;
    if first.as_str() == "within" {
        let steps = args.next().context("how many steps")?;
        let steps = steps.as_str().parse::<u64>().map_err(Error::from)?;
        return Ok((steps, files(rt, args)?));
    }
    let mut all = files(rt, args)?;
    all.insert(0, fs::read(rt, first.as_str())?)?;
    Ok((MOST_STEPS, all))
}

pub fn run(rt: &HostRuntime, args: Args) -> Result<()> {
    let (steps, files) = given(rt, args)?;
    match link(rt.alloc(), files.as_slice()) {
        Ok(linked) => tell(rt, linked, steps),
        Err(refusal) => tell_refusal(rt, &refusal),
    }
}
