//! What several of them tell.

use anyhow::Result;
use link_conditions::refusal::Refusal;
use std::io;
use std::time::Instant;

/// Tells why class files are refused.
pub fn tell_refusal(rt: &HostRuntime, refusal: &Refusal) -> Result<()> {
    refusal.write_line(&mut io::writer(rt))?;
    println!(rt; "")?;
    Ok(())
}

/// Tells on standard error how long ago that was.
pub fn tell_time(rt: &HostRuntime, start: Instant) -> Result<()> {
    let elapsed = start.elapsed(rt)?;
    eprintln!(rt; "{} microseconds", elapsed.as_micros())?;
    Ok(())
}
