//! Verification within few steps: clauses say how many a search takes at most, and not that they end, nor which method
//! is named then.

use crate::class_files::PRINTS_SEVEN;
use crate::program::linked;
use std::alloc::Global;
use std::test::Fail;
use verifier::verify_within;

/// What is told of the file where its steps end. Built-in methods take none.
const TOO_LARGE: &str = "refused 8 TooLarge file 0 method main([Ljava/lang/String;)V";

/// Whether so many steps suffice for a file. Where they don't, its main is named.
fn suffice(alloc: Global, steps: u64) -> Result<bool, Fail> {
    let Err(refusal) = verify_within(alloc, linked(alloc, &PRINTS_SEVEN)?, steps) else {
        return Ok(true);
    };
    let mut text = Vec::new(alloc);
    refusal.write_line(&mut text)?;
    if text.as_slice() == TOO_LARGE.as_bytes() {
        Ok(false)
    } else {
        Err("another refusal".into())
    }
}

#[test]
fn steps_end_in_a_method(rt: HostRuntime) -> Result<(), Fail> {
    let mut refused = 0u32;
    let mut is_verified = false;
    // from no step on twice as many each time, and one more
    for power in 0..21u32 {
        let steps = (1u64 << power) - 1;
        let do_suffice = suffice(rt.alloc(), steps)?;
        assert!(rt; do_suffice || !is_verified, "within {steps}");
        is_verified = do_suffice;
        refused = refused.saturating_add(u32::from(!do_suffice));
    }
    assert!(rt; is_verified && 1 < refused);
    Ok(())
}
