//! How a run may go on that has used up its budget.

use command_line::Run;
use std::alloc::{AllocError, Global};

/// A line with two spaces before it that tells how to go on behind the budget of a run.
pub(crate) fn how_to_go_on(alloc: Global, options: &Run) -> Result<String, AllocError> {
    if options.seconds.is_some() {
        return stopped(alloc, options);
    }
    let budget = options.options.budget();
    if budget == u32::MAX {
        return format!(in alloc; "  budget: {budget} events are done, and no more may be\n");
    }
    match &options.record {
        Some(path) => format!(in alloc;
            "  budget: {budget} events are done; `jvm replay --schedule {path} --then-run --budget N` goes on behind them\n"
        ),
        None => format!(in alloc;
            "  budget: {budget} events are done; a greater --budget lets the run go on\n"
        ),
    }
}

/// A line that tells how to go on behind the seconds, or the budget, of a run.
fn stopped(alloc: Global, options: &Run) -> Result<String, AllocError> {
    match &options.record {
        Some(path) => format!(in alloc;
            "  seconds: `jvm replay --schedule {path} --then-run --budget N` goes on behind what was done\n"
        ),
        None => format!(in alloc;
            "  seconds: with more of them, or a greater --budget, the run goes on\n"
        ),
    }
}
