//! The words that repeat a run of a sweep.

ghost use Rattle.std.specs.Prelude.{◌≡◌, ◌++◌, IfOk, OnOk, string_bytes};
ghost use Rattle.engines.specs.Sweeps as spec;

use command_line::{LimitOptions, Run, SweepOptions, SweepPolicy};
use std::alloc::{AllocError, Global};

/// An option with its number, where it is asked for.
fn push_number(
    alloc: Global,
    words: &mut String,
    name: &str,
    number: Option<u32>,
) -> Result<(), AllocError>
    ensures { OnOk result (string_bytes words.new ≡ string_bytes words.old ++ spec.number_words name.now number) }
{
    match number {
        Some(number) => words.push_str(format!(in alloc; "{name}{number}")?.as_str()),
        None => Ok(()),
    }
}

/// The limits that are asked for.
fn push_limits(alloc: Global, words: &mut String, limits: &LimitOptions) -> Result<(), AllocError>
    ensures { OnOk result (string_bytes words.new ≡ string_bytes words.old ++ spec.limit_words limits.now) }
{
    push_number(alloc, words, " --objects ", limits.objects)?;
    push_number(alloc, words, " --cells ", limits.cells)?;
    push_number(alloc, words, " --monitors ", limits.monitors)?;
    push_number(alloc, words, " --threads ", limits.threads)?;
    push_number(alloc, words, " --frames ", limits.frames)
}

/// That the files stand alone, where that is asked for.
fn push_alone(words: &mut String, alone: bool) -> Result<(), AllocError>
    ensures { OnOk result (string_bytes words.new ≡ string_bytes words.old ++ spec.alone_words alone) }
{
    if alone {
        return words.push_str(" --files-alone");
    }
    Ok(())
}

/// The class whose main is run, where it is named.
fn push_main(words: &mut String, main: &Option<String>) -> Result<(), AllocError>
    ensures { OnOk result (string_bytes words.new ≡ string_bytes words.old ++ spec.main_words main.now) }
{
    match main {
        Some(name) => {
            words.push_str(" --main ")?;
            words.push_str(name.as_str())
        }
        None => Ok(()),
    }
}

/// The files.
fn push_files(words: &mut String, files: &[String]) -> Result<(), AllocError>
    ensures { OnOk result (string_bytes words.new ≡ string_bytes words.old ++ spec.file_words files.now) }
{
    for file in files {
        words.push_str(" ")?;
        words.push_str(file.as_str())?;
    }
    Ok(())
}

/// The policy, unless it is the usual one.
fn push_policy(words: &mut String, policy: SweepPolicy) -> Result<(), AllocError>
    ensures { OnOk result (string_bytes words.new ≡ string_bytes words.old ++ spec.policy_words policy) }
{
    match policy {
        SweepPolicy::Mixed => Ok(()),
        SweepPolicy::Random => words.push_str(" --policy random"),
    }
}

/// The flag that has the races of the run told, where the sweep is for one.
fn push_race_flag(words: &mut String, for_race: bool) -> Result<(), AllocError>
    ensures { OnOk result (string_bytes words.new ≡ string_bytes words.old ++ spec.race_words for_race) }
{
    if for_race {
        return words.push_str(" --races");
    }
    Ok(())
}

/// The words behind `jvm run --seed N` that repeat a run of a sweep. The only error is a want of memory.
pub(crate) fn repeat_words(
    alloc: Global,
    run: &Run,
    sweep: &SweepOptions,
) -> Result<String, AllocError>
    ensures { IfOk result (λ words. string_bytes words ≡ spec.repeat_words run.now sweep.now) }
{
    let mut words = String::new(alloc);
    push_race_flag(&mut words, sweep.for_race)?;
    push_policy(&mut words, sweep.policy)?;
    push_limits(alloc, &mut words, &run.limits)?;
    push_alone(&mut words, run.files_alone)?;
    push_main(&mut words, &run.main)?;
    push_files(&mut words, run.files.as_slice())?;
    Ok(words)
}
