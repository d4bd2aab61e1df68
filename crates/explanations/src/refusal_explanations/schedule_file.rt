//! What is wrong with a file that is no schedule file, and with a text that spells no schedule.

use advice::words::Line;
use schedule::schedule_text::TextFault;
use schedule::{Difference, ScheduleFault};
use std::alloc::{AllocError, Global};

fn words_of(fault: ScheduleFault) -> &'static str {
    match fault {
        ScheduleFault::Truncated => ": the file ends within a field",
        ScheduleFault::Magic => ": the first four bytes are not those of a schedule file",
        ScheduleFault::Version => ": the version byte is neither 1, 2 nor 3",
        ScheduleFault::Repeat =>
            ": an entry has repeat 0, or repeat above 1 with a pick that isn't 0",
        ScheduleFault::Trailing => ": bytes follow the last entry",
        ScheduleFault::OutOfMemory => ": there is no memory for it",
        ScheduleFault::Limits =>
            ": a limit that it was recorded with is out of range, or another one is asked for",
        ScheduleFault::Files =>
            ": it was recorded over another number of class files, or over files of other lengths or contents",
        ScheduleFault::Arguments => ": it gives arguments to main, and no run here does",
    }
}

/// The line, without its end, that tells why the schedule file of this name is refused.
pub fn explain_schedule(
    alloc: Global,
    name: &str,
    fault: ScheduleFault,
) -> Result<Vec<u8>, AllocError> {
    let mut line = Line::new(alloc);
    line.say(name)?;
    line.say(words_of(fault))?;
    Ok(line.into_bytes())
}

/// The line, without its end, that tells in what the class files of these names, counted from 0, are others than those
/// over which the schedule of a name was recorded.
pub fn explain_difference(
    alloc: Global,
    name: &str,
    difference: Difference,
    files: &[String],
) -> Result<Vec<u8>, AllocError> {
    let mut line = Line::new(alloc);
    line.say(name)?;
    match difference {
        Difference::Count => line.say(": it was recorded over another number of class files")?,
        Difference::Length(number) => {
            line.say(": it was recorded over another ")?;
            line.say(named(files, number))?;
            line.say(", of another length")?;
        }
        Difference::Checksum(number) => {
            line.say(": it was recorded over another ")?;
            line.say(named(files, number))?;
            line.say(", with another checksum")?;
        }
        Difference::Library => line.say(": it was recorded with other classes of the library")?,
    }
    Ok(line.into_bytes())
}

/// The name of a file.
fn named(files: &[String], number: usize) -> &str {
    match files.get(number) {
        Some(name) => name.as_str(),
        None => "class file",
    }
}

/// The line, without its end, that tells why the text of a schedule, of this name, is refused.
pub fn explain_text(alloc: Global, name: &str, fault: TextFault) -> Result<Vec<u8>, AllocError> {
    let told = match fault {
        TextFault::Entry(line) => format!(in alloc; "{name}: line {line}: a word is no entry"),
        TextFault::Limits(line) => {
            format!(in alloc;
                "{name}: line {line}: the limits are not five numbers, each in its range"
            )
        }
        TextFault::Lengths(line) => {
            format!(in alloc;
                "{name}: line {line}: the lengths of the class files are not told up to #events"
            )
        }
        TextFault::Checksums(line) => {
            format!(in alloc;
                "{name}: line {line}: sixteen hexadecimal digits for each class file are not told up to #events"
            )
        }
        TextFault::TooMany(line) => format!(in alloc;
            "{name}: line {line}: there are too many words"
        ),
        TextFault::OutOfMemory => format!(in alloc; "{name}: there is no memory for it"),
    };
    Ok(told?.into_bytes())
}
