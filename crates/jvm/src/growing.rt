//! What is seen of a run while it goes on: the lines that it has printed, and its record.

ghost use Rattle.std.specs.Prelude.{◌≤◌};

use schedule::recorded_events::RecordedEvents;
use schedule::report::push_text;
use std::fs::OpenOptions;
use std::io::{ErrorKind, Read, Write};
use std::rt::{Clock, Files};
use std::sync::Mutex;
use std::sync::atomic::{AtomicBool, AtomicU64, Ordering};
use std::time::Instant;
use std::{fs, io};

/// How many events are done at the least between two looks at the clock.
const BETWEEN: u32 = 1024;

/// How many milliseconds pass between two times at which what is new is shown.
const PERIOD: u64 = 100;

/// The unit that ends a line.
const LINE_FEED: u16 = 10;

/// What each text begins with in which a record grows.
const FIRST_WORD: &[u8] = b"#growing";

/// What of a run is shown so far.
#[derive(Drop)]
struct Shown {
    /// The file in which the record has grown, if it has.
    part: Option<String>,
    /// How many of the events stand there.
    events: u32,
    /// How many of the printed units are shown.
    printed: usize,
}

/// What is shown of a run while it goes on, ten times a second.
#[derive(Drop)]
pub struct Growing<'a, R> {
    rt: &'a R,
    /// When the command began, where the clock can be read.
    begun: Option<Instant>,
    /// Whether the printed lines are shown as they are printed.
    follows: AtomicBool,
    /// Whether there is a record that grows.
    grows: AtomicBool,
    /// How many times so many events were done when the clock was looked at.
    looks: AtomicU64,
    /// How many periods had passed when what was new was shown.
    periods: AtomicU64,
    /// Whether what is new is to be shown now.
    is_due: AtomicBool,
    /// Nobody waits for it: the gate is shown a run by one at a time.
    shown: Mutex<Shown>,
    /// How many bytes of the report are shown before it is written.
    bytes: AtomicU64,
}

/// The whole lines of units: those up to the last line feed.
fn whole_lines(units: &[u16]) -> &[u16] {
    for at in (0..units.len()).rev() {
        if units[at] == LINE_FEED {
            return units.get(..=at).unwrap_or(&[]);
        }
    }
    &[]
}

impl<'a, R: Clock + Print + Files + AllocGlobal> Growing<'a, R> {
    /// A run of which nothing is shown so far.
    pub fn new(rt: &'a R, begun: Option<Instant>, follows: bool) -> Growing<'a, R> {
        Growing {
            rt,
            begun,
            follows: AtomicBool::new(follows),
            grows: AtomicBool::new(false),
            looks: AtomicU64::new(0),
            periods: AtomicU64::new(0),
            is_due: AtomicBool::new(false),
            shown: Mutex::new(Shown {
                part: None,
                events: 0,
                printed: 0,
            }),
            bytes: AtomicU64::new(0),
        }
    }

    /// The printed lines are shown as they are printed.
    pub fn follow(&self) {
        self.follows.store(true, Ordering::SeqCst);
    }

    /// No printed line is shown before the run ends.
    pub fn show_none(&self) {
        self.follows.store(false, Ordering::SeqCst);
    }

    /// Looks at the clock where enough events are done since the last look, and anything is to be shown.
    pub fn turn_ends(&self, events: u32) {
        if !self.follows.load(Ordering::SeqCst) && !self.grows.load(Ordering::SeqCst) {
            return;
        }
        if rises(&self.looks, u64::from(events / BETWEEN)) {
            self.look();
        }
    }

    /// Whether what is new is to be shown now. It is so once in a period.
    pub fn is_due(&self) -> bool {
        self.is_due.load(Ordering::SeqCst) && self.is_due.swap(false, Ordering::SeqCst)
    }

    fn look(&self) {
        let Some(begun) = self.begun else {
            return;
        };
        let Ok(passed) = begun.elapsed(self.rt) else {
            return;
        };
        let millis = passed.as_millis().min(u128::from(u64::MAX)) as u64;
        if rises(&self.periods, millis / PERIOD) {
            self.is_due.store(true, Ordering::SeqCst);
        }
    }

    /// The whole lines that are printed and not shown so far, if there are some, and are to be shown.
    pub fn new_lines(&self, printed: &[u16]) -> Option<Vec<u8>> {
        if !self.follows.load(Ordering::SeqCst) {
            return None;
        }
        let mut shown = self.shown.try_lock()?;
        let units = whole_lines(printed.get(shown.printed..)?);
        if units.is_empty() {
            return None;
        }
        let mut lines = Vec::new(self.rt.alloc());
        push_text(&mut lines, units).ok()?;
        shown.printed = shown.printed.saturating_add(units.len());
        Some(lines)
    }

    /// Shows lines that come next in the report. Where the output fails, no more are shown before that is written.
    pub fn show(&self, lines: &[u8]) {
        let mut output = io::writer(self.rt);
        let mut left = lines;
        for _ in 0..lines.len() {
            match output.write(left) {
                Ok(written) if written > 0 => {
                    self.bytes.fetch_add(written as u64, Ordering::SeqCst);
                    left = left.get(written..).unwrap_or(&[]);
                }
                Err(error) if error.kind() == ErrorKind::Interrupted => {}
                _ => break,
            }
            if left.is_empty() {
                return;
            }
        }
        self.follows.store(false, Ordering::SeqCst);
    }

    /// How many of so many bytes of the report are shown already. They are told once.
    pub fn take_shown(&self, most: usize) -> usize
        ensures { result ≤ most }
    {
        let shown = self.bytes.load(Ordering::SeqCst).min(most as u64);
        self.bytes.fetch_sub(shown, Ordering::SeqCst);
        shown as usize
    }

    /// Whether a record can grow beside the file at this path. None is to grow beside what is no regular file, nor in a
    /// folder in which none can be made, where that file is there.
    pub fn can_grow(&self, path: &str) -> bool {
        if !self.is_file(path) {
            return true;
        }
        let Ok(part) = self.part_of(path) else {
            return true;
        };
        match self.tried(part.as_str()) {
            Ok(()) => true,
            Err(error) => {
                error.kind() == ErrorKind::PermissionDenied && fs::metadata(self.rt, path).is_ok()
            }
        }
    }

    /// A record begins to grow beside the file at this path, with these bytes.
    pub fn record_begins(&self, path: &str, front: &[u8]) {
        let Ok(part) = self.part_of(path) else {
            return;
        };
        if !self.is_file(path) || !self.is_free(part.as_str()) {
            return;
        }
        let Some(mut shown) = self.shown.try_lock() else {
            return;
        };
        if self.begin_file(part.as_str(), front).is_ok() {
            shown.part = Some(part);
            self.grows.store(true, Ordering::SeqCst);
        }
    }

    /// Writes the events that don't stand in the file so far. Where that fails, it grows no more.
    pub fn grow(&self, events: &RecordedEvents) {
        if !self.grows.load(Ordering::SeqCst) {
            return;
        }
        let Some(mut shown) = self.shown.try_lock() else {
            return;
        };
        let Some(part) = &shown.part else {
            return;
        };
        let Ok(text) = events.text_behind(self.rt.alloc(), shown.events) else {
            return;
        };
        match self.append(part.as_str(), text.as_slice()) {
            Ok(()) => shown.events = events.len(),
            Err(_) => self.grows.store(false, Ordering::SeqCst),
        }
    }

    /// The file of the record is made, and the one that has grown goes.
    pub fn record_is_made(&self) {
        let Some(mut shown) = self.shown.try_lock() else {
            return;
        };
        if let Some(part) = shown.part.take() {
            let _ = fs::remove_file(self.rt, part.as_str());
        }
    }

    /// The path of the file in which the record for another file grows.
    fn part_of(&self, path: &str) -> io::Result<String> {
        Ok(format!(in self.rt.alloc(); "{path}.part")?)
    }

    /// Whether a regular file is at a path, or nothing.
    fn is_file(&self, path: &str) -> bool {
        match fs::metadata(self.rt, path) {
            Ok(found) => found.is_file(),
            Err(error) => error.kind() == ErrorKind::NotFound,
        }
    }

    /// Whether nothing is at a path, or a regular file in which a record has grown before.
    fn is_free(&self, path: &str) -> bool {
        if !self.is_file(path) {
            return false;
        }
        match fs::open(self.rt, path) {
            Ok(file) => has_grown(file),
            Err(error) => error.kind() == ErrorKind::NotFound,
        }
    }

    /// Tries whether a file can be written at a path. What is there stays as it is, and is only opened where it is a
    /// file or a folder.
    fn tried(&self, path: &str) -> io::Result<()> {
        match fs::metadata(self.rt, path) {
            Ok(found) if found.is_file() || found.is_dir() => {
                let _file = OpenOptions::new().write(true).open(self.rt, path)?;
                return Ok(());
            }
            Ok(_) => return Ok(()),
            Err(_) => {
                let _file = OpenOptions::new()
                    .write(true)
                    .create_new(true)
                    .open(self.rt, path)?;
            }
        }
        fs::remove_file(self.rt, path)
    }

    /// Makes a file of these bytes. Where that fails, there is none.
    fn begin_file(&self, path: &str, front: &[u8]) -> io::Result<()> {
        let written = fs::create(self.rt, path)?.write_all(front);
        if written.is_err() {
            let _ = fs::remove_file(self.rt, path);
        }
        written
    }

    fn append(&self, path: &str, bytes: &[u8]) -> io::Result<()> {
        let mut file = OpenOptions::new().append(true).open(self.rt, path)?;
        file.write_all(bytes)
    }
}

/// Whether a file begins as a text in which a record grows. That may be cut off within its first word.
fn has_grown<T: Read + Drop>(file: T) -> bool {
    let mut file = file;
    let mut begun = [0u8; 8];
    match file.read(&mut begun) {
        Ok(length) => is_front(&begun, length),
        Err(_) => false,
    }
}

/// Whether the first word begins with the first so many of these bytes.
fn is_front(bytes: &[u8], length: usize) -> bool {
    FIRST_WORD.starts_with(bytes.get(..length).unwrap_or(&[]))
}

/// Makes a number greater, if it is less, and says so to one of those that do that at the same time.
pub fn rises(number: &AtomicU64, to: u64) -> bool {
    let before = number.load(Ordering::SeqCst);
    before < to
        && number
            .compare_exchange(before, to, Ordering::SeqCst, Ordering::SeqCst)
            .is_ok()
}
