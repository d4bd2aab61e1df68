//! Schedules that are written with places.

ghost use Rattle.std.specs.Prelude.{◌≡◌, [], IfOk, IfSome, IsTrue};
ghost use Rattle.std.specs.Arc.{arc_value};
ghost use Rattle.model.specs.Schedule.{events_of};
ghost use Rattle.schedule.specs.schedule_text.Text.{text_words};
ghost use Rattle.machine.specs.Machines.{IsProgramOf};
ghost use Rattle.place_texts.specs.Places.{deeds_of};
ghost use Rattle.place_texts.specs.Texts.{SpellDeeds};
ghost use Rattle.place_runs.specs.Meaning.{Means};
ghost use Rattle.place_runs.specs.Placing.{IsPlacedText};

use crate::following::Stop;
use crate::names::place_at;
use crate::run::follow_deeds;
use crate::standing::{has_point, point_of};
use code_places::{Point, points_of};
use linked_code::LinkedProgram;
use model::{Event, Limits, ScheduleEntry};
use place_texts::{Deed, Place, PlacedDeed, print_deeds, read_deeds};
use program_runs::worlds::World;
use schedule::Schedule;
use schedule::schedule_text::TextFault;
use std::alloc::{AllocError, Global};
use std::sync::Arc;
use verifier::Verified;

/// Where the next bytecode of a thread is behind each event of an entry, as far as these are done, and whether all are.
fn passed(
    alloc: Global,
    world: &mut World,
    entry: ScheduleEntry,
) -> Result<(Vec<Option<Point>>, bool), AllocError> {
    let mut points = Vec::new(alloc);
    'events: for _ in 0..entry.repeat {
        let (done, _) = world.repeat(entry.event, 1)?;
        if done == 0 {
            return Ok((points, false));
        }
        points.push(point_of(world.machine(), entry.event.thread))?;
    }
    Ok((points, true))
}

/// Whether a thread is at one of these points first behind the last event.
fn is_first(points: &[Point], passed: &[Option<Point>]) -> bool {
    'events: for at in 0..passed.len() {
        if let Some(point) = passed[at] {
            if has_point(points, point.method, point.offset) {
                return at + 1 == passed.len();
            }
        }
    }
    false
}

/// The place to which the events of an entry bring its thread, and no fewer of them: by its line, or else by its
/// offset.
fn place_behind(
    alloc: Global,
    world: &World,
    passed: &[Option<Point>],
) -> Result<Option<Place>, AllocError> {
    let Some(Some(point)) = passed.last() else {
        return Ok(None);
    };
    let linked = world.verified().linked();
    'kinds: for by_line in [true, false] {
        if let Some(place) = place_at(alloc, linked, *point, by_line)? {
            let points = points_of(alloc, linked, &place)?;
            if is_first(points.as_slice(), passed) {
                return Ok(Some(place));
            }
        }
    }
    Ok(None)
}

/// The word of an entry that is done in a world, and whether all of it was.
fn word_of(
    alloc: Global,
    world: &mut World,
    entry: ScheduleEntry,
) -> Result<(Deed, bool), AllocError> {
    let Event { thread, pick } = entry.event;
    let (passed, is_whole) = passed(alloc, world, entry)?;
    if !is_whole || pick > 0 {
        return Ok((Deed::Entry(entry), is_whole));
    }
    match place_behind(alloc, world, passed.as_slice())? {
        Some(place) => Ok((Deed::Until(thread, place), true)),
        None => Ok((Deed::Entry(entry), true)),
    }
}

/// The words of the entries of a schedule over class files that are accepted, under limits: places as far as its
/// events can be done, where there are such.
fn words_of(
    alloc: Global,
    verified: Arc<Verified>,
    program: Arc<LinkedProgram>,
    schedule: &Schedule,
    limits: Limits,
) -> Result<Vec<Deed>, AllocError>
    requires { IsProgramOf (arc_value verified) (arc_value program) }
{
    let mut world = World::open_linked(alloc, verified, program, limits, u32::MAX)?;
    let mut words = Vec::new(alloc);
    let mut is_whole = true;
    'entries: for entry in schedule.entries() {
        if is_whole {
            let (word, whole) = word_of(alloc, &mut world, *entry)?;
            words.push(word)?;
            is_whole = whole;
        } else {
            words.push(Deed::Entry(*entry))?;
        }
    }
    Ok(words)
}

/// Whether two entries are the same.
fn is_same(one: ScheduleEntry, other: ScheduleEntry) -> bool
    ensures { IsTrue result → one ≡ other }
{
    one.event.thread == other.event.thread
        && one.event.pick == other.event.pick
        && one.repeat == other.repeat
}

/// Whether two schedules have the same entries.
fn are_same(one: &Schedule, other: &Schedule) -> bool
    ensures { IsTrue result → one.now ≡ other.now }
{
    if one.len() != other.len() {
        return false;
    }
    'entries: for at in 0..one.len() {
        let left = one.entry(at);
        let right = other.entry(at);
        if !is_same(left, right) {
            return false;
        }
    }
    true
}

/// The words of a text with places; none where it has none.
fn read_back(alloc: Global, text: &[u8]) -> Result<Option<Vec<PlacedDeed>>, AllocError>
    ensures { IfOk result (λ found. IfSome found (λ deeds. SpellDeeds (text_words text.now) (deeds_of deeds.items))) }
{
    match read_deeds(alloc, text) {
        Ok(deeds) => Ok(deeds),
        Err(TextFault::OutOfMemory) => Err(AllocError),
        Err(_fault) => Ok(None),
    }
}

/// Whether all of these words are done, over class files that are accepted, and what is done has the entries of a
/// schedule.
fn stand_for(
    alloc: Global,
    verified: Arc<Verified>,
    program: Arc<LinkedProgram>,
    deeds: &[PlacedDeed],
    schedule: &Schedule,
    limits: Limits,
) -> Result<bool, AllocError>
    requires { IsProgramOf (arc_value verified) (arc_value program) }
    ensures { IfOk result (λ all. IsTrue all
        → Means (arc_value verified) limits.frames [] (deeds_of deeds.now) (events_of schedule.now)) }
{
    let run = follow_deeds(alloc, verified, program, deeds, limits, u32::MAX)?;
    match run.stop {
        Stop::Whole => Ok(are_same(&run.schedule, schedule)),
        Stop::Event(_) | Stop::UsedUp => Ok(false),
    }
}

/// A text with places that stands for the events of a schedule over these class files, under these limits. None where
/// no word has a place, or the events can't all be done. The only error is a want of memory.
pub fn placed_text(
    alloc: Global,
    verified: &Arc<Verified>,
    program: &Arc<LinkedProgram>,
    schedule: &Schedule,
    limits: Limits,
) -> Result<Option<Vec<u8>>, AllocError>
    requires { IsProgramOf (arc_value verified.now) (arc_value program.now) }
    ensures { IfOk result (λ text. IfSome text (λ t.
        IsPlacedText (arc_value verified.now) limits (events_of schedule.now) t.items)) }
{
    let joined = schedule.joined(alloc)?;
    let words = words_of(alloc, verified.clone()?, program.clone()?, &joined, limits)?;
    let text = print_deeds(alloc, words.as_slice())?;
    let Some(deeds) = read_back(alloc, text.as_slice())? else {
        return Ok(None);
    };
    let is_whole = stand_for(
        alloc,
        verified.clone()?,
        program.clone()?,
        deeds.as_slice(),
        &joined,
        limits,
    )?;
    if is_whole { Ok(Some(text)) } else { Ok(None) }
}
