//! Schedules with places, as they are given to be run.

ghost use Rattle.std.specs.Prelude.{◌≡◌, ℕ, IfErr, IfOk, List, None, Option};
ghost use Rattle.std.specs.Arc.{arc_value};
ghost use Rattle.model.specs.Schedule.{events_of};
ghost use Rattle.place_runs.specs.Followed.{AreEventsOf};
ghost use Rattle.place_texts.specs.Places.{deed_of, deeds_of, place_of};
ghost use Rattle.place_texts.specs.Texts.{place_words};
ghost use Rattle.engines.specs.Engines.{CountsFailure, Reads};
ghost use Rattle.engines.specs.GivenPlaces.{AreThere, IsThere, is_given_up};
ghost use Rattle.engines.specs.PlaceWords.{DeedsGive, IsMissingAt, IsMissingFor, IsTextOf, IsUnfollowed, IsUnreadWords, SpellsWords, WordsGive};

use crate::fault::Fault;
use code_places::{PlaceFault, missing};
use linker::Linked;
use model::{DeviceFault, Limits, Source};
use place_runs::{Followed as EventsOfPlaces, Stop, follow_deeds};
use place_texts::{Deed, Place, PlacedDeed, place_text, read_deeds};
use program_runs::verified_programs::verified_program;
use schedule::schedule_text::{EitherFault, TextFault, read_either};
use schedule::{Recording, Schedule, ScheduleFault};
use std::alloc::{AllocError, Global};
use std::sync::Arc;
use verifier::Verified;

/// What a schedule says: its events, or words of which some have places.
#[derive(Drop)]
pub(crate) enum Words {
    Entries(Schedule),
    Places(Vec<PlacedDeed>),
}

/// A schedule that is to be run, and whether it gives up at a place.
#[derive(Drop)]
pub(crate) struct GivenSchedule {
    pub(crate) schedule: Schedule,
    pub(crate) gives_up: bool,
}

/// A place that isn't there: what of it isn't, its words, and the line of the text in which they stand.
#[derive(Drop)]
pub struct MissingPlace {
    pub fault: PlaceFault,
    pub line: u64,
    pub words: Vec<u8>,
}

/// The schedule that is given as a file or as text, which may have places, and with what it was recorded.
pub(crate) fn read_words<S: Source>(
    alloc: Global,
    file: &mut S,
) -> Result<(Words, Option<Recording>), Fault>
    ensures read { IfOk result (λ read. (bytes : _) × Reads (S.remaining file.old) bytes
        × SpellsWords bytes read.1 read.0) }
    ensures kept { IfErr result (IsUnreadWords (S.remaining file.old)) }
    ensures counted { CountsFailure result (S.failures file.old) (S.failures file.new) }
{
    match file.read_all(alloc) {
        Ok(bytes) => words_of(alloc, bytes.as_slice()),
        Err(DeviceFault::Device) => Err(Fault::Device),
        Err(DeviceFault::Memory) => Err(Fault::Schedule(ScheduleFault::OutOfMemory)),
    }
}

/// What the bytes of a schedule say, and with what it was recorded.
pub(crate) fn words_of(alloc: Global, bytes: &[u8]) -> Result<(Words, Option<Recording>), Fault>
    ensures read { IfOk result (λ read. SpellsWords bytes.now read.1 read.0) }
    ensures kept { (left : Option (List ℕ)) → Reads left bytes.now → IfErr result (IsUnreadWords left) }
    ensures counted { (n : ℕ) → CountsFailure result n n }
{
    match read_either(alloc, bytes) {
        Ok((schedule, recorded)) => Ok((Words::Entries(schedule), recorded)),
        Err(EitherFault::File(fault)) => Err(Fault::Schedule(fault)),
        Err(EitherFault::Text(fault)) => match places_of(alloc, bytes, fault) {
            Ok(words) => Ok((words, None)),
            Err(told) => Err(told),
        },
    }
}

/// The words of a text that spells no schedule without places, for this fault.
fn places_of(alloc: Global, bytes: &[u8], fault: TextFault) -> Result<Words, Fault>
    ensures read { IfOk result (SpellsWords bytes.now None) }
    ensures refused { IfErr result (IsTextOf fault) }
{
    if let TextFault::OutOfMemory = fault {
        return Err(Fault::Text(fault));
    }
    match read_deeds(alloc, bytes) {
        Ok(Some(deeds)) => Ok(Words::Places(deeds)),
        Ok(None) => Err(Fault::Text(fault)),
        Err(told) => Err(Fault::Text(told)),
    }
}

/// The place of a word that isn't there.
fn missing_place(
    alloc: Global,
    place: &Place,
    fault: PlaceFault,
    line: u64,
) -> Result<MissingPlace, AllocError>
    ensures { IfOk result (λ missing. (missing.fault ≡ fault) × (missing.line ≡ line)
        × (missing.words.items ≡ place_words (place_of place.now))) }
{
    let words = place_text(alloc, place)?;
    Ok(MissingPlace { fault, line, words })
}

/// Whether the place of a word, if it has one, is there.
fn check_place(alloc: Global, linked: &Linked, placed: &PlacedDeed) -> Result<(), Fault>
    ensures there { IfOk result (λ _. IsThere linked.now (deed_of placed.now.deed)) }
    ensures missing { IfErr result (IsMissingAt linked.now (deed_of placed.now.deed)) }
{
    match &placed.deed {
        Deed::Entry(_) => Ok(()),
        Deed::Until(_, place) => match missing(alloc, linked, place)? {
            Some(fault) => Err(Fault::Place(missing_place(alloc, place, fault, placed.line)?)),
            None => Ok(()),
        },
    }
}

/// Whether all places of words are there; else the first that isn't.
fn check_places(alloc: Global, linked: &Linked, deeds: &[PlacedDeed]) -> Result<(), Fault>
    ensures there { IfOk result (λ _. AreThere linked.now (deeds_of deeds.now)) }
    ensures missing { IfErr result (IsUnfollowed linked.now (deeds_of deeds.now)) }
{
    'deeds: for placed in deeds {
        check_place(alloc, linked, placed)?;
    }
    Ok(())
}

/// The events of words over class files that are accepted. A place gives up once so many events are done.
pub(crate) fn followed(
    alloc: Global,
    words: Words,
    verified: &Arc<Verified>,
    limits: Limits,
    budget: u32,
) -> Result<GivenSchedule, Fault>
    ensures gives { IfOk result (λ f. WordsGive words (arc_value verified.now) limits budget
        (events_of f.schedule) f.gives_up) }
    ensures missing { IfErr result (IsMissingFor words (arc_value verified.now)) }
{
    match words {
        Words::Entries(schedule) => Ok(GivenSchedule {
            schedule,
            gives_up: false,
        }),
        Words::Places(deeds) => {
            followed_places(alloc, deeds.as_slice(), verified, limits, budget)
        }
    }
}

/// The events of words of which some have places.
fn followed_places(
    alloc: Global,
    deeds: &[PlacedDeed],
    verified: &Arc<Verified>,
    limits: Limits,
    budget: u32,
) -> Result<GivenSchedule, Fault>
    ensures gives { IfOk result (λ f. DeedsGive (deeds_of deeds.now) (arc_value verified.now) limits budget
        (events_of f.schedule) f.gives_up) }
    ensures missing { IfErr result (IsUnfollowed (arc_value verified.now) (deeds_of deeds.now)) }
{
    check_places(alloc, verified.linked(), deeds)?;
    let run = run_of(alloc, deeds, verified, limits, budget)?;
    let gives_up = gives_up(run.stop);
    Ok(GivenSchedule {
        schedule: run.schedule,
        gives_up,
    })
}

/// The events of words, and why there are no more.
fn run_of(
    alloc: Global,
    deeds: &[PlacedDeed],
    verified: &Arc<Verified>,
    limits: Limits,
    budget: u32,
) -> Result<EventsOfPlaces, AllocError>
    ensures { IfOk result (AreEventsOf (arc_value verified.now) limits budget (deeds_of deeds.now)) }
{
    let program = verified_program(alloc, verified)?;
    let copy = verified.clone()?;
    follow_deeds(alloc, copy, program, deeds, limits, budget)
}

/// Whether that is why a run by places has no more events: it gave up at one.
fn gives_up(stop: Stop) -> bool
    ensures { result ≡ is_given_up stop }
{
    match stop {
        Stop::UsedUp => true,
        Stop::Whole | Stop::Event(_) => false,
    }
}

/// The line, without its end, that tells which place isn't there of the schedule of a name: by its words, and the line in
/// which it stands.
pub(crate) fn explain_place(
    alloc: Global,
    name: &str,
    missing: &MissingPlace,
) -> Result<Vec<u8>, AllocError> {
    let told = match missing.fault {
        PlaceFault::Class => ": there is no class of this name",
        PlaceFault::Method => ": the class has no method with code of this name",
        PlaceFault::Line =>
            ": no instruction begins that line, as far as the class file tells its lines",
        PlaceFault::Offset => ": no instruction begins at that offset",
    };
    let line = missing.line;
    let head = format!(in alloc; "{name}: line {line}: ")?;
    let mut text = Vec::from_slice(alloc, head.as_bytes())?;
    text.extend_from_slice(missing.words.as_slice())?;
    text.extend_from_slice(told.as_bytes())?;
    Ok(text)
}
