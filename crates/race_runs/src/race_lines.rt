//! The lines of races.
//!
//! # Proved
//!
//! - `push_races`, memory aside: it adds a line for each race that was told, in their order (`AddsRaceLines`). A line
//!   has the variable, a field by its class and its name or an element by its index. Of both accesses it has which they
//!   are, the method and the offset, and the thread.
//!
//! # Not proved
//!
//! - What a line says of an array, and of the line of the source.
//!
//! # Wrong bodies
//!
//! - `race_lines-the-second-access-first`: both accesses that are told are the later one; refused by `push_race`.
//! - `race_lines-writes-are-reads`: a write is told as a read; refused by `kind_word`.

ghost use Rattle.std.specs.Prelude.{◌≡◌, ◌++◌, ◌==◌, OnOk, codes, suc, take, true};
ghost use Rattle.model.specs.Report.{number};
ghost use Rattle.listings.specs.printed_names.Printed.{printed};
ghost use Rattle.method_tables.specs.method_links.Numbers.{AreNumbersOf};
ghost use Rattle.traces.specs.Methods.{IsPlaceOf, name_in};
ghost use Rattle.race_runs.specs.race_lines.Lines.{AddsRaceLines, IsRaceLine, kind_words};
ghost use Rattle.race_runs.specs.race_lines.Lines.{SpellsAccess, SpellsSite, SpellsVariable};
ghost use Rattle.race_runs.specs.race_lines.Pieces.{AddsSpelled, field_name_in, field_place_words};
ghost use Rattle.race_runs.specs.race_lines.Pieces.{offset_place_words, words_of};

use classfile::source_lines::{line_at, source_file};
use heap::Heap;
use hierarchy::{ClassSet, MemberPlace};
use linker::Linked;
use listings::printed_names::push_printed;
use method_tables::method_links::MethodNumbers;
use run_races::told_races::{ELEMENT, Race, RaceAccess, RacedVariable, ToldRaces};
use std::alloc::{AllocError, Global};
use traces::{ProgramNames, push_number, push_words};
use types::method_code::MethodCode;

/// What lines of races are written by: class files with the numbers of their methods, and names of objects.
#[derive(Drop)]
struct RaceNames<'a> {
    alloc: Global,
    linked: &'a Linked,
    numbers: MethodNumbers,
    names: &'a ProgramNames<'a>,
    heap: &'a Heap,
    ghost numbered: { AreNumbersOf linked.now numbers },
}

impl RaceNames<'_> {
    /// Where the method of a number stands.
    fn place(&self, method: u64) -> MemberPlace
        ensures { IsPlaceOf self.now.linked.now method result }
    {
        match self.numbers.place(method as usize) {
            Some(place) => place,
            None => MemberPlace {
                class: 0,
                member: 0,
            },
        }
    }
}

/// The name of the field at a place of a class.
fn field_name(set: &ClassSet, class: u32, place: u32) -> &[u8]
    ensures { result.now ≡ field_name_in set.now class place }
{
    match set.class_at(class as usize) {
        Some(file) => match file.fields.get(place as usize) {
            Some(field) => file.pool.text(field.name),
            None => b"",
        },
        None => b"",
    }
}

/// The name of the method at a place.
fn method_name(set: &ClassSet, place: MemberPlace) -> &[u8]
    ensures { result.now ≡ name_in set.now place }
{
    match set.class_at(place.class) {
        Some(class) => match class.methods.get(place.member) {
            Some(method) => class.pool.text(method.name),
            None => b"",
        },
        None => b"",
    }
}

/// `Counter.n`, of a class and a name.
fn push_member(text: &mut Vec<u8>, class: &[u8], name: &[u8]) -> Result<(), AllocError>
    ensures { OnOk result (text.new.items ≡ text.old.items ++ words_of class.now name.now) }
{
    push_printed(text, class)?;
    push_words(text, ".")?;
    push_printed(text, name)
}

/// `Counter.n`, by the number of the class and the place of the field there.
fn push_field(text: &mut Vec<u8>, set: &ClassSet, class: u32, place: u32) -> Result<(), AllocError>
    ensures { OnOk result (text.new.items ≡ text.old.items ++ field_place_words set.now class place) }
{
    push_member(
        text,
        set.name_at(class as usize),
        field_name(set, class, place),
    )
}

/// `[2] of int[] #34`.
fn push_element(
    text: &mut Vec<u8>,
    names: &RaceNames<'_>,
    variable: RacedVariable,
) -> Result<(), AllocError>
    ensures { OnOk result (AddsSpelled (SpellsVariable true names.now.linked.now variable) text.old.items
        text.new.items) }
{
    let mut array = Vec::new(names.alloc);
    names
        .names
        .push_object(&mut array, names.heap, variable.object)?;
    push_words(text, "[")?;
    push_number(text, u64::from(variable.place))?;
    push_words(text, "] of ")?;
    Ok(text.extend_from_slice(array.as_slice())?)
}

/// `Counter.n`, or `[2] of int[] #34`.
fn push_variable(
    text: &mut Vec<u8>,
    names: &RaceNames<'_>,
    variable: RacedVariable,
) -> Result<(), AllocError>
    ensures { OnOk result (AddsSpelled (SpellsVariable (variable.kind == 2) names.now.linked.now variable)
        text.old.items text.new.items) }
{
    if variable.kind == ELEMENT {
        push_element(text, names, variable)
    } else {
        push_field(text, names.linked.set(), variable.class, variable.place)
    }
}

/// `Counter.run 4`.
fn push_offset(
    text: &mut Vec<u8>,
    set: &ClassSet,
    place: MemberPlace,
    offset: u16,
) -> Result<(), AllocError>
    ensures { OnOk result (text.new.items ≡ text.old.items ++ offset_place_words set.now place offset) }
{
    push_member(text, set.name_at(place.class), method_name(set, place))?;
    push_words(text, " ")?;
    push_number(text, u64::from(offset))
}

/// A line of a source file.
#[derive(Clone, Copy)]
struct SourceLine<'a> {
    source: &'a [u8],
    line: u16,
}

/// The line of the source at an offset of the method at a place, if its class file tells it.
fn source_line(linked: &Linked, place: MemberPlace, offset: u16) -> Option<SourceLine<'_>> {
    let method = MethodCode::new(linked.hierarchy(), place.class, place.member)?;
    let line = line_at(method.file(), method.code(), offset)?;
    let file = linked.set().class_at(place.class)?;
    Some(SourceLine {
        source: source_file(file)?,
        line,
    })
}

/// `Counter.java:12 (Counter.run 4)`.
fn push_sourced(
    text: &mut Vec<u8>,
    set: &ClassSet,
    place: MemberPlace,
    offset: u16,
    line: SourceLine<'_>,
) -> Result<(), AllocError>
    ensures { OnOk result ((told : _) × (text.new.items
        ≡ text.old.items ++ (told ++ (codes " (" ++ (offset_place_words set.now place offset ++ codes ")"))))) }
{
    push_printed(text, line.source)?;
    push_words(text, ":")?;
    push_number(text, u64::from(line.line))?;
    push_words(text, " (")?;
    push_offset(text, set, place, offset)?;
    push_words(text, ")")
}

/// `Counter.java:12 (Counter.run 4)`, or `Counter.run 4` where the class file tells no line.
fn push_site(
    text: &mut Vec<u8>,
    names: &RaceNames<'_>,
    method: u64,
    offset: u16,
) -> Result<(), AllocError>
    ensures { OnOk result (AddsSpelled (SpellsSite names.now.linked.now method offset) text.old.items text.new.items) }
{
    let place = names.place(method);
    match source_line(names.linked, place, offset) {
        Some(line) => push_sourced(text, names.linked.set(), place, offset, line),
        None => push_offset(text, names.linked.set(), place, offset),
    }
}

fn kind_word(is_write: bool) -> &'static str
    ensures { result.now ≡ kind_words is_write }
{
    if is_write { "write" } else { "read" }
}

/// `read at Counter.java:12 (Counter.run 4) by thread 1`.
fn push_access(
    text: &mut Vec<u8>,
    names: &RaceNames<'_>,
    access: RaceAccess,
) -> Result<(), AllocError>
    ensures { OnOk result (AddsSpelled (SpellsAccess names.now.linked.now access) text.old.items text.new.items) }
{
    push_words(text, kind_word(access.is_write))?;
    push_words(text, " at ")?;
    push_site(text, names, access.method, access.offset)?;
    push_words(text, " by thread ")?;
    push_number(text, access.thread as u64)
}

/// `race Counter.n: read at Counter.java:12 (Counter.run 4) by thread 1, write at Counter.java:13 (Counter.run 9) by
/// thread 2`, and a line feed.
fn push_race(text: &mut Vec<u8>, names: &RaceNames<'_>, race: Race) -> Result<(), AllocError>
    ensures { OnOk result (AddsSpelled (IsRaceLine names.now.linked.now race) text.old.items text.new.items) }
{
    push_words(text, "race ")?;
    push_variable(text, names, race.variable)?;
    push_words(text, ": ")?;
    push_access(text, names, race.first)?;
    push_words(text, ", ")?;
    push_access(text, names, race.second)?;
    push_words(text, "\n")
}

/// The line of the race at a place, if there is one.
fn push_at(
    text: &mut Vec<u8>,
    names: &RaceNames<'_>,
    told: &ToldRaces,
    place: usize,
) -> Result<(), AllocError>
    ensures { OnOk result ((before : _)
        → AddsRaceLines names.now.linked.now (take place told.now.races.keys) before text.old.items
        → AddsRaceLines names.now.linked.now (take (suc place) told.now.races.keys) before text.new.items) }
{
    match told.get(place) {
        Some(race) => push_race(text, names, race),
        None => Ok(()),
    }
}

/// The lines of the races that were told.
fn push_told(text: &mut Vec<u8>, names: &RaceNames<'_>, told: &ToldRaces) -> Result<(), AllocError>
    ensures { OnOk result (AddsRaceLines names.now.linked.now told.now.races.keys text.old.items text.new.items) }
{
    'races: for place in 0..told.len() {
        push_at(text, names, told, place)?;
    }
    Ok(())
}

/// A line for each race, in the order of their second accesses. The only error is a want of memory.
pub fn push_races(
    text: &mut Vec<u8>,
    alloc: Global,
    linked: &Linked,
    names: &ProgramNames<'_>,
    heap: &Heap,
    told: &ToldRaces,
) -> Result<(), AllocError>
    ensures { OnOk result (AddsRaceLines linked.now told.now.races.keys text.old.items text.new.items) }
{
    let numbers = MethodNumbers::new(alloc, linked.set())?;
    let names = RaceNames {
        alloc,
        linked,
        numbers,
        names,
        heap,
    };
    push_told(text, &names, told)
}
