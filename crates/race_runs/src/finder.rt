//! What finds the races of a run of a program, event by event.
//!
//! # Proved
//!
//! - `done`: it was told of the actions of an event, each with the number of its place in code (`FindsEvent`).
//!
//! # Wrong bodies
//!
//! - `finder-accesses-have-no-place`: each access is told with the number 0; refused by `watch_all`.

ghost use Rattle.std.specs.Prelude.{◌≡◌, ◌<◌, Some, [], IfOk, OnOk};
ghost use Rattle.race_actions.specs.declared.looking.CodeSite.{CodeSite as SpecSite};
ghost use Rattle.race_actions.specs.event_actions.Told.{LooksAt};
ghost use Rattle.run_races.specs.race_finder.Found.{HasWatched};
ghost use Rattle.race_runs.specs.finder.Events.{FindsEvent, KeepsFound, Watched, label_at};

use linked_code::LinkedProgram;
use linker::Linked;
use machine_state::Shared;
use race_actions::event_actions::EventActions;
use race_actions::looking::CodeSite;
use race_actions::race_tables::RaceTables;
use race_places::run_actions::{Action, RunAction};
use run_races::labels::label_of;
use run_races::race_finder::{RaceFinder, accessed};
use run_races::told_races::ToldRaces;
use std::alloc::{AllocError, Global};

/// Finds the races of a run, of whose events it is told one after another.
#[derive(Drop)]
pub(crate) struct Finder<'a> {
    tables: RaceTables<'a>,
    actions: EventActions,
    races: RaceFinder,
}

/// The number of an action at a place in code; 0 where it reads and writes no variable.
fn label_of_site(site: CodeSite, action: Action) -> u64
    ensures { result ≡ label_at (Some site) action }
{
    match accessed(action) {
        Some((_, is_write)) => label_of(site.method, site.offset, is_write),
        None => 0,
    }
}

/// The same, where a place is known.
fn label_at(site: Option<CodeSite>, action: Action) -> u64
    ensures { result ≡ label_at site action }
{
    match site {
        Some(site) => label_of_site(site, action),
        None => 0,
    }
}

/// An offset is below the length of the longest code (JVMS 4.7.3).
fn offset_is_short(site: CodeSite)
    ensures { site.offset < 65536 }
{}

/// So is that of a place, where one is known.
fn offsets_are_short(site: Option<CodeSite>)
    ensures { (place : SpecSite) → site ≡ Some place → place.offset < 65536 }
{
    match site {
        Some(place) => offset_is_short(place),
        None => {}
    }
}

/// Tells what finds races of the actions of an event of a thread, whose instruction stands at a place in code.
fn watch_all(
    races: &mut RaceFinder,
    site: Option<CodeSite>,
    thread: u16,
    actions: &[Action],
) -> Result<(), AllocError>
    ensures { OnOk result (Watched thread site actions.now races.old races.new) }
{
    'actions: for action in actions {
        races.watch(RunAction {
            thread,
            event: label_at(site, *action),
            action: *action,
        })?;
    }
    Ok(())
}

impl<'a> Finder<'a> {
    /// Of a run of linked class files. The only error is a want of memory.
    pub(crate) fn new(alloc: Global, linked: &'a Linked) -> Result<Finder<'a>, AllocError>
        ensures files { IfOk result (λ finder. finder.tables.linked.now ≡ linked.entry.now) }
        ensures none { IfOk result (λ finder. HasWatched [] finder.races.detector finder.races.told.races.keys) }
    {
        Ok(Finder {
            tables: RaceTables::new(alloc, linked)?,
            actions: EventActions::new(alloc),
            races: RaceFinder::new(alloc),
        })
    }

    /// The races that were found.
    pub(crate) fn into_told(self) -> ToldRaces
        ensures { result ≡ self.entry.races.told }
    {
        self.races.into_told()
    }

    /// Looks at the event of a thread, before it is done.
    pub(crate) fn look(
        &mut self,
        program: &LinkedProgram,
        shared: &Shared,
        thread: u16,
    ) -> Result<(), AllocError>
        ensures looked { OnOk result (LooksAt self.old.tables.linked.now program.now shared.now thread
            self.new.actions) }
        ensures kept { OnOk result (KeepsFound self.old self.new) }
    {
        self.actions.look(&self.tables, program, shared, thread)?;
        Ok(())
    }

    /// Is told that the event was done, and finds which of its actions race with earlier ones.
    pub(crate) fn done(&mut self, shared: &Shared, thread: u16) -> Result<(), AllocError>
        ensures { OnOk result (FindsEvent shared.now thread self.old self.new) }
    {
        self.actions.tell(shared, thread)?;
        let site = self.actions.site();
        offsets_are_short(site);
        watch_all(&mut self.races, site, thread, self.actions.actions())?;
        Ok(())
    }
}
