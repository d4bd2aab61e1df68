//! The classes of a program, with what is asked of all of them together.

ghost use Rattle.std.specs.Prelude.{◌≡◌, IfOk, IsFalse, OnOk};
ghost use Rattle.model.specs.Linkable.{stands, DuplicateClass};
ghost use Rattle.advice.specs.Told.{Keeps};

use crate::site::Site;
use crate::told::{Told, ToldPlace, push_told};
use crate::words::Line;
use crate::words::class::{say_broken_rule, say_cycle};
use crate::words::place::say_class_place;
use hierarchy::{ClassSet, Hierarchy, first_in_cycle};
use link_conditions::class_rules::{DeclaredMethods, first_broken_rule};
use std::alloc::{AllocError, Global};
use std::marker::Model;

/// The classes of a program, with what is above each of them, the methods that they declare, and the first that is
/// above itself. Contracts see the program.
#[derive(Drop)]
pub(crate) struct Classes {
    pub(crate) hierarchy: Hierarchy,
    methods: DeclaredMethods,
    above_itself: Option<usize>,
}

impl Model for Classes {
    ghost use Rattle.std.specs.Prelude.{IsFalse};
    ghost use Rattle.model.specs.Classes.{Program};
    ghost use Rattle.model.specs.Linkable.{stands, DuplicateClass};
    ghost use Rattle.link_conditions.specs.class_rules.Declared.{AreDeclaredIn};

    ghost Value = { Program };

    ghost view = { λ c. c.hierarchy };

    ghost invariant = { λ c. IsFalse (stands c.hierarchy DuplicateClass) × AreDeclaredIn c.hierarchy c.methods };
}

impl Classes {
    /// The classes of a set.
    pub(crate) fn new(alloc: Global, set: ClassSet) -> Result<Classes, AllocError>
        requires { IsFalse (stands set DuplicateClass) }
        ensures { IfOk result (λ classes. classes ≡ set) }
    {
        let methods = DeclaredMethods::of_set(alloc, &set)?;
        let above_itself = first_in_cycle(alloc, &set)?;
        let hierarchy = Hierarchy::new(alloc, set)?;
        Ok(Classes {
            hierarchy,
            methods,
            above_itself,
        })
    }

    /// The set of the classes.
    pub(crate) fn set(&self) -> &ClassSet
        ensures { result.now ≡ self.now }
    {
        self.hierarchy.set()
    }

    /// Tells what is wrong with the class file at a place among the others (JVMS 4.1, 4.7.3, 5.4.5).
    pub(crate) fn push_rule(
        &self,
        site: &Site<'_>,
        place: usize,
        told: &mut Vec<Told>,
    ) -> Result<(), AllocError>
        ensures { OnOk result (Keeps told.old.items told.new.items) }
    {
        let file = site.facts.file();
        let mut line = Line::new(site.alloc);
        say_class_place(&mut line, site.given, file)?;
        if self.above_itself == Some(place) {
            say_cycle(&mut line, file)?;
        } else if let Some(broken) = first_broken_rule(self.set(), &self.methods, file) {
            say_broken_rule(&mut line, file, broken)?;
        } else {
            return Ok(());
        }
        push_told(told, site.number, ToldPlace::File, line.into_bytes())
    }
}
