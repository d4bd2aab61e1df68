//! The names that constant pools name, by their numbers.

ghost use Rattle.std.specs.Prelude.{◌≡◌, [], position, OnOk};
ghost use Rattle.model.specs.Names.{name_eq};
ghost use Rattle.link_conditions.specs.limits_of_linking.Texts.{with_text};

use indexmap::IndexSet;
use std::alloc::{AllocError, Global};
use std::marker::Model;

/// Names, each once, by the numbers in which they came.
#[derive(Drop)]
pub(crate) struct NameNumbers {
    names: IndexSet<Vec<u8>>,
}

impl Model for NameNumbers {
    ghost use Rattle.std.specs.Prelude.{List, map};
    ghost use Rattle.model.specs.Names.{Name};

    ghost Value = { List Name };

    ghost view = { λ s. map (λ name. name.items) s.names.keys };
}

impl NameNumbers {
    pub(crate) fn new(alloc: Global) -> NameNumbers
        ensures { result ≡ [] }
    {
        NameNumbers {
            names: IndexSet::new(alloc),
        }
    }

    /// The number of a name that is there; they count from 0.
    pub(crate) fn number_of(&self, name: &[u8]) -> Option<usize>
        ensures { result ≡ position (name_eq name.now) self.now }
    {
        self.names.get_index_of(name)
    }

    /// Adds a name, unless it is there.
    pub(crate) fn add(&mut self, alloc: Global, name: &[u8]) -> Result<(), AllocError>
        ensures { OnOk result (self.new ≡ with_text self.old name.now) }
    {
        if self.names.contains(name) {
            return Ok(());
        }
        let name = Vec::from_slice(alloc, name)?;
        let Ok(_added) = self.names.insert(name) else {
            return Err(AllocError);
        };
        Ok(())
    }
}
