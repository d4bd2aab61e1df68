//! The texts of string constants of all files, each once.

ghost use Rattle.std.specs.Prelude.{◌≡◌, [], length, option_map, position, slice_get, OnOk};
ghost use Rattle.std.specs.Option.{option_to_list};
ghost use Rattle.std.specs.List.{list_any};
ghost use Rattle.constant_pool.specs.View.{entry_of};
ghost use Rattle.classfile.specs.View.{file_of};
ghost use Rattle.model.specs.Names.{name_eq};
ghost use Rattle.model.specs.Pool.{string_of};
ghost use Rattle.model.specs.StringConstants.{texts_in};
ghost use Rattle.link_conditions.specs.limits_of_linking.Texts.{with_text, with_texts};

use classfile::{ClassFile, Constant};
use indexmap::IndexSet;
use std::alloc::{AllocError, Global};
use std::marker::Model;

/// Texts, each once, in the order in which they came.
#[derive(Drop)]
pub struct TextSet {
    texts: IndexSet<Vec<u8>>,
}

impl Model for TextSet {
    ghost use Rattle.std.specs.Prelude.{List, map};
    ghost use Rattle.model.specs.Names.{Name};

    ghost Value = { List Name };

    ghost view = { λ s. map (λ text. text.items) s.texts.keys };
}

impl TextSet {
    /// None yet.
    pub fn new(alloc: Global) -> TextSet
        ensures { result ≡ [] }
    {
        TextSet {
            texts: IndexSet::new(alloc),
        }
    }

    /// How many they are.
    pub fn count(&self) -> usize
        ensures { result ≡ length self.now }
    {
        self.texts.len()
    }

    /// The number of a text that is there; they count from 0.
    pub fn number_of(&self, text: &[u8]) -> Option<usize>
        ensures { result ≡ position (name_eq text.now) self.now }
    {
        self.texts.get_index_of(text)
    }

    /// The text of a number.
    pub fn text(&self, number: usize) -> Option<&[u8]>
        ensures { option_map (λ t. t.now) result ≡ slice_get self.now number }
    {
        match self.texts.get_index(number) {
            Some(text) => Some(text.as_slice()),
            None => None,
        }
    }

    /// Whether a text is there.
    pub fn contains(&self, text: &[u8]) -> bool
        ensures { result ≡ list_any (name_eq text.now) self.now }
    {
        self.texts.contains(text)
    }

    /// Adds a text, unless it is there.
    pub fn add(&mut self, alloc: Global, text: &[u8]) -> Result<(), AllocError>
        ensures { OnOk result (self.new ≡ with_text self.old text.now) }
    {
        if self.contains(text) {
            return Ok(());
        }
        let text = Vec::from_slice(alloc, text)?;
        let Ok(_added) = self.texts.insert(text) else {
            return Err(AllocError);
        };
        Ok(())
    }
}

/// The text of a String, where the entry is one.
fn string_text<'a>(file: &'a ClassFile, constant: &Constant) -> Option<&'a [u8]>
    ensures { option_map (λ t. t.now) result ≡ string_of file.now.pool (entry_of constant.now) }
{
    match constant {
        Constant::String { text } => file.utf8(*text),
        _ => None,
    }
}

/// Adds a text that is there.
fn add_text(alloc: Global, texts: &mut TextSet, text: Option<&[u8]>) -> Result<(), AllocError>
    ensures { OnOk result (texts.new ≡ with_texts texts.old (option_to_list (option_map (λ t. t.now) text.entry))) }
{
    match text {
        Some(text) => texts.add(alloc, text),
        None => Ok(()),
    }
}

/// Adds the texts of a file's string constants.
pub fn add_texts(alloc: Global, texts: &mut TextSet, file: &ClassFile) -> Result<(), AllocError>
    ensures { OnOk result (texts.new ≡ with_texts texts.old (texts_in (file_of file.now))) }
{
    let constants = file.pool.constants();
    for constant in constants {
        add_text(alloc, texts, string_text(file, constant))?;
    }
    Ok(())
}
