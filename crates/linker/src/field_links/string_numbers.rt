//! The texts of string constants, by their numbers.

ghost use Rattle.std.specs.Prelude.{◌≡◌, [], length, map, IfOk, OnOk};
ghost use Rattle.std.specs.List.{flat_map, position_or_len};
ghost use Rattle.std.specs.Option.{option_and_then};
ghost use Rattle.model.specs.BuiltIn.{built_in_classes};
ghost use Rattle.model.specs.Classes.{Program};
ghost use Rattle.model.specs.Names.{name_eq};
ghost use Rattle.model.specs.Pool.{string_at};
ghost use Rattle.model.specs.StringConstants.{division_text, main_text, texts_in, file_texts, machine_texts, string_texts};
ghost use Rattle.model.specs.Texts.{decoded};
ghost use Rattle.classfile.specs.View.{file_of};
ghost use Rattle.link_conditions.specs.limits_of_linking.Texts.{with_texts};
ghost use Rattle.linker.specs.field_links.Numbers.{number_in, text_number, string_number, IsStringRow, SayNumbers, AreStringNumbers};

use classfile::ClassFile;
use constant_pool::modified_utf8::decode;
use hierarchy::ClassSet;
use link_conditions::limits_of_linking::{TextSet, add_texts};
use model::BUILT_IN_CLASSES;
use std::alloc::{AllocError, Global};
use std::marker::Model;

/// For each String of the constant pools of a program's classes the number of its text, and the texts. Equal texts have
/// one number, whichever classes name them; they count from 0: those of the files in their order, then those of the
/// built-in classes, then `main` and `/ by zero`.
#[derive(Drop)]
pub struct StringNumbers {
    /// For each class those that its constant pool has, by their index.
    rows: Vec<Vec<Option<usize>>>,
    /// Each in UTF-16 code units.
    texts: Vec<Vec<u16>>,
    /// The number of the empty text.
    empty: usize,
    /// The number of what a division by zero tells.
    division: usize,
    /// The number of the name of the first thread.
    main: usize,
}

impl Model for StringNumbers {
    ghost use Rattle.std.specs.Prelude.{map};
    ghost use Rattle.linker.specs.field_links.Numbers.{StringTables};

    ghost Value = { StringTables };

    ghost view = { λ s. record {
      rows = map (λ row. row.items) s.rows.items;
      texts = map (λ text. text.items) s.texts.items;
      empty = s.empty;
      division = s.division;
      main = s.main;
    } };
}

/// The texts of the string constants of files.
fn texts_of_files(alloc: Global, set: &ClassSet) -> Result<TextSet, AllocError>
    ensures { IfOk result (λ texts. texts ≡ file_texts set.now) }
{
    let mut texts = TextSet::new(alloc);
    for number in 0..set.file_count() {
        let Some(file) = set.file_at(number) else {
            return Ok(texts);
        };
        add_texts(alloc, &mut texts, file)?;
    }
    Ok(texts)
}

/// Adds the texts of the string constants of the built-in classes.
fn add_built_in_texts(alloc: Global, set: &ClassSet, texts: &mut TextSet) -> Result<(), AllocError>
    ensures { OnOk result (texts.new ≡ with_texts texts.old (flat_map texts_in built_in_classes)) }
{
    for place in 0..BUILT_IN_CLASSES {
        let Some(class) = set.class_at(place) else {
            return Ok(());
        };
        add_texts(alloc, texts, class)?;
    }
    Ok(())
}

/// Adds the texts that the machine itself names: the name of the main thread, and what is told of a division by zero.
fn add_machine_texts(alloc: Global, texts: &mut TextSet) -> Result<(), AllocError>
    ensures { OnOk result (texts.new ≡ with_texts texts.old machine_texts) }
{
    texts.add(alloc, b"main")?;
    texts.add(alloc, b"/ by zero")
}

/// The texts of all string constants: those of files, then of the built-in classes, then those that the machine itself
/// names.
fn all_texts(alloc: Global, set: &ClassSet) -> Result<TextSet, AllocError>
    ensures { IfOk result (λ texts. texts ≡ string_texts set.now) }
{
    let mut texts = texts_of_files(alloc, set)?;
    add_built_in_texts(alloc, set, &mut texts)?;
    add_machine_texts(alloc, &mut texts)?;
    Ok(texts)
}

/// The texts in their order, in UTF-16 code units.
fn decoded_texts(alloc: Global, texts: &TextSet) -> Result<Vec<Vec<u16>>, AllocError>
    ensures { IfOk result (λ all. map (λ text. text.items) all.items ≡ map decoded texts.now) }
{
    let mut all = Vec::new(alloc);
    for number in 0..texts.count() {
        let Some(bytes) = texts.text(number) else {
            return Ok(all);
        };
        all.push(decode(alloc, bytes)?)?;
    }
    Ok(all)
}

/// The number of a text, or how many texts there are.
fn number_or_count(texts: &TextSet, text: &[u8]) -> usize
    ensures { result ≡ position_or_len (name_eq text.now) texts.now }
{
    match texts.number_of(text) {
        Some(number) => number,
        None => texts.count(),
    }
}

/// The number of the text of the String of an index.
fn number_of(texts: &TextSet, file: &ClassFile, index: u16) -> Option<usize>
    ensures { result ≡ option_and_then (text_number texts.now) (string_at file.now.pool index) }
{
    match file.pool.string(index) {
        Some(text) => texts.number_of(text),
        None => None,
    }
}

/// The numbers of the texts of a file's Strings, by the index.
fn number_row(
    alloc: Global,
    texts: &TextSet,
    file: &ClassFile,
) -> Result<Vec<Option<usize>>, AllocError>
    ensures { IfOk result (λ row. IsStringRow texts.now (file_of file.now) row.items) }
{
    let mut row = Vec::new(alloc);
    let indices = (file.pool.constants().len() + 1).min(0x1_0000);
    for index in 0..indices {
        row.push(number_of(texts, file, index as u16))?;
    }
    Ok(row)
}

/// The numbers of the texts of each class's Strings.
fn number_rows(
    alloc: Global,
    set: &ClassSet,
    texts: &TextSet,
) -> Result<Vec<Vec<Option<usize>>>, AllocError>
    requires { texts.now ≡ string_texts set.now }
    ensures { IfOk result (λ rows. SayNumbers set.now (map (λ row. row.items) rows.items)) }
{
    let mut rows = Vec::new(alloc);
    for place in 0..set.count() {
        let Some(file) = set.class_at(place) else {
            return Ok(rows);
        };
        rows.push(number_row(alloc, texts, file)?)?;
    }
    Ok(rows)
}

/// What a row says of an index.
fn entry_of_row(row: &[Option<usize>], index: u16) -> Option<usize>
    ensures { result ≡ number_in row.now index }
{
    row.get(index as usize).copied().unwrap_or(None)
}

impl StringNumbers {
    /// The numbers in a set of classes. This alone takes memory.
    pub fn new(alloc: Global, set: &ClassSet) -> Result<StringNumbers, AllocError>
        ensures { IfOk result (λ numbers. AreStringNumbers set.now numbers) }
    {
        let texts = all_texts(alloc, set)?;
        Ok(StringNumbers {
            rows: number_rows(alloc, set, &texts)?,
            texts: decoded_texts(alloc, &texts)?,
            empty: number_or_count(&texts, b""),
            division: number_or_count(&texts, b"/ by zero"),
            main: number_or_count(&texts, b"main"),
        })
    }

    /// The number of the text of the String of an index, in the constant pool of the class with a number. `None`
    /// where the index names no String.
    pub fn string(&self, class: usize, index: u16) -> Option<usize>
        ensures { (files : Program) → AreStringNumbers files self.now → result ≡ string_number files class index }
    {
        match self.rows.get(class) {
            Some(row) => entry_of_row(row, index),
            None => None,
        }
    }

    /// How many texts there are.
    pub fn count(&self) -> usize
        ensures { (files : Program) → AreStringNumbers files self.now → result ≡ length (string_texts files) }
    {
        self.texts.len()
    }

    /// The number of the empty text.
    pub fn empty_text(&self) -> usize
        ensures { (files : Program) → AreStringNumbers files self.now
            → result ≡ position_or_len (name_eq []) (string_texts files) }
    {
        self.empty
    }

    /// The number of what a division by zero tells.
    pub fn division_text(&self) -> usize
        ensures { (files : Program) → AreStringNumbers files self.now
            → result ≡ position_or_len (name_eq division_text) (string_texts files) }
    {
        self.division
    }

    /// The number of the name of the first thread.
    pub fn main_text(&self) -> usize
        ensures { (files : Program) → AreStringNumbers files self.now
            → result ≡ position_or_len (name_eq main_text) (string_texts files) }
    {
        self.main
    }

    /// The texts in their order, in UTF-16 code units.
    pub fn into_texts(self) -> Vec<Vec<u16>>
        ensures { (files : Program) → AreStringNumbers files self
            → map (λ text. text.items) result.items ≡ map decoded (string_texts files) }
    {
        self.texts
    }
}
