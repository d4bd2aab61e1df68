//! The declared members of the classes of a set, by numbers of the texts that name and describe them.

ghost use Rattle.std.specs.Prelude.{◌≡◌, [], position, map, IfOk, IfSome};
ghost use Rattle.std.specs.List.{list_any};
ghost use Rattle.model.specs.Names.{name_eq};
ghost use Rattle.model.specs.Pool.{utf8_of};
ghost use Rattle.constant_pool.specs.View.{entry_of};
ghost use Rattle.class_tree.specs.View.{field_of, method_of, file_of};
ghost use Rattle.hierarchy.specs.MemberKeys.{number_of, number_at, is_same_number, key_of, is_of_key, is_unnumbered, has_unnumbered, field_key, method_key, has_unnumbered_field, has_unnumbered_method, HasKeys, HasMemberKeys};

use crate::order::is_first_visit;
use crate::set::ClassSet;
use class_tree::{ClassFile, Field, Method};
use constant_pool::Constant;
use indexmap::IndexSet;
use std::alloc::{AllocError, Global};
use std::marker::Model;

/// Texts, each once. The number of a text is its place among them.
#[derive(Drop)]
pub(crate) struct MemberTexts {
    texts: IndexSet<Vec<u8>>,
}

impl Model for MemberTexts {
    ghost use Rattle.std.specs.Prelude.{List, map};
    ghost use Rattle.model.specs.Names.{Name};

    ghost Value = { List Name };

    ghost view = { λ s. map (λ text. text.items) s.texts.keys };
}

impl MemberTexts {
    fn new(alloc: Global) -> MemberTexts {
        MemberTexts {
            texts: IndexSet::new(alloc),
        }
    }

    /// Adds a text, unless it is there.
    fn add(&mut self, alloc: Global, text: &[u8]) -> Result<(), AllocError> {
        if self.texts.contains(text) {
            return Ok(());
        }
        let text = Vec::from_slice(alloc, text)?;
        let Ok(_added) = self.texts.insert(text) else {
            return Err(AllocError);
        };
        Ok(())
    }

    /// The number of a text.
    pub(crate) fn number_of(&self, text: &[u8]) -> Option<usize>
        ensures { result ≡ position (name_eq text.now) self.now }
    {
        self.texts.get_index_of(text)
    }
}

/// The numbers of the name and of the descriptor of a member. None of a text that isn't there, or has no number.
#[derive(Clone, Copy)]
pub(crate) struct MemberKey {
    pub(crate) name: Option<usize>,
    pub(crate) descriptor: Option<usize>,
}

/// The keys of the fields and of the methods that a class declares, in their order.
#[derive(Drop)]
pub(crate) struct ClassKeys {
    pub(crate) fields: Vec<MemberKey>,
    pub(crate) methods: Vec<MemberKey>,
}

/// The texts that name and describe the declared members, each once, and the keys of the first so many classes.
#[derive(Drop)]
pub(crate) struct MemberKeys {
    pub(crate) texts: MemberTexts,
    pub(crate) classes: Vec<ClassKeys>,
}

// ---- texts

/// Adds the text of an index, unless that was come to before.
fn add_text(
    alloc: Global,
    texts: &mut MemberTexts,
    entered: &mut [bool],
    file: &ClassFile,
    index: u16,
) -> Result<(), AllocError> {
    if !is_first_visit(entered, usize::from(index)) {
        return Ok(());
    }
    match file.utf8(index) {
        Some(text) => texts.add(alloc, text),
        None => Ok(()),
    }
}

/// Adds the texts of the members of a class.
fn add_texts_of(
    alloc: Global,
    texts: &mut MemberTexts,
    file: &ClassFile,
) -> Result<(), AllocError> {
    let mut entered = Vec::new(alloc);
    entered.resize(file.pool.constants().len().saturating_add(1), false)?;
    for field in &file.fields {
        add_text(alloc, texts, &mut entered, file, field.name)?;
        add_text(alloc, texts, &mut entered, file, field.descriptor)?;
    }
    for method in &file.methods {
        add_text(alloc, texts, &mut entered, file, method.name)?;
        add_text(alloc, texts, &mut entered, file, method.descriptor)?;
    }
    Ok(())
}

/// The texts of the members of all classes. Nothing is proved of them, and whether they are all is checked.
fn texts_of(alloc: Global, set: &ClassSet) -> Result<MemberTexts, AllocError> {
    let mut texts = MemberTexts::new(alloc);
    for place in 0..set.count() {
        if let Some(file) = set.class_at(place) {
            add_texts_of(alloc, &mut texts, file)?;
        }
    }
    Ok(texts)
}

// ---- keys

/// The number of the text of an entry.
fn number_of_entry(texts: &MemberTexts, constant: &Constant) -> Option<usize>
    ensures { result ≡ number_of texts.now (utf8_of (entry_of constant.now)) }
{
    match constant {
        Constant::Utf8(text) => texts.number_of(text),
        _ => None,
    }
}

/// The numbers of the texts of the entries of a constant pool. So each text is looked up once, however many members
/// name it.
fn numbers_of(
    alloc: Global,
    texts: &MemberTexts,
    constants: &[Constant],
) -> Result<Vec<Option<usize>>, AllocError>
    ensures { IfOk result (λ numbers.
        numbers.items ≡ map (λ c. number_of texts.now (utf8_of (entry_of c))) constants.now) }
{
    let mut numbers = Vec::new(alloc);
    for constant in constants {
        numbers.push(number_of_entry(texts, constant))?;
    }
    Ok(numbers)
}

/// The number of the text of an index, which counts from 1.
fn number_at(numbers: &[Option<usize>], index: u16) -> Option<usize>
    ensures { result ≡ number_at numbers.now index }
{
    if index == 0 {
        return None;
    }
    match numbers.get(index as usize - 1) {
        Some(number) => *number,
        None => None,
    }
}

/// The key of a member, by the indices of its name and of its descriptor.
fn key_of(numbers: &[Option<usize>], name: u16, descriptor: u16) -> MemberKey
    ensures { result ≡ key_of numbers.now name descriptor }
{
    MemberKey {
        name: number_at(numbers, name),
        descriptor: number_at(numbers, descriptor),
    }
}

/// Whether the text of an index is there, and has no number.
fn is_unnumbered(file: &ClassFile, numbers: &[Option<usize>], index: u16) -> bool
    ensures { result ≡ is_unnumbered file.now.pool numbers.now index }
{
    file.utf8(index).is_some() && number_at(numbers, index).is_none()
}

/// Whether the name or the descriptor of a member is there, and has no number.
fn has_unnumbered(file: &ClassFile, numbers: &[Option<usize>], name: u16, descriptor: u16) -> bool
    ensures { result ≡ has_unnumbered file.now.pool numbers.now name descriptor }
{
    is_unnumbered(file, numbers, name) || is_unnumbered(file, numbers, descriptor)
}

fn field_keys(
    alloc: Global,
    numbers: &[Option<usize>],
    fields: &[Field],
) -> Result<Vec<MemberKey>, AllocError>
    ensures { IfOk result (λ keys. keys.items ≡ map (λ f. field_key numbers.now (field_of f)) fields.now) }
{
    let mut keys = Vec::new(alloc);
    for field in fields {
        keys.push(key_of(numbers, field.name, field.descriptor))?;
    }
    Ok(keys)
}

fn method_keys(
    alloc: Global,
    numbers: &[Option<usize>],
    methods: &[Method],
) -> Result<Vec<MemberKey>, AllocError>
    ensures { IfOk result (λ keys. keys.items ≡ map (λ m. method_key numbers.now (method_of m)) methods.now) }
{
    let mut keys = Vec::new(alloc);
    for method in methods {
        keys.push(key_of(numbers, method.name, method.descriptor))?;
    }
    Ok(keys)
}

fn has_unnumbered_field(file: &ClassFile, numbers: &[Option<usize>], fields: &[Field]) -> bool
    ensures { result ≡ list_any (λ f. has_unnumbered_field file.now.pool numbers.now (field_of f)) fields.now }
{
    fields.iter().any(|field| has_unnumbered(file, numbers, field.name, field.descriptor))
}

fn has_unnumbered_method(file: &ClassFile, numbers: &[Option<usize>], methods: &[Method]) -> bool
    ensures { result ≡ list_any (λ m. has_unnumbered_method file.now.pool numbers.now (method_of m)) methods.now }
{
    methods.iter().any(|method| has_unnumbered(file, numbers, method.name, method.descriptor))
}

/// The keys of the members of a class. None where a text has no number.
fn class_keys(
    alloc: Global,
    texts: &MemberTexts,
    file: &ClassFile,
) -> Result<Option<ClassKeys>, AllocError>
    ensures { IfOk result (λ keys. IfSome keys (HasKeys texts.now (file_of file.now))) }
{
    let numbers = numbers_of(alloc, texts, file.pool.constants())?;
    if has_unnumbered_field(file, &numbers, &file.fields)
        || has_unnumbered_method(file, &numbers, &file.methods)
    {
        return Ok(None);
    }
    Ok(Some(ClassKeys {
        fields: field_keys(alloc, &numbers, &file.fields)?,
        methods: method_keys(alloc, &numbers, &file.methods)?,
    }))
}

/// The keys of the classes of a set, up to the first of which a text has no number.
fn keys_by(alloc: Global, set: &ClassSet, texts: &MemberTexts) -> Result<Vec<ClassKeys>, AllocError>
    ensures { IfOk result (λ classes. HasMemberKeys set.now texts.now classes.items) }
{
    let mut classes = Vec::new(alloc);
    for place in 0..set.count() {
        let Some(file) = set.class_at(place) else {
            return Ok(classes);
        };
        let Some(keys) = class_keys(alloc, texts, file)? else {
            return Ok(classes);
        };
        classes.push(keys)?;
    }
    Ok(classes)
}

/// The keys of the members of the classes of a set.
pub(crate) fn member_keys(alloc: Global, set: &ClassSet) -> Result<MemberKeys, AllocError>
    ensures { IfOk result (λ keys. HasMemberKeys set.now keys.texts keys.classes.items) }
{
    let texts = texts_of(alloc, set)?;
    let classes = keys_by(alloc, set, &texts)?;
    Ok(MemberKeys { texts, classes })
}

/// The keys of no class.
pub(crate) fn no_member_keys(alloc: Global) -> MemberKeys
    ensures { result.classes.items ≡ [] }
{
    MemberKeys {
        texts: MemberTexts::new(alloc),
        classes: Vec::new(alloc),
    }
}

// ---- members of a key

/// Whether two numbers are there, and are one.
fn is_same_number(number: Option<usize>, other: Option<usize>) -> bool
    ensures { result ≡ is_same_number number other }
{
    match (number, other) {
        (Some(number), Some(other)) => number == other,
        _ => false,
    }
}

/// Whether a member of one key has the name and the descriptor of another key.
fn is_of_key(key: MemberKey, sought: MemberKey) -> bool
    ensures { result ≡ is_of_key sought key }
{
    is_same_number(key.name, sought.name) && is_same_number(key.descriptor, sought.descriptor)
}

/// The place of the first member of a key.
pub(crate) fn place_of_key(keys: &[MemberKey], sought: MemberKey) -> Option<usize>
    ensures { result ≡ position (is_of_key sought) keys.now }
{
    keys.iter().position(|key| is_of_key(*key, sought))
}
