//! The constants that the machine itself gives to objects.

ghost use Rattle.std.specs.Prelude.{◌≡◌, [], suc};
ghost use Rattle.model.specs.Opening.{string_reference};
ghost use Rattle.model.specs.StringConstants.{division_text, main_text};
ghost use Rattle.linker.specs.Linking.{IsLinked};
ghost use Rattle.linker.specs.field_links.Numbers.{AreStringNumbers};

use hierarchy::ClassSet;
use linker::field_links::StringNumbers;

/// The word of the String of the empty text. The Strings stand behind three other objects and the Class objects, and
/// null is 0.
pub(crate) fn empty_text_word(set: &ClassSet, texts: &StringNumbers) -> u32
    requires linked { IsLinked set.now }
    requires texts { AreStringNumbers set.now texts.now }
    ensures { result ≡ suc (string_reference set.now []) }
{
    (4 + set.count() + texts.empty_text()) as u32
}

/// The word of the String of what a division by zero tells.
pub(crate) fn division_text_word(set: &ClassSet, texts: &StringNumbers) -> u32
    requires linked { IsLinked set.now }
    requires texts { AreStringNumbers set.now texts.now }
    ensures { result ≡ suc (string_reference set.now division_text) }
{
    (4 + set.count() + texts.division_text()) as u32
}

/// The word of the String of the name of the first thread.
pub(crate) fn main_text_word(set: &ClassSet, texts: &StringNumbers) -> u32
    requires linked { IsLinked set.now }
    requires texts { AreStringNumbers set.now texts.now }
    ensures { result ≡ suc (string_reference set.now main_text) }
{
    (4 + set.count() + texts.main_text()) as u32
}
