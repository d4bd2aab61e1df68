//! The method that a program begins with (JVMS 5.2).

ghost use Rattle.std.specs.Prelude.{◌≡◌, [], false, option_map};
ghost use Rattle.std.specs.Option.{option_map_or};
ghost use Rattle.model.specs.Names.{main_of, spells};
ghost use Rattle.model.specs.AccessFlags.{is_static_method};
ghost use Rattle.model.specs.Classes.{declared_in, is_method};
ghost use Rattle.model.specs.Linkable.{stands, NoMain};
ghost use Rattle.classfile.specs.View.{method_of as tree_of, file_of};

use classfile::{ClassFile, Method, class_name};
use hierarchy::ClassSet;
use model::BUILT_IN_CLASSES;

/// Whether a text is there, and is this one.
fn is_spelled(text: Option<&[u8]>, name: &[u8]) -> bool
    ensures { result ≡ spells (option_map (λ t. t.now) text.entry) name.now }
{
    match text {
        Some(text) => text == name,
        None => false,
    }
}

/// Whether a method is called main, with an array of Strings as its only parameter and without a result.
fn is_main(file: &ClassFile, method: &Method) -> bool
    ensures { result ≡ is_method file.now.pool (main_of []).name (main_of []).descriptor (tree_of method.now) }
{
    is_spelled(file.utf8(method.name), b"main")
        && is_spelled(file.utf8(method.descriptor), b"([Ljava/lang/String;)V")
}

/// Whether a class declares a main that is static.
fn declares_static_main(file: &ClassFile) -> bool
    ensures { result ≡ option_map_or is_static_method
        (declared_in (file_of file.now) (main_of []).name (main_of []).descriptor) false }
{
    for method in &file.methods {
        if is_main(file, method) {
            return method.is_static();
        }
    }
    false
}

/// Whether the class of the first file declares no main that is static, or there is no file.
pub fn has_no_main(set: &ClassSet) -> bool
    ensures { result ≡ stands set.now NoMain }
{
    let Some(first) = set.class_at(BUILT_IN_CLASSES) else {
        return true;
    };
    match set.class_of(class_name(first)) {
        Some(class) => !declares_static_main(class),
        None => true,
    }
}
