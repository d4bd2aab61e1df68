//! Names that the rules of classes compare (JVMS 4.2): of members, and of packages.

ghost use Rattle.std.specs.Prelude.{◌≡◌};
ghost use Rattle.model.specs.Classes.{package_of, same_package};
ghost use Rattle.model.specs.Hierarchy.{is_special_name};
ghost use Rattle.model.specs.DescriptorParts.{is_array_class};

/// Whether a method of this name is a constructor or an initialiser (JVMS 2.9).
pub(crate) fn is_special_name(name: &[u8]) -> bool
    ensures { result ≡ is_special_name name.now }
{
    name == b"<init>".as_slice() || name == b"<clinit>".as_slice()
}

/// Whether the name of a class is that of an array class (JVMS 4.4.1).
pub(crate) fn is_array_class(name: &[u8]) -> bool
    ensures { result ≡ is_array_class name.now }
{
    matches!(name, [b'[', ..])
}

/// The package in a class's name (JVMS 5.3): what stands in it up to its last slash.
fn package_of(name: &[u8]) -> &[u8]
    ensures { result.now ≡ package_of name.now }
{
    let mut end = 0;
    for (place, byte) in name.iter().enumerate() {
        if *byte == b'/' {
            end = place + 1;
        }
    }
    &name[..end]
}

/// Whether two classes are of one package.
pub(crate) fn is_same_package(class: &[u8], other: &[u8]) -> bool
    ensures { result ≡ same_package class.now other.now }
{
    package_of(class) == package_of(other)
}
