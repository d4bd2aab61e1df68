//! What instructions want, as data.

ghost use Rattle.std.specs.Prelude.{◌≡◌};
ghost use Rattle.model.specs.Classes.{Program};
ghost use Rattle.instruction_types.specs.operand_types.View.{asked_in, wants_in};

use smallvec::SmallVec;
use types::ReferenceType;

/// What an instruction wants of a local variable or of a place of the operand stack (JVMS 4.10.1.2). A class is the
/// place that it has in the set of classes.
#[derive(Clone, Copy, Default)]
pub enum Want {
    /// Any word of the stack.
    #[default]
    AnyWord,
    AnInt,
    /// A reference that is only moved, initialised or not.
    AnyReference,
    /// A reference of a type, or null.
    AReference(ReferenceType),
    /// The receiver of a constructor of a class.
    AReceiver { class: usize },
    /// The object whose field is put, where a class declares the field and the instruction names that class.
    AnOwner { class: usize },
    /// An array, or null.
    AnArray,
    /// An array of bytes or one of booleans, or null.
    AByteArray,
}

/// A local variable that an instruction reads, by its number.
#[derive(Clone, Copy)]
pub struct LocalRead {
    pub local: u16,
    pub want: Want,
}

/// What an instruction wants.
#[derive(Drop)]
pub struct Wants {
    /// Whether it may stand there at all.
    pub allowed: bool,
    /// The local variable that it reads, if it reads one.
    pub reads: Option<LocalRead>,
    /// What it pops, the top of the stack first.
    pub pops: SmallVec<Want, 4>,
    /// How many words it leaves above what it pops.
    pub grows: usize,
}

/// What an instruction wants, lent.
#[derive(Clone, Copy)]
pub(crate) struct Asked<'a> {
    pub(crate) allowed: bool,
    pub(crate) reads: Option<LocalRead>,
    pub(crate) pops: &'a [Want],
    pub(crate) grows: usize,
}

impl Wants {
    pub(crate) fn asked(&self) -> Asked<'_>
        ensures { (files : Program) → asked_in files result ≡ wants_in files self.now }
    {
        Asked {
            allowed: self.allowed,
            reads: self.reads,
            pops: self.pops.as_slice(),
            grows: self.grows,
        }
    }
}
