//! Instructions on arrays (JVMS 6.5).

ghost use Rattle.std.specs.Prelude.{◌≡◌, IfOk, IfErr};
ghost use Rattle.model.specs.Classes.{Program};
ghost use Rattle.model.specs.Operands.{values};
ghost use Rattle.model.specs.Sites.{Site};
ghost use Rattle.model.specs.Arrays.{load_of, store_of, array_length_meaning};
ghost use Rattle.instruction_types.specs.Means.{Means};

use crate::leads::Leads;
use crate::meaning::{Meaning, NoMeaning, popping};
use crate::operand_types::Want;
use crate::want::{ANY_OBJECT, REFERENCES};
use model::{ArrayKind, Primitive};
use std::alloc::Global;
use types::{Element, ReferenceType, VerificationType};

const INTS: Want = Want::AReference(ReferenceType {
    dimensions: 0,
    element: Element::PrimitiveArray(Primitive::Int),
});

const CHARS: Want = Want::AReference(ReferenceType {
    dimensions: 0,
    element: Element::PrimitiveArray(Primitive::Char),
});

const SHORTS: Want = Want::AReference(ReferenceType {
    dimensions: 0,
    element: Element::PrimitiveArray(Primitive::Short),
});

/// `arraylength`.
pub(crate) fn array_length(alloc: Global) -> Result<Meaning, NoMeaning>
    ensures means { IfOk result (λ m. (files : Program) (site : Site)
        → Means files site m (array_length_meaning values site)) }
    ensures memory { IfErr result (λ e. e ≡ NoMeaning.OutOfMemory) }
{
    let length = Leads::Pushes(VerificationType::Int);
    popping(alloc, &[Want::AnArray], 1, length)
}

/// `iaload`, `aaload`, `baload`, `caload` and `saload`.
#[tactic(auto, unfolding(model::specs::BuiltIn::built_in_classes))]
pub(crate) fn load_element(alloc: Global, kind: ArrayKind) -> Result<Meaning, NoMeaning>
    ensures means { IfOk result (λ m. (files : Program) (site : Site)
        → Means files site m (load_of values files site kind)) }
    ensures memory { IfErr result (λ e. e ≡ NoMeaning.OutOfMemory) }
{
    let int = Leads::Pushes(VerificationType::Int);
    match kind {
        ArrayKind::Int => popping(alloc, &[Want::AnInt, INTS], 1, int),
        ArrayKind::Reference => popping(
            alloc,
            &[Want::AnInt, REFERENCES],
            1,
            Leads::PushesComponent,
        ),
        ArrayKind::ByteOrBoolean => popping(alloc, &[Want::AnInt, Want::AByteArray], 1, int),
        ArrayKind::Char => popping(alloc, &[Want::AnInt, CHARS], 1, int),
        ArrayKind::Short => popping(alloc, &[Want::AnInt, SHORTS], 1, int),
    }
}

/// `iastore`, `aastore`, `bastore`, `castore` and `sastore`.
#[tactic(auto, unfolding(model::specs::BuiltIn::built_in_classes))]
pub(crate) fn store_element(alloc: Global, kind: ArrayKind) -> Result<Meaning, NoMeaning>
    ensures means { IfOk result (λ m. (files : Program) (site : Site)
        → Means files site m (store_of values files site kind)) }
    ensures memory { IfErr result (λ e. e ≡ NoMeaning.OutOfMemory) }
{
    let int = Want::AnInt;
    match kind {
        ArrayKind::Int => popping(alloc, &[int, int, INTS], 0, Leads::Next),
        ArrayKind::Reference => popping(alloc, &[ANY_OBJECT, int, REFERENCES], 0, Leads::Next),
        ArrayKind::ByteOrBoolean => popping(alloc, &[int, int, Want::AByteArray], 0, Leads::Next),
        ArrayKind::Char => popping(alloc, &[int, int, CHARS], 0, Leads::Next),
        ArrayKind::Short => popping(alloc, &[int, int, SHORTS], 0, Leads::Next),
    }
}
