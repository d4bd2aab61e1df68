//! Where an instruction leads from a frame type, with the mark of constructors.

ghost use Rattle.std.specs.Prelude.{◌≡◌, ◌||◌, ◌∷◌, false, length, map, reverse, take, drop, slice_index_or, OnOk, IfOk};
ghost use Rattle.std.specs.Option.{option_map_or};
ghost use Rattle.std.specs.List.{list_any};
ghost use Rattle.model.specs.declared.value.Value.{Value};
ghost use Rattle.model.specs.Classes.{Program};
ghost use Rattle.model.specs.Pool.{method_at};
ghost use Rattle.model.specs.Types as model;
ghost use Rattle.model.specs.InitialisedTypes.{forgotten, initialised};
ghost use Rattle.model.specs.Sites.{MeaningOf};
ghost use Rattle.model.specs.Typing.{is_constructor, is_any_this, constructs_this, successors};
ghost use Rattle.hierarchy.specs.Places.{name_at};
ghost use Rattle.types.specs.View.{type_in, frame_in};
ghost use Rattle.types.specs.method_code.View.{files_of, body_of};
ghost use Rattle.types.specs.method_code.Site.{site_of};
ghost use Rattle.instruction_types.specs.Means.{Means};
ghost use Rattle.instruction_types.specs.Successors.{found_by, left_by, with_slots, lead_after, followed};

use crate::flow_effects::application::{forget, initialise, operand, pop};
use hierarchy::ClassSet;
use instruction_types::leads::Leads;
use instruction_types::meaning::Meaning;
use instruction_types::operand_types::Wants;
use model::{Instr, Invocation};
use std::alloc::AllocError;
use types::described_types::component_type;
use types::method_code::Site;
use types::{FrameType, VerificationType};

/// An operand that a frame type has, counted from the top; null where there is none.
fn operand_in(wants: &Wants, frame: &FrameType, k: usize) -> VerificationType
    ensures { (files : Program)
        → type_in files result ≡ slice_index_or (found_by files wants.now frame.now) k model.NullType }
{
    operand(wants, &frame.stack, k)
}

/// Forgets what a `new` made before.
fn forget_all(offset: u16, types: &mut Vec<VerificationType>)
    ensures { (files : Program)
        → map (type_in files) types.new.items ≡ map (forgotten offset) (map (type_in files) types.old.items) }
{
    forget(offset, types);
}

/// Initialises all copies of a receiver.
fn initialise_all(set: &ClassSet, receiver: VerificationType, types: &mut Vec<VerificationType>)
    ensures { map (type_in set.now) types.new.items
        ≡ map (initialised (type_in set.now receiver)) (map (type_in set.now) types.old.items) }
{
    initialise(set, receiver, types);
}

/// Takes the operands off.
fn drop_operands(wants: &Wants, frame: &mut FrameType)
    ensures { (files : Program) → frame_in files frame.new
        ≡ with_slots (frame_in files frame.old) (frame_in files frame.old).slots.locals
        (left_by files wants.now frame.old) }
{
    pop(wants, &mut frame.stack);
}

/// Puts a type in the place of the operands.
fn push_type(
    wants: &Wants,
    frame: &mut FrameType,
    pushed: VerificationType,
) -> Result<(), AllocError>
    ensures { OnOk result ((files : Program)
        → frame_in files frame.new
        ≡ with_slots (frame_in files frame.old) (frame_in files frame.old).slots.locals (type_in files pushed
        ∷ left_by files wants.now frame.old)) }
{
    pop(wants, &mut frame.stack);
    frame.stack.push(pushed)?;
    Ok(())
}

/// Puts what a `new` at an offset makes in the place of the operands, and forgets what it made before.
fn push_made(
    wants: &Wants,
    frame: &mut FrameType,
    offset: u16,
    class: usize,
) -> Result<(), AllocError>
    ensures { OnOk result ((files : Program)
        → frame_in files frame.new
        ≡ with_slots (frame_in files frame.old) (map (forgotten offset) (frame_in files frame.old).slots.locals)
        (model.Uninitialised offset (name_at files class) ∷ left_by files wants.now frame.old)) }
{
    forget_all(offset, &mut frame.locals);
    pop(wants, &mut frame.stack);
    frame
        .stack
        .push(VerificationType::Uninitialised { offset, class })?;
    Ok(())
}

/// Takes the operands off, and initialises all copies of one of them.
fn initialise_copies(set: &ClassSet, wants: &Wants, frame: &mut FrameType, place: usize)
    ensures { frame_in set.now frame.new ≡ with_slots (frame_in set.now frame.old)
        (map (initialised (slice_index_or (found_by set.now wants.now frame.old) place model.NullType))
        (frame_in set.now frame.old).slots.locals)
        (map (initialised (slice_index_or (found_by set.now wants.now frame.old) place model.NullType))
        (left_by set.now wants.now frame.old)) }
{
    let receiver = operand_in(wants, frame, place);
    pop(wants, &mut frame.stack);
    initialise_all(set, receiver, &mut frame.locals);
    initialise_all(set, receiver, &mut frame.stack);
}

/// Makes of a frame type the one after an instruction, if it leads on.
fn follow(site: &Site<'_>, meaning: &Meaning, frame: &mut FrameType) -> Result<bool, AllocError>
    ensures leads { IfOk result (λ on. lead_after on site.now.next (frame_in (files_of site.now.method) frame.new).slots
        ≡ followed (files_of site.now.method) (site_of site.now) meaning.now frame.old) }
    ensures mark { OnOk result (frame.new.constructed ≡ frame.old.constructed) }
{
    let set = site.method.set();
    let wants = &meaning.wants;
    match meaning.leads {
        Leads::Nowhere => Ok(false),
        Leads::Next => {
            drop_operands(wants, frame);
            Ok(true)
        }
        Leads::Pushes(pushed) => {
            push_type(wants, frame, pushed)?;
            Ok(true)
        }
        Leads::PushesComponent => {
            let component = component_type(set, operand_in(wants, frame, 1));
            push_type(wants, frame, component)?;
            Ok(true)
        }
        Leads::Makes { class } => {
            push_made(wants, frame, site.offset, class)?;
            Ok(true)
        }
        Leads::Initialises { operand: place } => {
            initialise_copies(set, wants, frame, place);
            Ok(true)
        }
    }
}

/// Whether a type is of an uninitialised `this`.
fn is_any_this(t: VerificationType) -> bool
    ensures { (files : Program) → result ≡ is_any_this (type_in files t) }
{
    match t {
        VerificationType::Unusable => false,
        VerificationType::Int => false,
        VerificationType::Null => false,
        VerificationType::Object(_) => false,
        VerificationType::Uninitialised { .. } => false,
        VerificationType::UninitialisedThis { .. } => true,
    }
}

/// Whether an operand is an uninitialised `this`.
fn finds_this(set: &ClassSet, wants: &Wants, frame: &FrameType) -> bool
    ensures { result ≡ list_any is_any_this (found_by set.now wants.now frame.now) }
{
    for k in 0..wants.pops.len() {
        if is_any_this(operand_in(wants, frame, k)) {
            return true;
        }
    }
    false
}

/// Whether an index of a site's class names a constructor.
pub(crate) fn names_constructor(site: &Site<'_>, index: u16) -> bool
    ensures { result ≡ option_map_or is_constructor (method_at (body_of site.now.method).pool index) false }
{
    match site.method.file.method_reference(index) {
        Some(method) => method.name == b"<init>".as_slice(),
        None => false,
    }
}

/// Whether a constructor is called on `this`.
fn constructs_this(site: &Site<'_>, wants: &Wants, frame: &FrameType) -> bool
    ensures { result ≡ constructs_this (site_of site.now)
        (found_by (files_of site.now.method) wants.now frame.now) site.now.instr }
{
    match site.instr {
        Instr::Invoke {
            invocation: Invocation::Special,
            index,
        } => names_constructor(site, index) && finds_this(site.method.set(), wants, frame),
        _ => false,
    }
}

/// Whether one of two is so.
fn either(a: bool, b: bool) -> bool
    ensures { result ≡ (a || b) }
{
    a || b
}

/// Where an instruction leads from a frame type, by its meaning (JVMS 4.10.1.9): whether it goes on at the next one,
/// with what the frame type becomes. Where it doesn't, and where memory runs out, the frame type is of no use any
/// more.
pub fn lead_on(
    site: &Site<'_>,
    meaning: &Meaning,
    frame: &mut FrameType,
) -> Result<bool, AllocError>
    ensures { IfOk result (λ on. (M : MeaningOf Value)
        → Means (files_of site.now.method) (site_of site.now) meaning.now M
        → lead_after on site.now.next (frame_in (files_of site.now.method) frame.new)
        ≡ successors (site_of site.now) M (frame_in (files_of site.now.method) frame.old)) }
{
    let constructs = constructs_this(site, &meaning.wants, frame);
    let on = follow(site, meaning, frame)?;
    frame.constructed = either(frame.constructed, constructs);
    Ok(on)
}
