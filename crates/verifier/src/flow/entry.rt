//! The frame type where a method begins.

ghost use Rattle.std.specs.Prelude.{◌≡◌, ◌++◌, ◌-◌, map, length, replicate, OnOk, IfOk};
ghost use Rattle.model.specs.Typing.{receiver_type, parameter_types, argument_types, entry_type};
ghost use Rattle.types.specs.View.{type_in, frame_in};
ghost use Rattle.types.specs.method_code.Linked.{IsLinked};
ghost use Rattle.types.specs.method_code.View.{files_of, member_of, body_of};

use std::alloc::{AllocError, Global};
use types::described_types::method_types;
use types::method_code::MethodCode;
use types::{Element, FrameType, ReferenceType, VerificationType};

/// The receiver: in a constructor it is not initialised yet.
fn receiver_type(method: &MethodCode<'_>) -> VerificationType
    ensures { type_in (files_of method.now) result ≡ receiver_type (member_of method.now) }
{
    let class = method.class();
    if method.is_constructor() {
        return VerificationType::UninitialisedThis { class };
    }
    VerificationType::Object(ReferenceType {
        dimensions: 0,
        element: Element::Class(class),
    })
}

fn parameter_types(
    alloc: Global,
    method: &MethodCode<'_>,
) -> Result<Vec<VerificationType>, AllocError>
    requires { IsLinked (files_of method.now) }
    ensures { IfOk result (λ v. map (type_in (files_of method.now)) v.items
        ≡ parameter_types (files_of method.now) (member_of method.now)) }
{
    let found = method_types(alloc, method.set(), method.descriptor())?;
    match found {
        Some(types) => Ok(types.parameters),
        None => unreachable!(),
    }
}

/// What the method is called with: the receiver, if there is one, and the parameters.
fn argument_types(
    alloc: Global,
    method: &MethodCode<'_>,
) -> Result<Vec<VerificationType>, AllocError>
    requires { IsLinked (files_of method.now) }
    ensures { IfOk result (λ v. map (type_in (files_of method.now)) v.items
        ≡ argument_types (files_of method.now) (member_of method.now)) }
{
    let mut parameters = parameter_types(alloc, method)?;
    if method.has_no_receiver() {
        return Ok(parameters);
    }
    let mut arguments = Vec::with_capacity(alloc, parameters.len())?;
    arguments.push(receiver_type(method))?;
    arguments.append(&mut parameters)?;
    Ok(arguments)
}

/// Fills up local variables that are not usable, until there are so many.
fn fill_up(locals: &mut Vec<VerificationType>, count: usize) -> Result<(), AllocError>
    ensures { OnOk result (locals.new.items
        ≡ locals.old.items ++ replicate (count - length locals.old.items) VerificationType.Unusable) }
{
    let missing = count.saturating_sub(locals.len());
    for _local in 0..missing {
        locals.push(VerificationType::Unusable)?;
    }
    Ok(())
}

/// The frame type where a method begins: its arguments in the first local variables, the others not usable, and
/// nothing on the operand stack (JVMS 2.6.1, 4.10.1.6).
pub fn entry_frame(alloc: Global, method: &MethodCode<'_>) -> Result<FrameType, AllocError>
    requires { IsLinked (files_of method.now) }
    ensures { IfOk result (λ f. frame_in (files_of method.now) f
        ≡ entry_type (files_of method.now) (member_of method.now) (body_of method.now)) }
{
    let mut locals = argument_types(alloc, method)?;
    fill_up(&mut locals, method.code().max_locals as usize)?;
    Ok(FrameType {
        locals,
        stack: Vec::new(alloc),
        constructed: !method.is_constructor(),
    })
}
