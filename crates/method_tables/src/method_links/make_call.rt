//! What the declaration of a method tells of its calls.

ghost use Rattle.std.specs.Prelude.{◌≡◌, ◌+◌, ◌≤◌, length, option_map, IfOk, if◌then◌else◌};
ghost use Rattle.model.specs.Classes.{code_in};
ghost use Rattle.model.specs.DescribedTypes.{parameters_declared};
ghost use Rattle.classfile.specs.View.{code_of, file_of, method_of};
ghost use Rattle.types.specs.method_code.Linked.{IsLinked};
ghost use Rattle.method_tables.specs.method_links.Calls.{frame_needs, needs_of, IsTold};
ghost use Rattle.method_tables.specs.method_links.Describing.{Describes};
ghost use Rattle.method_tables.specs.method_links.Methods.{member_at};

use crate::method_links::call::{FrameCode, MethodCall};
use classfile::access_flags::{ABSTRACT, NATIVE, PRIVATE, STATIC, SYNCHRONIZED, has};
use classfile::{ClassFile, Code, Method};
use constant_pool::descriptors::parse_method;
use hierarchy::{ClassSet, MemberPlace};
use std::alloc::{AllocError, Global};
use std::sync::Arc;

/// A code with its bytes shared.
fn shared(alloc: Global, code: &Code) -> Result<FrameCode, AllocError>
    ensures { IfOk result (λ frame. frame_needs frame ≡ needs_of (code_of code.now)) }
{
    let bytes = Vec::from_slice(alloc, &code.code)?;
    let Ok(bytes) = Arc::new(alloc, bytes) else {
        return Err(AllocError);
    };
    Ok(FrameCode {
        max_stack: code.max_stack,
        max_locals: code.max_locals,
        code: bytes,
    })
}

/// The code of a method, where it has one.
fn frame_code(alloc: Global, method: &Method) -> Result<Option<FrameCode>, AllocError>
    ensures { IfOk result (λ code.
        option_map frame_needs code ≡ option_map needs_of (code_in (method_of method.now).parts)) }
{
    match method.code() {
        Some(code) => Ok(Some(shared(alloc, code)?)),
        None => Ok(None),
    }
}

/// How many receivers a call has.
fn receiver_count(is_static: bool) -> usize
    ensures count { result ≡ (if is_static then 0 else 1) }
    ensures few { result ≤ 1 }
{
    if is_static { 0 } else { 1 }
}

/// How many operands a call takes by the method's descriptor.
fn operand_count(alloc: Global, descriptor: &[u8], is_static: bool) -> Result<usize, AllocError>
    ensures { IfOk result (λ count.
        count ≡ length (parameters_declared descriptor.now) + (if is_static then 0 else 1)) }
{
    let receivers = receiver_count(is_static);
    let Some(method) = parse_method(alloc, descriptor)? else {
        return Ok(receivers);
    };
    Ok(method.parameters().len() + receivers)
}

/// What a method of the class at a place tells of its calls.
fn told_by(
    alloc: Global,
    class: usize,
    file: &ClassFile,
    method: &Method,
) -> Result<MethodCall, AllocError>
    ensures { IfOk result (Describes class (file_of file.now) (method_of method.now)) }
{
    let is_static = has(method.flags, STATIC);
    Ok(MethodCall {
        class,
        operands: operand_count(alloc, file.pool.text(method.descriptor), is_static)?,
        is_static,
        is_private: has(method.flags, PRIVATE),
        is_synchronized: has(method.flags, SYNCHRONIZED),
        is_native: has(method.flags, NATIVE),
        is_abstract: has(method.flags, ABSTRACT),
        code: frame_code(alloc, method)?,
    })
}

/// What the method at a place tells of its calls, where there is one.
pub(crate) fn told_at(
    alloc: Global,
    set: &ClassSet,
    place: MemberPlace,
) -> Result<Option<MethodCall>, AllocError>
    requires { IsLinked set.now }
    ensures { IfOk result (IsTold set.now (member_at set.now place)) }
{
    let Some(file) = set.class_at(place.class) else {
        return Ok(None);
    };
    let Some(method) = file.methods.get(place.member) else {
        return Ok(None);
    };
    Ok(Some(told_by(alloc, place.class, file, method)?))
}
