//! Descriptors of methods (JVMS 4.3.3).

ghost use Rattle.std.specs.Prelude.{◌≡◌, ◌≤◌, ◌*◌, List, Option, Some, is_some, option_map, map, min, IfSome, IfOk};
ghost use Rattle.std.specs.List.{sum_by};
ghost use Rattle.model.specs.Descriptors.{MethodType, IsMethod, parameter_slots, slots};
ghost use Rattle.model.specs.DescriptorScan.{parameters_at, return_type, method_type, method_slots};
ghost use Rattle.constant_pool.specs.descriptors.Scan.{slots_at, scan};
ghost use Rattle.constant_pool.specs.descriptors.View.{Gives, field_of};

use crate::descriptors::field::{Field, parse_field, read_field};
use std::alloc::{AllocError, Global};
use std::marker::Model;

/// The types of the parameters, and that of what is returned, unless it is void. Contracts see a `MethodType`.
#[derive(Drop)]
pub struct Method<'a> {
    parameters: Vec<Field<'a>>,
    returns: Option<Field<'a>>,
}

impl<'a> Model for Method<'a> {
    ghost use Rattle.std.specs.Prelude.{map, option_map};
    ghost use Rattle.model.specs.Descriptors.{MethodType};
    ghost use Rattle.constant_pool.specs.descriptors.View.{field_of};

    ghost Value = { MethodType };

    ghost view = { λ m. record { parameters = map field_of m.parameters.items; returns = option_map field_of m.returns } };
}

impl<'a> Method<'a> {
    /// The types of the parameters, in order.
    pub fn parameters(&self) -> &[Field<'a>]
        ensures { map field_of result.now ≡ self.now.parameters }
    {
        self.parameters.as_slice()
    }

    /// The type of what is returned, or `None` where it is void.
    pub fn returns(&self) -> Option<Field<'a>>
        ensures { option_map field_of result ≡ self.now.returns }
    {
        self.returns
    }
}

/// The slots of so many parameters at most, up to the closing bracket, and what is behind it.
#[tactic(auto, unfolding(crate::specs::descriptors::Scan::slots_at))]
fn read_slots(text: &[u8], left: u8) -> Option<(u16, &[u8])>
    ensures read { Gives (λ x. (x.0, x.1.now)) result (slots_at left text.now) }
    ensures few { IfSome result (λ x. x.0 ≤ 2 * left) }
{
    match text {
        [] => None,
        [b')', returns @ ..] => Some((0, returns)),
        _ if left == 0 => None,
        _ => {
            let (field, behind) = read_field(text)?;
            let (others, returns) = read_slots(behind, left - 1)?;
            Some((field.slots() as u16 + others, returns))
        }
    }
}

/// What follows the closing bracket: a type, or `V` for void.
fn read_return(text: &[u8]) -> Option<Option<Field<'_>>>
    ensures { Gives (λ r. option_map field_of r) result (return_type text.now) }
{
    match text {
        [b'V'] => Some(None),
        [b'V', ..] => None,
        _ => parse_field(text).map(Some),
    }
}

#[tactic(auto, unfolding(crate::specs::descriptors::Scan::scan))]
fn scanned(text: &[u8]) -> Option<u8>
    ensures { result ≡ scan text.now }
{
    match text {
        [b'(', parameters @ ..] => {
            let (slots, returns) = read_slots(parameters, 255)?;
            if read_return(returns).is_some() && slots <= 255 {
                Some(slots as u8)
            } else {
                None
            }
        }
        _ => None,
    }
}

/// The slots of the parameters that a method's descriptor describes, without that of a receiver.
pub fn method_slots(text: &[u8]) -> Option<u8>
    ensures scanned { result ≡ method_slots text.now }
    // What has an answer is spelled so.
    ensures found { IfSome result (λ n. (m : MethodType) × (IsMethod text.now m × (parameter_slots m ≡ n))) }
    // What is spelled so has an answer.
    ensures only { (m : MethodType) → IsMethod text.now m → result ≡ Some (parameter_slots m) }
{
    scanned(text)
}

/// The types up to the closing bracket, 255 at most, and what is behind it.
#[tactic(auto, unfolding(model::specs::DescriptorScan::parameters_at))]
fn read_parameters<'a>(
    alloc: Global,
    text: &'a [u8],
) -> Result<Option<(Vec<Field<'a>>, &'a [u8])>, AllocError>
    ensures { IfOk result (λ found. Gives (λ x. (map field_of x.0.items, x.1.now)) found (parameters_at 255 text.now)) }
{
    let mut parameters = Vec::new(alloc);
    let mut rest = text;
    let mut left = 255u8;
    'parameters: while let [first, returns @ ..] = rest {
        if *first == b')' {
            return Ok(Some((parameters, returns)));
        }
        if left == 0 {
            return Ok(None);
        }
        let Some((field, behind)) = read_field(rest) else {
            return Ok(None);
        };
        parameters.push(field)?;
        rest = behind;
        left -= 1;
    }
    Ok(None)
}

/// The slots of parameters, and 65,535 where they are more.
fn slots(parameters: &[Field<'_>]) -> u16
    ensures { result ≡ min (sum_by slots (map field_of parameters.now)) 65535 }
{
    let mut slots = 0u16;
    'parameters: for parameter in parameters {
        slots = slots.saturating_add(u16::from(parameter.slots()));
    }
    slots
}

#[tactic(auto, unfolding(model::specs::DescriptorScan::method_type))]
fn parsed(alloc: Global, text: &[u8]) -> Result<Option<Method<'_>>, AllocError>
    ensures { IfOk result (λ found. found ≡ method_type text.now) }
{
    let [b'(', rest @ ..] = text else {
        return Ok(None);
    };
    let Some((parameters, rest)) = read_parameters(alloc, rest)? else {
        return Ok(None);
    };
    let Some(returns) = read_return(rest) else {
        return Ok(None);
    };
    if slots(parameters.as_slice()) > 255 {
        return Ok(None);
    }
    Ok(Some(Method {
        parameters,
        returns,
    }))
}

/// The types that a method's descriptor describes, whose parameters take 255 slots at most, without that of a receiver.
pub fn parse_method(alloc: Global, text: &[u8]) -> Result<Option<Method<'_>>, AllocError>
    ensures scanned { IfOk result (λ found. found ≡ method_type text.now) }
    // What is answered is spelled so.
    ensures found { IfOk result (λ found. IfSome found (λ m. IsMethod text.now m)) }
    // What is spelled so is answered.
    ensures only { (m : MethodType) → IsMethod text.now m → IfOk result (λ found. found ≡ Some m) }
{
    parsed(alloc, text)
}
