//! What is needed at calls, for each method of linked classes.

ghost use Rattle.std.specs.Prelude.{option_map, slice_get, IfOk};
ghost use Rattle.model.specs.Classes.{Program};
ghost use Rattle.types.specs.method_code.Linked.{IsLinked};
ghost use Rattle.method_tables.specs.method_links.Calls.{IsTold, AreCallsOf};
ghost use Rattle.method_tables.specs.method_links.Methods.{methods_of};
ghost use Rattle.method_tables.specs.method_links.Numbers.{AreNumbersOf};

use crate::method_links::call::MethodCall;
use crate::method_links::make_call::told_at;
use crate::method_links::numbers::MethodNumbers;
use hierarchy::ClassSet;
use std::alloc::{AllocError, Global};
use std::marker::Model;

/// What is needed at a call of each method of linked classes.
#[derive(Drop)]
pub struct MethodCalls {
    /// By the numbers of the methods.
    calls: Vec<MethodCall>,
}

impl Model for MethodCalls {
    ghost use Rattle.std.specs.Prelude.{List};
    ghost use Rattle.method_tables.specs.declared.method_links.call.MethodCall.{MethodCall};

    ghost Value = { List MethodCall };

    ghost view = { λ c. c.calls.items };
}

impl MethodCalls {
    /// Of all methods, by their numbers. This alone takes memory: the code of each method once.
    pub fn new(
        alloc: Global,
        set: &ClassSet,
        numbers: &MethodNumbers,
    ) -> Result<MethodCalls, AllocError>
        requires linked { IsLinked set.now }
        requires numbers { AreNumbersOf set.now numbers.now }
        ensures { IfOk result (AreCallsOf set.now) }
    {
        let mut calls = Vec::new(alloc);
        for number in 0..numbers.count() {
            let Some(place) = numbers.place(number) else {
                return Ok(MethodCalls { calls });
            };
            let Some(call) = told_at(alloc, set, place)? else {
                return Ok(MethodCalls { calls });
            };
            calls.push(call)?;
        }
        Ok(MethodCalls { calls })
    }

    /// Of the method of a number.
    pub fn call(&self, number: usize) -> Option<&MethodCall>
        ensures { (files : Program) → AreCallsOf files self.now
            → IsTold files (slice_get (methods_of files) number) (option_map (λ c. c.now) result) }
    {
        self.calls.get(number)
    }
}
