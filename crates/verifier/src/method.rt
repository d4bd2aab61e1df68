//! The worklist (JVMS 4.10.2.2): it takes the lowest offset that waits, and merges what its instruction leads to.

ghost use Rattle.std.specs.Prelude.{◌≡◌, ◌<◌, List, length, Some, OnOk, IfOk, IfErr, IfSome, slice_get};
ghost use Rattle.model.specs.InstructionStarts.{starts as starts_of};
ghost use Rattle.model.specs.Typing.{HasTyping};
ghost use Rattle.run_laws.specs.typing_search.Search.{HasNoTyping};
ghost use Rattle.types.specs.method_code.Linked.{IsLinked};
ghost use Rattle.types.specs.method_code.View.{files_of, member_of, body_of};
ghost use Rattle.verifier.specs.declared.flow.handler.Handler.{Handler as SpecHandler};
ghost use Rattle.verifier.specs.flow.Handlers.{AreHandlers};
ghost use Rattle.verifier.specs.Packed.{parts_of};
ghost use Rattle.verifier.specs.Found.{tables_in, waiting_again, AreOver, IsSearch, HasTurned, DoesTurn};
ghost use Rattle.verifier.specs.Worklist.{begun, turn_at};
ghost use Rattle.verifier.specs.Looks.{MayPass, AreLooks, HasLed, HasLedTo, IsLookOver};
ghost use Rattle.verifier.specs.flow.Leads.{targets_in};
ghost use Rattle.verifier.specs.flow.Meanings.{AreMeanings};
ghost use Rattle.verifier.specs.Near.{IsNear};
ghost use Rattle.verifier.specs.Steps.{method_steps, TakesAtMost, MayTakeMore};
ghost use Rattle.verifier.specs.Verified.{OnUnverified, OnFault};

use crate::fault::MethodFault;
use crate::flow::{
    Handler, Lead, Meanings, all_leads, entry_frame, flow_at, handlers, has_handlers, leaves_at,
    targets_of,
};
use crate::found::{Edge, Found, Origin};
use crate::look::Look;
use crate::near::{Near, near_found};
use crate::packed::PackedFrame;
use crate::steps::{Steps, bytes_read, steps_of_changes, steps_of_look, steps_of_turn};
use opcodes::starts;
use std::alloc::{AllocError, Global};
use types::FrameType;
use types::method_code::MethodCode;

/// A search that has found the frame type where the method begins.
fn begin(alloc: Global, method: &MethodCode<'_>, starts: &[bool]) -> Result<Found, MethodFault>
    requires linked { IsLinked (files_of method.now) }
    requires starts { starts.now ≡ starts_of (body_of method.now).code.code }
    ensures search { IfOk result (λ found. IsSearch (files_of method.now) (member_of method.now) (body_of method.now)
        (tables_in (files_of method.now) found)) }
    ensures begun { IfOk result (λ found. begun (files_of method.now) (member_of method.now) (body_of method.now)
        ≡ Some (tables_in (files_of method.now) found)) }
    ensures looks { IfOk result (λ found. (hs : List SpecHandler) → AreLooks method.now hs found) }
    ensures exact { IfErr result (λ fault. OnUnverified
        fault (HasNoTyping (files_of method.now) (member_of method.now) (body_of method.now))) }
{
    let mut found = Found::new(alloc, method.code().code.len())?;
    let frame = entry_frame(alloc, method)?;
    let frame = PackedFrame::pack(alloc, frame)?;
    match found.merge(alloc, method, starts, Edge { from: 0, to: 0 }, &frame) {
        Ok(()) => Ok(found),
        Err(fault) => Err(fault),
    }
}

/// The last instruction with handlers, after one that leads so was looked at.
fn last_after(last: usize, offset: usize, leads: &[Lead]) -> usize {
    if has_handlers(leads) { offset } else { last }
}

/// The instruction with handlers that was looked at last, if it is near to the one at an offset, which leads to
/// handlers.
fn last_if_near(
    alloc: Global,
    found: &Found,
    before: &PackedFrame,
    offset: usize,
    leads: &[Lead],
) -> Result<Option<Near>, AllocError>
    ensures near { IfOk result (λ o. IfSome o (IsNear found.now before.now)) }
    ensures other { IfOk result (λ o. IfSome o (λ near. near.offset ≡ offset → ⊥)) }
{
    let last = found.last;
    if !has_handlers(leads) || last == offset {
        return Ok(None);
    }
    near_found(alloc, found, before, last)
}

/// Merges what changed before the instruction at an offset since it was looked at, which has nothing to do with it:
/// what a frame type holds in these local variables. Answers how many steps that takes.
fn pass_on(
    alloc: Global,
    method: &MethodCode<'_>,
    handlers: &[Handler],
    found: &mut Found,
    offset: usize,
    frame: &PackedFrame,
    look: &Look,
) -> Result<u64, AllocError>
    requires linked { IsLinked (files_of method.now) }
    requires over { AreOver (body_of method.now) (tables_in (files_of method.now) found.old) }
    requires passes { MayPass method.now handlers.now found.old offset frame.now look.now }
    ensures led { OnOk result (HasLed method.now handlers.now found.old offset look.now.targets.items found.new) }
    ensures steps { IfOk result (IsLookOver method.now handlers.now offset look.now.targets.items) }
{
    let leads = all_leads(alloc, handlers, offset, &look.targets)?;
    found.raise_all(alloc, method, &leads, frame, &look.changed)?;
    let steps = steps_of_changes(method, leads.len(), look.changed.len());
    Ok(steps)
}

/// The offsets to which an instruction leads, its handlers aside, if looks are kept.
fn kept_targets(
    alloc: Global,
    found: &Found,
    leads: &[Lead],
) -> Result<Option<Vec<usize>>, AllocError>
    ensures { IfOk result (λ o. IfSome o (λ v. v.items ≡ targets_in leads.now)) }
{
    if !found.keeps_looks() {
        return Ok(None);
    }
    let targets = targets_of(alloc, leads)?;
    Ok(Some(targets))
}

/// Keeps the meanings of a method's instructions from now on, if looks are kept.
fn keep_meanings(
    alloc: Global,
    method: &MethodCode<'_>,
    found: &Found,
    meanings: &mut Meanings,
) -> Result<(), AllocError>
    requires { AreMeanings method.now meanings.old }
    ensures { OnOk result (AreMeanings method.now meanings.new) }
{
    if meanings.are_kept() || !found.keeps_looks() {
        return Ok(());
    }
    meanings.keep_from_now(alloc, method.code.code.len())?;
    Ok(())
}

/// What is told of a look at an instruction.
#[derive(Drop)]
struct Looked {
    /// The offsets to which it leads, its handlers aside, if looks are kept.
    targets: Option<Vec<usize>>,
    /// How many steps the look takes.
    steps: u64,
}

/// Merges what the instruction at an offset leads to, as if it was not looked at before.
fn look_at(
    alloc: Global,
    method: &MethodCode<'_>,
    starts: &[bool],
    handlers: &[Handler],
    meanings: &mut Meanings,
    found: &mut Found,
    offset: usize,
    frame: FrameType,
) -> Result<Looked, MethodFault>
    requires linked { IsLinked (files_of method.now) }
    requires starts { starts.now ≡ starts_of (body_of method.now).code.code }
    requires handlers { AreHandlers method.now handlers.now }
    requires offset { offset < length found.old.types.items }
    requires typed { slice_get found.old.types.items offset ≡ Some (Some (parts_of frame)) }
    requires search { IsSearch (files_of method.now) (member_of method.now) (body_of method.now)
        (waiting_again (tables_in (files_of method.now) found.old) offset) }
    requires meanings { AreMeanings method.now meanings.old }
    ensures meanings { OnOk result (AreMeanings method.now meanings.new) }
    ensures led { IfOk result (λ looked.
        HasLedTo method.now handlers.now found.old offset looked.targets looked.steps found.new) }
    ensures exact { IfErr result (λ fault. OnUnverified
        fault (HasNoTyping (files_of method.now) (member_of method.now) (body_of method.now))) }
{
    let mut frame = frame;
    keep_meanings(alloc, method, found, meanings)?;
    let read = bytes_read(method, meanings, offset);
    match flow_at(alloc, method, handlers, meanings, offset, &mut frame) {
        Err(_) => Err(MethodFault::OutOfMemory),
        Ok(None) => Err(MethodFault::Unverified { offset }),
        Ok(Some(leads)) => {
            let targets = kept_targets(alloc, found, &leads)?;
            let after = PackedFrame::pack(alloc, frame)?;
            let before = found.before(alloc, offset, &leads)?;
            let near = last_if_near(alloc, found, &before, offset, &leads)?;
            found.last = last_after(found.last, offset, &leads);
            let steps = steps_of_look(method, leads.len(), read);
            let origin = Origin {
                offset,
                before,
                after,
                near,
            };
            match found.merge_all(alloc, method, starts, origin, &leads) {
                Ok(()) => Ok(Looked { targets, steps }),
                Err(fault) => Err(fault),
            }
        }
    }
}

/// Merges what the instruction at an offset leads to, which has been taken off. Answers how many steps that takes.
fn turn(
    alloc: Global,
    method: &MethodCode<'_>,
    starts: &[bool],
    handlers: &[Handler],
    meanings: &mut Meanings,
    found: &mut Found,
    offset: usize,
) -> Result<u64, MethodFault>
    requires linked { IsLinked (files_of method.now) }
    requires starts { starts.now ≡ starts_of (body_of method.now).code.code }
    requires handlers { AreHandlers method.now handlers.now }
    requires offset { offset < length found.old.types.items }
    requires search { IsSearch (files_of method.now) (member_of method.now) (body_of method.now)
        (waiting_again (tables_in (files_of method.now) found.old) offset) }
    requires looks { AreLooks method.now handlers.now found.old }
    requires meanings { AreMeanings method.now meanings.old }
    ensures meanings { OnOk result (AreMeanings method.now meanings.new) }
    ensures turned { OnOk result (HasTurned (files_of method.now) (member_of method.now) (body_of method.now)
        (tables_in (files_of method.now) found.old) (tables_in (files_of method.now) found.new)) }
    ensures looks { OnOk result (AreLooks method.now handlers.now found.new) }
    ensures done { IfOk result (λ steps.
        DoesTurn (turn_at (files_of method.now) (member_of method.now) (body_of method.now)
        (tables_in (files_of method.now) found.old) offset) steps (tables_in (files_of method.now) found.new)) }
    ensures exact { IfErr result (λ fault. OnUnverified
        fault (HasNoTyping (files_of method.now) (member_of method.now) (body_of method.now))) }
{
    let taken = found.begin_turn(alloc, offset)?;
    let Some(packed) = &found.types[offset] else {
        return Ok(0);
    };
    if let Some(look) = taken {
        if leaves_at(method, offset, &look.changed) {
            let frame = packed.only(alloc, &look.changed)?;
            let steps = pass_on(alloc, method, handlers, found, offset, &frame, &look)?;
            found.settle(alloc, offset, look.targets);
            return Ok(steps_of_turn(method, steps));
        }
    }
    let before = packed.unpack(alloc)?;
    match look_at(
        alloc, method, starts, handlers, meanings, found, offset, before,
    ) {
        Ok(looked) => {
            let steps = steps_of_turn(method, looked.steps);
            match looked.targets {
                Some(targets) => {
                    found.settle(alloc, offset, targets);
                    Ok(steps)
                }
                None => Ok(steps),
            }
        }
        Err(fault) => Err(fault),
    }
}

/// Whether there are frame types at the offsets of a method's code that agree with its instructions. The search takes
/// steps.
pub(crate) fn verify_method(
    alloc: Global,
    method: &MethodCode<'_>,
    steps: &mut Steps,
) -> Result<(), MethodFault>
    requires { IsLinked (files_of method.now) }
    ensures typed { OnOk result (HasTyping (files_of method.now) (member_of method.now) (body_of method.now)) }
    ensures taken { OnOk result
        (TakesAtMost (files_of method.now) (method_steps (member_of method.now) (body_of method.now))
        steps.old.left steps.new.left) }
    ensures exact { IfErr result (λ fault. OnFault
        fault (HasNoTyping (files_of method.now) (member_of method.now) (body_of method.now))
        (MayTakeMore (files_of method.now) (method_steps (member_of method.now) (body_of method.now)) steps.old.left)) }
{
    let starts = starts(alloc, &method.code().code)?;
    let handlers = handlers(alloc, method)?;
    let mut meanings = Meanings::new(alloc);
    let mut found = match begin(alloc, method, &starts) {
        Ok(found) => found,
        Err(fault) => return Err(fault),
    };
    while let Some(offset) = found.waiting.take_lowest() {
        let taken = match turn(
            alloc,
            method,
            &starts,
            &handlers,
            &mut meanings,
            &mut found,
            offset,
        ) {
            Ok(taken) => taken,
            Err(fault) => return Err(fault),
        };
        if let Err(fault) = steps.take(taken) {
            return Err(fault);
        }
    }
    Ok(())
}
