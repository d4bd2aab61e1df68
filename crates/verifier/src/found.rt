//! The frame types that a search has found, and how more are merged into them.

ghost use Rattle.std.specs.Prelude.{◌≡◌, ◌<◌, [], ◌∷◌, length, map, false, true, slice_index_or, slice_set, Some, None, OnOk, IfOk, IfErr, IfSome, IsSomeAnd, IsTrue};
ghost use Rattle.model.specs.InstructionStarts.{starts as starts_of};
ghost use Rattle.model.specs.Step.{covers};
ghost use Rattle.run_laws.specs.typing_search.Tables.{waiting_at};
ghost use Rattle.types.specs.method_code.Linked.{IsLinked};
ghost use Rattle.types.specs.method_code.View.{files_of, body_of};
ghost use Rattle.verifier.specs.Found.{tables_in, leads_in, one_lead, StandsBefore, AreOver, IsEmpty, IsFirst, MergesInto, IsClash};
ghost use Rattle.verifier.specs.Changes.{DiffersAt, JoinsAt};
ghost use Rattle.verifier.specs.Looks.{offset_of, KeepsLooks, NotesAt, NotesChange, RaisesTo, RaisesAll};
ghost use Rattle.verifier.specs.Near.{KnowsNear, IsSameOrigin};

use crate::changes::{all_fit, join_locals};
use crate::fault::MethodFault;
use crate::flow::{Handler, Lead, has_handlers, only_target};
use crate::frames::is_sized;
use crate::look::Look;
use crate::near::{Near, changes_between};
use crate::packed::PackedFrame;
use crate::raised::{Raised, merge_frames};
use crate::waiting::Waiting;
use std::alloc::{AllocError, Global};
use types::method_code::MethodCode;

/// The frame types that were found at the offsets of a method's code, and the offsets that wait.
#[derive(Drop)]
pub(crate) struct Found {
    pub types: Vec<Option<PackedFrame>>,
    pub waiting: Waiting,
    /// The instructions that were looked at, of which something is known; empty while looks are not kept.
    pub looks: Vec<Option<Look>>,
    /// How many turns there were while looks are not kept.
    pub turns: usize,
    /// The last instruction with handlers that was looked at.
    pub last: usize,
}

/// The instruction at an offset leads to another offset.
#[derive(Clone, Copy)]
pub(crate) struct Edge {
    pub from: usize,
    pub to: usize,
}

/// An instruction that leads somewhere.
#[derive(Drop)]
pub(crate) struct Origin {
    pub offset: usize,
    /// The frame type before the instruction, if that leads to handlers. Its stack is not asked for.
    pub before: PackedFrame,
    /// The frame type after it.
    pub after: PackedFrame,
    /// An instruction whose leads are merged already, if one is at hand.
    pub near: Option<Near>,
}

/// Whether an instruction begins at an offset.
fn is_start(starts: &[bool], offset: usize) -> bool
    ensures { result ≡ slice_index_or starts.now offset false }
{
    offset < starts.len() && starts[offset]
}

impl Found {
    /// Nothing found yet at any of so many offsets.
    pub fn new(alloc: Global, length: usize) -> Result<Found, AllocError>
        ensures { IfOk result (IsEmpty length) }
    {
        let mut types = Vec::with_capacity(alloc, length)?;
        'offsets: for _offset in 0..length {
            types.push(None)?;
        }
        let waiting = Waiting::new(alloc, length)?;
        Ok(Found {
            types,
            waiting,
            looks: Vec::new(alloc),
            turns: 0,
            last: 0,
        })
    }

    /// Puts a frame type at an offset, which waits from now on.
    fn put_type(&mut self, offset: usize, frame: PackedFrame)
        requires typed { offset < length self.old.types.items }
        requires waiting { offset < length self.old.waiting }
        ensures types { self.new.types.items ≡ slice_set self.old.types.items offset (Some frame) }
        ensures waiting { self.new.waiting ≡ waiting_at self.old.waiting offset }
        ensures looks { self.new.looks.items ≡ self.old.looks.items }
    {
        self.types[offset] = Some(frame);
        self.waiting.add(offset);
    }

    /// Puts a frame type at an offset as `put_type` does; what is known of the instruction there is so no more.
    fn put(&mut self, offset: usize, frame: PackedFrame)
        requires typed { offset < length self.old.types.items }
        requires waiting { offset < length self.old.waiting }
        ensures types { self.new.types.items ≡ slice_set self.old.types.items offset (Some frame) }
        ensures waiting { self.new.waiting ≡ waiting_at self.old.waiting offset }
        ensures looks { self.new.looks.items ≡ slice_set self.old.looks.items offset None }
    {
        self.set_look(offset, None);
        self.put_type(offset, frame);
    }

    /// Puts a frame type that differs from that there in these local variables alone.
    fn put_changed(
        &mut self,
        offset: usize,
        frame: PackedFrame,
        changed: &[usize],
    ) -> Result<(), AllocError>
        requires typed { offset < length self.old.types.items }
        requires waiting { offset < length self.old.waiting }
        ensures types { OnOk result (self.new.types.items ≡ slice_set self.old.types.items offset (Some frame)) }
        ensures waiting { OnOk result (self.new.waiting ≡ waiting_at self.old.waiting offset) }
        ensures looks { OnOk result (NotesAt offset changed.now self.old.looks.items self.new.looks.items) }
    {
        self.note(offset, changed)?;
        self.put_type(offset, frame);
        Ok(())
    }

    /// The frame type before the instruction at an offset, if it leads to handlers as these leads are; else any.
    pub fn before(
        &self,
        alloc: Global,
        offset: usize,
        leads: &[Lead],
    ) -> Result<PackedFrame, AllocError>
        requires { offset < length self.now.types.items }
        ensures { IfOk result (StandsBefore self.now.types.items offset leads.now) }
    {
        if !has_handlers(leads) {
            return Ok(PackedFrame::nothing(alloc));
        }
        match &self.types[offset] {
            Some(there) => there.copy(alloc),
            None => Ok(PackedFrame::nothing(alloc)),
        }
    }

    /// In which local variables the frame type at an offset differs from another with the same stack, if in few. It
    /// is not asked where nothing is known of the instruction there.
    fn changes_at(
        &self,
        alloc: Global,
        offset: usize,
        join: &PackedFrame,
    ) -> Result<Option<Vec<usize>>, AllocError>
        requires { offset < length self.now.types.items }
        ensures { IfOk result (λ o. IfSome o (λ v. DiffersAt v.items offset join.now self.now.types.items)) }
    {
        if !self.has_look(offset) {
            return Ok(None);
        }
        match &self.types[offset] {
            Some(there) => changes_between(alloc, there, join),
            None => Ok(None),
        }
    }

    /// Puts the join of what is there and another frame type.
    fn put_join(
        &mut self,
        alloc: Global,
        offset: usize,
        join: PackedFrame,
    ) -> Result<(), AllocError>
        requires typed { offset < length self.old.types.items }
        requires waiting { offset < length self.old.waiting }
        ensures types { OnOk result (self.new.types.items ≡ slice_set self.old.types.items offset (Some join)) }
        ensures waiting { OnOk result (self.new.waiting ≡ waiting_at self.old.waiting offset) }
        ensures looks { OnOk result (NotesChange offset join self.old self.new) }
    {
        let Some(changed) = self.changes_at(alloc, offset, &join)? else {
            self.put(offset, join);
            return Ok(());
        };
        self.put_changed(offset, join, &changed)?;
        Ok(())
    }

    /// Merges a frame type to which an instruction leads.
    pub fn merge(
        &mut self,
        alloc: Global,
        method: &MethodCode<'_>,
        starts: &[bool],
        edge: Edge,
        frame: &PackedFrame,
    ) -> Result<(), MethodFault>
        requires linked { IsLinked (files_of method.now) }
        requires starts { starts.now ≡ starts_of (body_of method.now).code.code }
        requires over { AreOver (body_of method.now) (tables_in (files_of method.now) self.old) }
        ensures merged { OnOk result (MergesInto method.now self.old (one_lead method.now edge.to frame.now) self.new) }
        ensures clash { IfErr result (IsClash method.now self.old (one_lead method.now edge.to frame.now)) }
        ensures looks { OnOk result (KeepsLooks method.now self.old self.new) }
    {
        let Edge { from, to } = edge;
        if !is_start(starts, to) {
            return Err(MethodFault::Unverified { offset: from });
        }
        let Some(there) = &self.types[to] else {
            if !is_sized(method, frame) {
                return Err(MethodFault::Unverified { offset: to });
            }
            let copy = frame.copy(alloc)?;
            self.put(to, copy);
            return Ok(());
        };
        if let Some(changed) = changes_between(alloc, there, frame)? {
            self.raise(alloc, method, to, frame, &changed)?;
            return Ok(());
        }
        match merge_frames(alloc, method, there, frame) {
            Err(_) => Err(MethodFault::OutOfMemory),
            Ok(Raised::Clash) => Err(MethodFault::Unverified { offset: to }),
            Ok(Raised::Not) => Ok(()),
            Ok(Raised::To(join)) => {
                self.put_join(alloc, to, join)?;
                Ok(())
            }
        }
    }

    /// Whether an instruction begins at an offset, nothing is found there yet, and a frame type may stand there.
    fn is_first(
        &self,
        method: &MethodCode<'_>,
        starts: &[bool],
        to: usize,
        frame: &PackedFrame,
    ) -> bool
        requires starts { starts.now ≡ starts_of (body_of method.now).code.code }
        requires over { AreOver (body_of method.now) (tables_in (files_of method.now) self.now) }
        ensures { IsTrue result → IsFirst method.now self.now to frame.now }
    {
        if !is_start(starts, to) {
            return false;
        }
        match &self.types[to] {
            None => is_sized(method, frame),
            Some(_) => false,
        }
    }

    /// Merges the frame type after an instruction that leads to one offset alone.
    fn merge_only(
        &mut self,
        alloc: Global,
        method: &MethodCode<'_>,
        starts: &[bool],
        edge: Edge,
        frame: PackedFrame,
    ) -> Result<(), MethodFault>
        requires linked { IsLinked (files_of method.now) }
        requires starts { starts.now ≡ starts_of (body_of method.now).code.code }
        requires over { AreOver (body_of method.now) (tables_in (files_of method.now) self.old) }
        ensures merged { OnOk result (MergesInto method.now self.old (one_lead method.now edge.to frame) self.new) }
        ensures clash { IfErr result (IsClash method.now self.old (one_lead method.now edge.to frame)) }
        ensures looks { OnOk result (KeepsLooks method.now self.old self.new) }
    {
        if self.is_first(method, starts, edge.to, &frame) {
            self.put(edge.to, frame);
            return Ok(());
        }
        self.merge(alloc, method, starts, edge, &frame)
    }

    /// Joins what local variables hold in a frame type into these of the one at an offset.
    fn join_at(
        &mut self,
        alloc: Global,
        method: &MethodCode<'_>,
        to: usize,
        frame: &PackedFrame,
        changed: &[usize],
    ) -> Result<(), AllocError>
        requires linked { IsLinked (files_of method.now) }
        requires typed { to < length self.old.types.items }
        ensures types { OnOk result
            (JoinsAt (files_of method.now) to frame.now changed.now self.old.types.items self.new.types.items) }
        ensures waiting { self.new.waiting ≡ self.old.waiting }
        ensures looks { self.new.looks.items ≡ self.old.looks.items }
    {
        if let Some(there) = &mut self.types[to] {
            join_locals(alloc, method, there, frame, changed)?;
        }
        Ok(())
    }

    /// Merges what changed of a frame type whose other local variables are merged.
    pub fn raise(
        &mut self,
        alloc: Global,
        method: &MethodCode<'_>,
        to: usize,
        frame: &PackedFrame,
        changed: &[usize],
    ) -> Result<(), AllocError>
        requires linked { IsLinked (files_of method.now) }
        requires over { AreOver (body_of method.now) (tables_in (files_of method.now) self.old) }
        ensures over { OnOk result (AreOver (body_of method.now) (tables_in (files_of method.now) self.new)) }
        ensures raised { OnOk result (RaisesTo method.now self.old to frame.now changed.now self.new) }
    {
        if to >= self.types.len() {
            return Ok(());
        }
        let Some(there) = &self.types[to] else {
            return Ok(());
        };
        if all_fit(method.set(), there, frame, changed) {
            return Ok(());
        }
        self.join_at(alloc, method, to, frame, changed)?;
        self.note(to, changed)?;
        self.waiting.add(to);
        Ok(())
    }

    /// Raises the frame type at each offset to which leads are, in their order.
    pub fn raise_all(
        &mut self,
        alloc: Global,
        method: &MethodCode<'_>,
        leads: &[Lead],
        frame: &PackedFrame,
        changed: &[usize],
    ) -> Result<(), AllocError>
        requires linked { IsLinked (files_of method.now) }
        requires over { AreOver (body_of method.now) (tables_in (files_of method.now) self.old) }
        ensures { OnOk result (RaisesAll method.now self.old (map offset_of leads.now) frame.now changed.now self.new) }
    {
        for lead in leads {
            self.raise(alloc, method, lead.offset, frame, changed)?;
        }
        Ok(())
    }

    /// Merges what changed since an instruction near by, if that leads to a handler, too. Whether it does.
    fn raise_near(
        &mut self,
        alloc: Global,
        method: &MethodCode<'_>,
        origin: &Origin,
        handler: Handler,
        to: usize,
    ) -> Result<bool, AllocError>
        requires linked { IsLinked (files_of method.now) }
        requires over { AreOver (body_of method.now) (tables_in (files_of method.now) self.old) }
        ensures raised { IfOk result (λ near. near ≡ true
            → IsSomeAnd origin.now.near (λ n. (covers n.offset handler.entry ≡ true)
            × RaisesTo method.now self.old to origin.now.before n.changed.items self.new)) }
        ensures same { IfOk result (λ near. near ≡ false → self.new ≡ self.old) }
    {
        let Some(near) = &origin.near else {
            return Ok(false);
        };
        if !handler.covers(near.offset) {
            return Ok(false);
        }
        self.raise(alloc, method, to, &origin.before, &near.changed)?;
        Ok(true)
    }

    /// Merges one of all to which an instruction leads.
    fn merge_lead(
        &mut self,
        alloc: Global,
        method: &MethodCode<'_>,
        starts: &[bool],
        origin: &mut Origin,
        lead: Lead,
    ) -> Result<(), MethodFault>
        requires linked { IsLinked (files_of method.now) }
        requires starts { starts.now ≡ starts_of (body_of method.now).code.code }
        requires over { AreOver (body_of method.now) (tables_in (files_of method.now) self.old) }
        requires known { KnowsNear method.now self.old origin.old (lead ∷ []) }
        ensures merged { OnOk result
            (MergesInto method.now self.old (leads_in (files_of method.now) origin.old (lead ∷ [])) self.new) }
        ensures clash { IfErr result
            (IsClash method.now self.old (leads_in (files_of method.now) origin.old (lead ∷ []))) }
        ensures looks { OnOk result (KeepsLooks method.now self.old self.new) }
        ensures origin { IsSameOrigin origin.old origin.new }
    {
        let edge = Edge {
            from: origin.offset,
            to: lead.offset,
        };
        match lead.handler {
            None => match self.merge(alloc, method, starts, edge, &origin.after) {
                Ok(()) => Ok(()),
                Err(fault) => Err(fault),
            },
            Some(handler) => {
                if self.raise_near(alloc, method, origin, handler, lead.offset)? {
                    return Ok(());
                }
                origin.before.leave_on_stack(handler.caught)?;
                match self.merge(alloc, method, starts, edge, &origin.before) {
                    Ok(()) => Ok(()),
                    Err(fault) => Err(fault),
                }
            }
        }
    }

    /// Merges all to which an instruction leads, in their order.
    pub fn merge_all(
        &mut self,
        alloc: Global,
        method: &MethodCode<'_>,
        starts: &[bool],
        origin: Origin,
        leads: &[Lead],
    ) -> Result<(), MethodFault>
        requires linked { IsLinked (files_of method.now) }
        requires starts { starts.now ≡ starts_of (body_of method.now).code.code }
        requires over { AreOver (body_of method.now) (tables_in (files_of method.now) self.old) }
        requires known { KnowsNear method.now self.old origin leads.now }
        ensures merged { OnOk result
            (MergesInto method.now self.old (leads_in (files_of method.now) origin leads.now) self.new) }
        ensures clash { IfErr result (IsClash method.now self.old (leads_in (files_of method.now) origin leads.now)) }
        ensures looks { OnOk result (KeepsLooks method.now self.old self.new) }
    {
        if let Some(to) = only_target(leads) {
            let from = origin.offset;
            return self.merge_only(alloc, method, starts, Edge { from, to }, origin.after);
        }
        let mut origin = origin;
        for lead in leads {
            if let Err(fault) = self.merge_lead(alloc, method, starts, &mut origin, *lead) {
                return Err(fault);
            }
        }
        Ok(())
    }
}
