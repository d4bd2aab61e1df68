//! Frame types as a search keeps them.

ghost use Rattle.std.specs.Prelude.{◌≡◌, [], ◌∷◌, length, replicate, slice_index_or, slice_set, IfOk, IfSome, OnOk, IsTrue};
ghost use Rattle.types.specs.declared.verification_type.VerificationType.TheVariants as type;
ghost use Rattle.verifier.specs.Agreeing.{AgreeAt};
ghost use Rattle.verifier.specs.Packed.{parts_of};

use crate::locals::{Locals, locals_of, unusable_locals};
use crate::run::are_same_types;
use std::alloc::{AllocError, Global};
use std::marker::Model;
use types::{FrameType, VerificationType};

/// So few local variables are copied with those that aren't asked for.
const FEW_LOCALS: usize = 16;

/// A frame type.
#[derive(Drop)]
pub(crate) struct PackedFrame {
    locals: Locals,
    /// How many local variables there are.
    local_count: usize,
    /// The top comes last.
    stack: Vec<VerificationType>,
    constructed: bool,
}

impl Model for PackedFrame {
    ghost use Rattle.std.specs.Prelude.{◌≡◌, length};
    ghost use Rattle.verifier.specs.Packed.{Parts, locals_in};

    ghost Value = { Parts };

    ghost view = { λ f. record { locals = locals_in f.locals; stack = f.stack.items; constructed = f.constructed } };

    ghost invariant = { λ f. f.local_count ≡ length (locals_in f.locals) };
}

impl PackedFrame {
    pub fn pack(alloc: Global, frame: FrameType) -> Result<PackedFrame, AllocError>
        ensures { IfOk result (λ packed. packed ≡ parts_of frame) }
    {
        let local_count = frame.locals.len();
        let locals = locals_of(alloc, frame.locals)?;
        Ok(PackedFrame {
            locals,
            local_count,
            stack: frame.stack,
            constructed: frame.constructed,
        })
    }

    pub fn unpack(&self, alloc: Global) -> Result<FrameType, AllocError>
        ensures { IfOk result (λ frame. parts_of frame ≡ self.now) }
    {
        let locals = self.locals.types(alloc, self.local_count)?;
        let stack = Vec::from_slice(alloc, &self.stack)?;
        Ok(FrameType {
            locals,
            stack,
            constructed: self.constructed,
        })
    }

    pub fn copy(&self, alloc: Global) -> Result<PackedFrame, AllocError>
        ensures { IfOk result (λ copy. copy ≡ self.now) }
    {
        let locals = self.locals.copy(alloc)?;
        let stack = Vec::from_slice(alloc, &self.stack)?;
        Ok(PackedFrame {
            locals,
            local_count: self.local_count,
            stack,
            constructed: self.constructed,
        })
    }

    /// So many local variables that are not usable, and an empty stack.
    fn unusable(alloc: Global, local_count: usize) -> Result<PackedFrame, AllocError>
        ensures { IfOk result (λ frame. frame.locals ≡ replicate local_count type.Unusable) }
    {
        let locals = unusable_locals(alloc, local_count)?;
        Ok(PackedFrame {
            locals,
            local_count,
            stack: Vec::new(alloc),
            constructed: false,
        })
    }

    /// No local variables, and an empty stack.
    pub fn nothing(alloc: Global) -> PackedFrame
        ensures { result.locals ≡ [] }
    {
        PackedFrame {
            locals: Locals::Each(Vec::new(alloc)),
            local_count: 0,
            stack: Vec::new(alloc),
            constructed: false,
        }
    }

    /// A frame type with the same local variables, and an empty stack.
    fn locals_alone(&self, alloc: Global) -> Result<PackedFrame, AllocError>
        ensures { IfOk result (λ alone. alone.locals ≡ self.now.locals) }
    {
        let locals = self.locals.copy(alloc)?;
        Ok(PackedFrame {
            locals,
            local_count: self.local_count,
            stack: Vec::new(alloc),
            constructed: false,
        })
    }

    /// A frame type with as many local variables, and what these hold.
    pub fn only(&self, alloc: Global, locals: &[usize]) -> Result<PackedFrame, AllocError>
        ensures { IfOk result (λ only. AgreeAt locals.now only.locals self.now.locals) }
    {
        if self.local_count <= FEW_LOCALS {
            return self.locals_alone(alloc);
        }
        let mut only = PackedFrame::unusable(alloc, self.local_count)?;
        'locals: for local in locals {
            only.set_local(alloc, *local, self.local_at(*local))?;
        }
        Ok(only)
    }

    /// Leaves one type alone on the stack.
    pub fn leave_on_stack(&mut self, t: VerificationType) -> Result<(), AllocError>
        ensures stack { OnOk result (self.new.stack ≡ t ∷ []) }
        ensures locals { self.new.locals ≡ self.old.locals }
        ensures constructed { self.new.constructed ≡ self.old.constructed }
    {
        self.stack.clear();
        self.stack.push(t)?;
        Ok(())
    }

    /// Gives a local variable another type.
    pub fn set_local(
        &mut self,
        alloc: Global,
        local: usize,
        t: VerificationType,
    ) -> Result<(), AllocError>
        ensures locals { OnOk result (self.new.locals ≡ slice_set self.old.locals local t) }
        ensures stack { self.new.stack ≡ self.old.stack }
        ensures constructed { self.new.constructed ≡ self.old.constructed }
    {
        self.locals.set(alloc, self.local_count, local, t)
    }

    /// Whether two have the same stack.
    pub fn has_same_stack(&self, other: &PackedFrame) -> bool
        ensures { IsTrue result → self.now.stack ≡ other.now.stack }
    {
        are_same_types(&self.stack, &other.stack)
    }

    /// Whether two are the same frame type.
    pub fn is_same(&self, other: &PackedFrame) -> bool
        ensures { IsTrue result → self.now ≡ other.now }
    {
        self.constructed == other.constructed
            && are_same_types(&self.stack, &other.stack)
            && self.locals.is_same(&other.locals)
    }

    /// The types of the local variables, if they are kept one by one.
    pub fn each_local(&self) -> Option<&[VerificationType]>
        ensures { IfSome result (λ types. types.now ≡ self.now.locals) }
    {
        self.locals.each()
    }

    /// The types of the local variables.
    pub fn locals(&self, alloc: Global) -> Result<Vec<VerificationType>, AllocError>
        ensures { IfOk result (λ types. types.items ≡ self.now.locals) }
    {
        self.locals.types(alloc, self.local_count)
    }

    /// The type of a local variable; where there is none, what is not usable.
    pub fn local_at(&self, local: usize) -> VerificationType
        ensures { result ≡ slice_index_or self.now.locals local type.Unusable }
    {
        self.locals.at(local)
    }

    /// Whether both are constructed, or none is.
    pub fn is_as_constructed(&self, other: &PackedFrame) -> bool
        ensures { IsTrue result → self.now.constructed ≡ other.now.constructed }
    {
        self.constructed == other.constructed
    }

    /// How many local variables there are.
    pub fn local_count(&self) -> usize
        ensures { result ≡ length self.now.locals }
    {
        self.local_count
    }

    /// How many words there are on the stack.
    pub fn stack_depth(&self) -> usize
        ensures { result ≡ length self.now.stack }
    {
        self.stack.len()
    }
}
