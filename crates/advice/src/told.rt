//! What is told of a place in a file.

ghost use Rattle.std.specs.Prelude.{◌≡◌, OnOk};
ghost use Rattle.advice.specs.Told.{Keeps, IsTold};

use std::alloc::AllocError;

/// A place in a file of which something is told. Fields, methods and exception entries count from 0.
#[derive(Clone, Copy)]
pub enum ToldPlace {
    /// The whole file.
    File,
    /// What stands above its class.
    Class,
    Field { field: usize },
    /// The declaration of a method.
    Method { method: usize },
    /// The instruction at an offset of the method's code.
    Instruction { method: usize, pc: usize },
    /// An entry of the exception table of the method's code.
    Exception { method: usize, entry: usize },
}

/// What is told of a place in a file, which counts from 0, in a line without its end.
#[derive(Drop)]
pub struct Told {
    pub file: usize,
    pub place: ToldPlace,
    pub words: Vec<u8>,
}

/// Adds what is told.
pub(crate) fn push_told(
    told: &mut Vec<Told>,
    file: usize,
    place: ToldPlace,
    words: Vec<u8>,
) -> Result<(), AllocError>
    ensures kept { OnOk result (Keeps told.old.items told.new.items) }
    ensures told { OnOk result (IsTold told.new.items file place) }
{
    told.push(Told { file, place, words })?;
    Ok(())
}
