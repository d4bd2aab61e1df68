//! Places, and the words of a text with places.

ghost use Rattle.place_texts.specs.Fitting.{Fits};
ghost use Rattle.std.proofs.Props.{props};

use model::ScheduleEntry;

/// Where in the code of a method.
#[derive(Clone, Copy, Debug)]
pub enum Position {
    /// At an offset at which the line table of the class file begins this line (JVMS 4.7.12).
    Line(u16),
    /// At this offset, in bytes from the start of the code.
    Offset(u16),
}

/// A place in the code of the methods of a name.
#[derive(Drop)]
pub struct Place {
    /// The class that declares them, in internal form: `java/util/Stack`.
    pub class: Vec<u8>,
    pub method: Vec<u8>,
    /// That of the method that is meant; all of the name where there is none.
    pub descriptor: Option<Vec<u8>>,
    pub position: Position,
}

/// What a word of a text with places stands for.
#[derive(Drop)]
pub enum Deed {
    /// So many equal events.
    Entry(ScheduleEntry),
    /// The thread goes on until its next bytecode is at the place.
    Until(u16, Place),
}

/// A word of a text, with the line in which it stands, counted from 1.
#[derive(Drop)]
pub struct PlacedDeed {
    pub deed: Deed,
    pub line: u64,
    ghost fits: { Fits deed } by { Prim.hlevel props },
}
