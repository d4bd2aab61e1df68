//! Lines on their way to where they are written.

ghost use Rattle.std.specs.Prelude.{◌≡◌, [], OnErr, OnOk};
ghost use Rattle.std.specs.Io.KnownBytes.{Appends};
ghost use Rattle.model.specs.Devices.{AppendsFront, Counts};
ghost use Rattle.program_runs.specs.traced_runs.Telling.{Gathers};

use model::{DeviceFault, Sink};
use std::alloc::Global;
use traces::Said;

/// How many bytes are gathered before they are written.
const GATHERED: usize = 32_768;

/// The text that is not written yet.
#[derive(Drop)]
pub(crate) struct Lines {
    pub(crate) text: Vec<u8>,
    /// Parts of a line on their way to the text.
    pub(crate) spare: Said,
}

impl Lines {
    pub(crate) fn new(alloc: Global) -> Lines
        ensures { result.text.items ≡ [] }
    {
        Lines {
            text: Vec::new(alloc),
            spare: Said::new(alloc),
        }
    }

    /// Writes the text.
    pub(crate) fn flush<W: Sink>(&mut self, output: &mut W) -> Result<(), DeviceFault>
        ensures written { OnOk result (Appends (W.contents output.old) (W.contents output.new) self.old.text.items) }
        ensures none { OnOk result (self.new.text.items ≡ []) }
        ensures part { OnErr result (AppendsFront (W.contents output.old) (W.contents output.new) self.old.text.items) }
        ensures counted { Counts result (W.failures output.old) (W.failures output.new) }
    {
        output.write_all(self.text.as_slice())?;
        self.text.clear();
        Ok(())
    }

    /// Writes the text, if it is long.
    pub(crate) fn ease<W: Sink>(&mut self, output: &mut W) -> Result<(), DeviceFault>
        ensures gathered { OnOk result (Gathers (W.contents output.old) (W.contents output.new)
            self.old.text.items self.new.text.items []) }
        ensures part { OnErr result (AppendsFront (W.contents output.old) (W.contents output.new) self.old.text.items) }
        ensures counted { Counts result (W.failures output.old) (W.failures output.new) }
    {
        if self.text.len() < GATHERED {
            return Ok(());
        }
        self.flush(output)
    }
}
