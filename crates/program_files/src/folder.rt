//! Files by their paths.

ghost use Rattle.std.specs.Prelude.{Bool, List, None, Option, Some, ℕ, IfErr, IfOk, OnErr, OnOk, true, vec_items};
ghost use Rattle.std.specs.Option.{option_map};
ghost use Rattle.std.specs.declared.string.String.{String as Text};
ghost use Rattle.std.specs.Global.{Global as System};
ghost use Rattle.program_files.specs.Folders.{IsFailure, IsListed, IsWith, Reads};

use std::alloc::Global;
use std::io;

/// A place whose files are found by their paths.
pub trait Folder {
    /// What the file at a path holds, where that is known. Of a file of the system it isn't.
    ghost held: { Self → List ℕ → Option (List ℕ) };

    /// The names of what lies in the folder at a path, in any order, where that is known; none where there is no
    /// folder.
    ghost listed: { Self → List ℕ → Option (Option (List (Text System))) };

    /// Whether it may fail to read, to list or to write what is at a path. Of what is in the system it may.
    ghost may_fail: { Self → List ℕ → Bool } = { λ _ _. true };

    /// Reads the file at a path. Where there is none, or it can't be read, that is an error.
    fn read(&self, alloc: Global, path: &str) -> io::Result<Vec<u8>>
        ensures read { IfOk result (λ bytes. Reads (held self.now path.now) bytes.items) }
        ensures failed { IfErr result (IsFailure (may_fail self.now path.now)) };

    /// The names of what lies in the folder at a path, in any order, or `None` where there is no folder.
    fn names(&self, alloc: Global, path: &str) -> io::Result<Option<Vec<String>>>
        ensures listed { IfOk result (λ names. IsListed (listed self.now path.now) (option_map vec_items names)) }
        ensures failed { IfErr result (IsFailure (may_fail self.now path.now)) };

    /// Tries whether a file can be made at a path, as far as that shows beforehand. Nothing is changed.
    fn try_write(&self, _alloc: Global, _path: &str) -> io::Result<()>
        ensures failed { IfErr result (IsFailure (may_fail self.now _path.now)) }
    {
        Ok(())
    }

    /// Makes a file of these bytes at a path, in place of one that is there. Every other file stays as it is, and
    /// after an error this one does, too.
    fn write(&mut self, alloc: Global, path: &str, bytes: &[u8]) -> io::Result<()>
        ensures written { OnOk result (IsWith (held self.old) (held self.new) (Some (path.now, bytes.now))) }
        ensures same { OnErr result (IsWith (held self.old) (held self.new) None) }
        ensures failed { IfErr result (IsFailure (may_fail self.old path.now)) };
}
