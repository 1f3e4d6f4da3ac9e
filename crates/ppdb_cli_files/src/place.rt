// What a system is asked to do with a file.
ghost use Rattle.std.specs.Prelude.{◌≡◌, List, Option, Bool};
ghost use Rattle.ppdb_cli_files.specs.Log.{Logs};
ghost use Rattle.ppdb_cli_files.specs.Retried.{IsRetried};
ghost use Rattle.ppdb_cli_files.specs.declared.place.Made.{Made as made_call};

use ppdb_base::Bytes;
use std::io;

/// A call to the system about a file and a new file beside it.
#[derive(Drop)]
pub enum Call {
    /// Makes the new file, without bytes.
    Create,
    /// Writes bytes at the end of the new file.
    Write(Bytes),
    /// Puts all of the new file on the disk.
    Flush,
    /// Gives the new file the name of the file, whose old contents lose it.
    Rename,
    /// Puts the names of the folder on the disk.
    FlushFolder,
    /// Removes the new file.
    Remove,
    /// Writes bytes into the file itself, over its old ones, and puts them on the disk.
    Overwrite(Bytes),
}

/// A call that was made, and whether it succeeded.
#[derive(Drop)]
pub struct Made {
    pub call: Call,
    pub succeeded: bool,
}

/// The name of a file in a folder, and what a system can do there. A new file beside it has a name
/// that no other file has. A call that a signal interrupts is made again.
pub trait Place {
    /// The calls that were made, the oldest first, where the place reports them.
    ghost log: { Self → Option (List made_call) };

    /// Whether the name can be given to a new file: it has no file, or a regular one.
    ghost takes_new: { Self → Bool };

    /// Whether the name can be given to a new file.
    fn takes_new(&self) -> bool
        ensures { result ≡ takes_new self.now };

    /// Makes the new file, without bytes.
    fn create(&mut self) -> io::Result<()>
        ensures { Logs (log self.old) (log self.new) Call.Create result };

    /// Writes all bytes at the end of the new file.
    fn write(&mut self, bytes: &[u8]) -> io::Result<()>
        ensures call { Logs (log self.old) (log self.new) (Call.Write bytes.now) result }
        ensures retried { IsRetried result };

    /// Puts all of the new file on the disk.
    fn flush(&mut self) -> io::Result<()>
        ensures { Logs (log self.old) (log self.new) Call.Flush result };

    /// Gives the new file the name.
    fn rename(&mut self) -> io::Result<()>
        ensures call { Logs (log self.old) (log self.new) Call.Rename result }
        ensures retried { IsRetried result };

    /// Puts the names of the folder on the disk.
    fn flush_folder(&mut self) -> io::Result<()>
        ensures { Logs (log self.old) (log self.new) Call.FlushFolder result };

    /// Removes the new file.
    fn remove(&mut self) -> io::Result<()>
        ensures call { Logs (log self.old) (log self.new) Call.Remove result }
        ensures retried { IsRetried result };

    /// Writes all bytes into the file itself, and puts them on the disk.
    fn overwrite(&mut self, bytes: &[u8]) -> io::Result<()>
        ensures { Logs (log self.old) (log self.new) (Call.Overwrite bytes.now) result };
}
