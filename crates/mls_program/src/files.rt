//! Files that are opened and stored by name.

ghost use Rattle.std.specs.Prelude.{◌≡◌, false, true, None, IfSome};
ghost use Rattle.mls_wire.specs.Devices.{IsWorking};
ghost use Rattle.mls_program.specs.Files.{Opener};

use mls_wire::Source;

/// What opens files for reading, and stores files.
pub trait Files {
    /// A file that is open.
    type File: Source;

    /// What contracts know of these files: what a file of a name may be when it is opened or stored, and what is left in an
    /// open file.
    ghost opener: { Self → Opener Self.File };

    /// Opens the file with this name, for reading from its front; `None` if it cannot be opened.
    fn open(&self, name: &str) -> Option<Self::File>
        ensures given { IfSome result (λ file. (opener self.now).gives name.now file) }
        ensures fresh { IfSome result (λ file. IsWorking (Self.File.device file)) }
        ensures none { result ≡ None → (opener self.now).lacks name.now };

    /// Stores a file with this name and exactly these bytes, in place of one that has the name. Returns whether it is
    /// stored. If not, a file that has the name should still be there as it was; no postcondition says so.
    fn save(&self, name: &str, bytes: &[u8]) -> bool
        ensures stored { result ≡ true → (opener self.now).stores name.now bytes.now }
        ensures refused { result ≡ false → (opener self.now).refuses name.now bytes.now };

    /// What contracts know of an open file is what it says itself of its bytes, and of whether it has failed.
    ghost device_is: { (files : Self) → (opener files).device ≡ Self.File.device };
}
