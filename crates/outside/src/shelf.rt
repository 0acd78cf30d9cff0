ghost use Rattle.std.specs.Prelude.{◌≡◌, ℕ, ◌≤◌, List, length, IfOk, IfSome, OnOk, IsErrOf, Option};
ghost use Rattle.outside.specs.Faults.{Rose, NoneFalls};
ghost use Rattle.outside.specs.Shelf.{Files, held, ReadsAt, Puts, PutsInPart};

use crate::failed::Failed;

/// Files under names.
///
/// `files` is what the shelf holds, where that is told. `read_faults` and `put_faults` count the
/// faults of a name. No count falls in any call.
pub trait Shelf {
    ghost files: { Self → Option Files };

    ghost read_faults: { Self → List ℕ → ℕ };

    ghost put_faults: { Self → List ℕ → ℕ };

    /// Reads into the front of `buf` what the file has from the place `at` on, and returns how many
    /// bytes that are. With a buffer that isn't empty, 0 is the end of the file.
    ///
    /// A file that is missing is a fault. Only a fault is counted.
    fn read_at(&mut self, name: &str, at: u64, buf: &mut [u8]) -> Result<usize, Failed>
        ensures fits { IfOk result (λ n. n ≤ length buf.new) }
        ensures bytes { IfOk result (λ n. IfSome (files self.old) (λ fs. ReadsAt (held fs name.now) at n buf.new)) }
        ensures unchanged { files self.new ≡ files self.old }

        ensures cause { IsErrOf result Failed.Fault → Rose (read_faults self.old name.now) (read_faults self.new name.now) }
        ensures quiet { OnOk result (read_faults self.new name.now ≡ read_faults self.old name.now) }
        ensures quiet_memory { IsErrOf result Failed.Memory → read_faults self.new name.now ≡ read_faults self.old name.now }
        ensures reads { NoneFalls (read_faults self.old) (read_faults self.new) }
        ensures puts { NoneFalls (put_faults self.old) (put_faults self.new) };

    /// Lets `bytes` stand under `name`, in the place of what stood there.
    ///
    /// After a fault the name has its old state or a prefix of the new bytes, and after want of
    /// memory its old state. Other names stay as they were.
    fn put(&mut self, name: &str, bytes: &[u8]) -> Result<(), Failed>
        ensures ok { OnOk result (Puts name.now bytes.now (files self.old) (files self.new)) }
        ensures fault { IsErrOf result Failed.Fault → PutsInPart name.now bytes.now (files self.old) (files self.new) }
        ensures memory { IsErrOf result Failed.Memory → files self.new ≡ files self.old }

        ensures cause { IsErrOf result Failed.Fault → Rose (put_faults self.old name.now) (put_faults self.new name.now) }
        ensures reads { NoneFalls (read_faults self.old) (read_faults self.new) }
        ensures puts { NoneFalls (put_faults self.old) (put_faults self.new) };
}
