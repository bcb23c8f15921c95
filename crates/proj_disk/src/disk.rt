// A disk.
ghost use Rattle.std.specs.Prelude.{◌≡◌, ◌<◌, ◌≤◌, ◌+◌, ◌-◌, ◌^◌, List, ℕ, length, take};
ghost use Rattle.std.specs.Prelude.{drop, Option, IfOk};
ghost use Rattle.std.specs.Prelude.{OnOk, IfSome, IsErr, IsErrOf};
ghost use Rattle.std.specs.Option.{option_map};
ghost use Rattle.proj_io.specs.Counts.{Counts};
ghost use Rattle.proj_disk.specs.Disks.{DiskView, IsImage, IsLeftBy, IsTornIfKnown, Elapses, written, stable, front_at};

use proj_io::{Failed, SinkError};

/// Bytes that are read and written at places. Until a sync succeeds a stop may leave any bytes in the ranges that were
/// written since the last one. Its count of faults is a u64 that stays at its last value; a call that doesn't fail
/// leaves it.
pub trait Disk {
    /// Its bytes and what is stable of them, where that is known. No call changes whether it is.
    ghost content: { Self → Option DiskView };

    /// How often it has failed.
    ghost faults: { Self → ℕ };

    /// The moment, a number that doesn't fall.
    ghost moment: { Self → ℕ };

    /// What a stop at some moment from that one on may have left, during a call or between two.
    ghost left_since: { Self → ℕ → List ℕ → Type 0 };

    /// The number of bytes.
    fn len(&mut self) -> Result<u64, Failed>
        ensures count { IfOk result (λ n. IfSome (content self.old) (λ disk. n ≡ length disk.bytes)) }
        ensures same { content self.new ≡ content self.old }
        ensures time { Elapses (moment self.old) (moment self.new) (left_since self.old) (left_since self.new)
            (content self.new) }
        ensures cause { Counts (faults self.old) (faults self.new) (IsErr result) }
        ensures calm { OnOk result (faults self.new ≡ faults self.old) };

    /// Puts the bytes from a place on at the front of the buffer, and says how many these are.
    fn read(&mut self, at: u64, buf: &mut [u8]) -> Result<usize, Failed>
        ensures bound { IfOk result (λ n. n ≤ length buf.old) }
        ensures bytes { IfOk result (λ n. IfSome (content self.old) (λ disk.
            take n buf.new ≡ front_at at (length buf.old) disk.bytes)) }
        ensures rest { IfOk result (λ n. drop n buf.new ≡ drop n buf.old) }
        ensures same { content self.new ≡ content self.old }
        ensures time { Elapses (moment self.old) (moment self.new) (left_since self.old) (left_since self.new)
            (content self.new) }
        ensures cause { Counts (faults self.old) (faults self.new) (IsErr result) }
        ensures calm { OnOk result (faults self.new ≡ faults self.old) };

    /// Writes over what is there, and past the end. Where it fails, any bytes may stand in the range.
    fn write_at(&mut self, at: u64, piece: &[u8]) -> Result<(), SinkError>
        requires inside { IfSome (content self.old) (λ disk. at ≤ length disk.bytes) }
        requires small { at + length piece.now ≤ 2 ^ 50 }
        ensures written { OnOk result (content self.new ≡ option_map (written at piece.now) (content self.old)) }
        ensures failed { IsErrOf result SinkError.Failed →
            IsTornIfKnown at (length piece.now) (content self.old) (content self.new) }
        ensures memory { IsErrOf result SinkError.OutOfMemory → content self.new ≡ content self.old }
        ensures time { Elapses (moment self.old) (moment self.new) (left_since self.old) (left_since self.new)
            (content self.new) }
        ensures cause { Counts (faults self.old) (faults self.new) (IsErrOf result SinkError.Failed) }
        ensures calm { OnOk result (faults self.new ≡ faults self.old) }
        ensures calm_memory { IsErrOf result SinkError.OutOfMemory → faults self.new ≡ faults self.old };

    /// After it a stop leaves what a read gives. Where it fails, what was written may be stable or not.
    fn sync(&mut self) -> Result<(), Failed>
        ensures stable { OnOk result (content self.new ≡ option_map (λ disk. stable disk.bytes) (content self.old)) }
        ensures failed { IsErr result → content self.new ≡ content self.old }
        ensures time { Elapses (moment self.old) (moment self.new) (left_since self.old) (left_since self.new)
            (content self.new) }
        ensures cause { Counts (faults self.old) (faults self.new) (IsErr result) }
        ensures calm { OnOk result (faults self.new ≡ faults self.old) };

    /// What a stop may leave now counts since each moment so far.
    ghost counts_now: { (disk : Self) (t : ℕ) (image : List ℕ) → t ≤ moment disk →
        IsLeftBy (content disk) image →
        left_since disk t image };

    /// Since this moment there is nothing else.
    ghost only_now: { (disk : Self) (image : List ℕ) → left_since disk (moment disk) image →
        IsLeftBy (content disk) image };

    /// What a read gives is one of the images that a stop may leave.
    ghost reads: { (disk : Self) → IfSome (content disk) (λ view. IsImage view view.bytes) };

    /// The count of faults is a u64.
    ghost in_range: { (disk : Self) → faults disk ≤ 2 ^ 64 - 1 };
}
