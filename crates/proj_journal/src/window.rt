// A window on a disk: a piece of it that was read ahead, so that a small record doesn't cost a read of its own.
ghost use Rattle.std.specs.Prelude.{◌≡◌, ◌≤◌, length, take, drop, IsErr, IfOk, OnOk, IfSome};
ghost use Rattle.proj_io.specs.Counts.{Counts};
ghost use Rattle.proj_io.specs.Stops.{OnlyAdds, Nothing};
ghost use Rattle.proj_disk.specs.Disks.{front_at};
ghost use Rattle.proj_journal.specs.Windows.{IsWindow, ShowsAt};

use proj_disk::Disk;
use proj_io::Failed;
use std::alloc::{AllocError, Global};

// The bytes of a window.
const WINDOW: usize = 65_536;

// The bytes of a disk from a place on, so many of them.
#[derive(Drop)]
pub(crate) struct Window {
    from: u64,
    bytes: Vec<u8>,
    count: usize,
}

impl Window {
    // A window that shows nothing.
    pub(crate) fn new(alloc: Global) -> Result<Window, AllocError>
        ensures none { IfOk result (λ window. window.count ≡ 0) }
        ensures room { IfOk result (λ window. 5 ≤ length window.bytes.items) }
    {
        let bytes = vec![in alloc; 0; WINDOW]?;
        Ok(Window {
            from: 0,
            bytes,
            count: 0,
        })
    }

    // Brings the five bytes from a place on into the window, or as many as there are, and says where in it they begin.
    pub(crate) fn look<D: Disk>(&mut self, disk: &mut D, at: u64) -> Result<usize, Failed>
        requires { IsWindow (D.content disk.old) self.old }
        ensures within { IfOk result (λ skip. skip ≤ self.new.count) }
        ensures shown { IfOk result (λ skip. ShowsAt (D.content disk.old) at skip self.new) }
        ensures window { OnOk result (IsWindow (D.content disk.old) self.new) }
        ensures same { D.content disk.new ≡ D.content disk.old }
        ensures stops { OnlyAdds (D.moment disk.old) (D.moment disk.new)
            (D.left_since disk.old) (D.left_since disk.new) Nothing }
        ensures cause { Counts (D.faults disk.old) (D.faults disk.new) (IsErr result) }
    {
        let skip = at.saturating_sub(self.from);
        if self.from <= at && self.count >= 5 && skip <= self.count as u64 - 5 {
            return Ok(skip as usize);
        }
        self.from = at;
        self.count = 0;
        self.count = fill(disk, at, &mut self.bytes)?;
        Ok(0)
    }

    // The five bytes that begin there, or as many as there are.
    pub(crate) fn head(&self, skip: usize) -> &[u8]
        requires within { skip ≤ self.now.count }
        requires count { self.now.count ≤ length self.now.bytes.items }
        ensures { result.now ≡ take 5 (drop skip (take self.now.count self.now.bytes.items)) }
    {
        &self.bytes[skip..self.count.min(skip.saturating_add(5))]
    }
}

// Reads from a place on, as much as there is room for.
fn fill<D: Disk>(disk: &mut D, at: u64, bytes: &mut Vec<u8>) -> Result<usize, Failed>
    ensures bound { IfOk result (λ n. n ≤ length bytes.new.items) }
    ensures bytes { IfOk result (λ n. IfSome (D.content disk.old) (λ view.
        take n bytes.new.items ≡ front_at at (length bytes.new.items) view.bytes)) }
    ensures room { length bytes.new.items ≡ length bytes.old.items }
    ensures same { D.content disk.new ≡ D.content disk.old }
    ensures stops { OnlyAdds (D.moment disk.old) (D.moment disk.new)
        (D.left_since disk.old) (D.left_since disk.new) Nothing }
    ensures cause { Counts (D.faults disk.old) (D.faults disk.new) (IsErr result) }
{
    disk.read(at, bytes)
}
