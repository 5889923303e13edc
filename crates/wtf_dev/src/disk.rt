//! A device with eight files. A written range is pending until a sync of its file answers `Ok`: until then a stop may
//! leave any bytes there.

ghost use Rattle.std.specs.Prelude.{◌≡◌, ◌<◌, ◌≤◌, ◌+◌, ◌^◌, true, max, length, take, drop, OnOk, OnErr};
ghost use Rattle.wtf_dev.specs.Counts.{Rose};
ghost use Rattle.wtf_dev.specs.Disk.{DiskKind, DiskLaws, DiskReads, DiskWrites, DiskSyncs, IsSettled, Remains, overwritten};

use crate::Failed;

/// A device with the files 0 to 7. None is longer than 2^61 - 1 bytes, and none gets shorter.
pub trait Disk {
    /// What contracts see of such a disk, and what a stop since a moment might have left.
    ghost kind: { DiskKind Self };

    /// The length of a file, in bytes.
    fn length(&self, file: u8) -> u64
        requires { file < 8 }
        ensures value { result ≡ (kind.view self.now).size file }
        ensures fits { result < 2 ^ 61 };

    /// Puts the bytes of a file from offset `at` on into `out`. After `Failed` nothing is known of `out`.
    fn read(&mut self, file: u8, at: u64, out: &mut [u8]) -> Result<(), Failed>
        requires file { file < 8 }
        requires inside { at + length out.old ≤ (kind.view self.old).size file }
        ensures bytes { OnOk result ((kind.view self.old).tells ≡ true →
            out.new ≡ take (length out.old) (drop at ((kind.view self.old).file file).seen)) }
        ensures kept { DiskReads kind self.old self.new }
        ensures cause { OnErr result
            (Rose (kind.view self.old).faults (kind.view self.new).faults) };

    /// Writes bytes from offset `at` on, over what is there and past the end. After `Failed` the range is
    /// pending and not known.
    fn write(&mut self, file: u8, at: u64, bytes: &[u8]) -> Result<(), Failed>
        requires file { file < 8 }
        requires inside { at ≤ (kind.view self.old).size file }
        ensures length { OnOk result ((kind.view self.new).size file ≡
            max ((kind.view self.old).size file) (at + length bytes.now)) }
        ensures fits { OnOk result (at + length bytes.now < 2 ^ 61) }
        ensures written { OnOk result ((kind.view self.old).tells ≡ true →
            ((kind.view self.new).file file).seen ≡
            overwritten ((kind.view self.old).file file).seen at bytes.now) }
        ensures kept { DiskWrites kind file at (length bytes.now) self.old self.new }
        ensures cause { OnErr result
            (Rose (kind.view self.old).faults (kind.view self.new).faults) };

    /// Brings the bytes of a file to where they last. After `Failed` what was pending still is.
    fn sync(&mut self, file: u8) -> Result<(), Failed>
        requires { file < 8 }
        ensures settled { OnOk result ((kind.view self.old).tells ≡ true →
            IsSettled ((kind.view self.old).file file).seen ((kind.view self.new).file file)) }
        ensures remains { OnErr result ((kind.view self.old).tells ≡ true →
            Remains ((kind.view self.old).file file) ((kind.view self.new).file file)) }
        ensures kept { DiskSyncs kind file self.old self.new }
        ensures cause { OnErr result
            (Rose (kind.view self.old).faults (kind.view self.new).faults) };

    /// Such a disk keeps to the laws of all disks.
    ghost laws: { DiskLaws kind };
}
