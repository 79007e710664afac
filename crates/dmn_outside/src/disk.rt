//! A disk of three files, which a crash may leave in more than one way.

ghost use Rattle.std.specs.Prelude.{◌≡◌, ◌+◌, ◌<◌, ◌≤◌, ◌^◌, true, length, IfOk, OnOk, OnErr};
ghost use Rattle.dmn_outside.specs.Changes.{Changes, Keeps, MayChange, ReadsAt, after_cut, after_cut_torn, after_read, after_sync, after_torn, after_write};
ghost use Rattle.dmn_outside.specs.Counts.{HasCause, Passes};
ghost use Rattle.dmn_outside.specs.Disk.{IfReads, pick};
ghost use Rattle.dmn_outside.specs.Failing.{DoesSurely, IsPlanned, IsPlannedAlone, WritesSurely};

use crate::{Device, Failed};

/// Files 0, 1 and 2, which are independent. Until a sync a crash may leave what was written or cut since the last one, the
/// file as it was, or a part of each.
pub trait Disk: Device {
    /// How many bytes the file has.
    fn size(&mut self, file: u8) -> Result<u64, Failed>
        requires { file ≤ 2 }
        ensures size { IfOk result (λ n. IfReads (Self.disk self.old).told (λ all. n ≡ length (pick file all))) }
        ensures disk { Keeps (Self.disk self.old) (Self.disk self.new) }
        ensures line { Self.line self.new ≡ Self.line self.old }
        ensures room { Self.room self.new ≡ Self.room self.old }
        ensures time { Passes (Self.time self.old) (Self.time self.new) }
        ensures cause { HasCause (Self.disk self.old).faults (Self.disk self.new).faults result }
        ensures sure { Self.tells_room ≡ true → DoesSurely result (Self.disk self.old) (Self.disk self.new) }
        ensures planned { Self.tells_plan ≡ true → IsPlannedAlone (Self.plan self.old) (Self.plan self.new) (Self.time self.old) result };

    /// Reads all bytes that are asked for and are there, and says how many: fewer only at the file's end. It alone
    /// changes how many bytes were read, and the least place.
    fn read_at(&mut self, file: u8, at: u64, out: &mut [u8]) -> Result<usize, Failed>
        requires file { file ≤ 2 }
        requires fits { at + length out.old < 2 ^ 64 }
        ensures most { IfOk result (λ n. n ≤ length out.old) }
        ensures bytes { IfOk result (λ n. IfReads (Self.disk self.old).told (λ all. ReadsAt (pick file all) at n out.old out.new)) }
        ensures disk { IfOk result (λ n. (Self.disk self.new).told ≡ after_read file at n (Self.disk self.old).told) }
        ensures failed { OnErr result ((Self.disk self.new).told ≡ (Self.disk self.old).told) }
        ensures past { (Self.disk self.new).past ≡ (Self.disk self.old).past }
        ensures line { Self.line self.new ≡ Self.line self.old }
        ensures room { Self.room self.new ≡ Self.room self.old }
        ensures time { Passes (Self.time self.old) (Self.time self.new) }
        ensures cause { HasCause (Self.disk self.old).faults (Self.disk self.new).faults result }
        ensures sure { Self.tells_room ≡ true → DoesSurely result (Self.disk self.old) (Self.disk self.new) }
        ensures planned { Self.tells_plan ≡ true → IsPlannedAlone (Self.plan self.old) (Self.plan self.new) (Self.time self.old) result };

    /// Writes bytes at a place, with zeros in front of them where it lies behind the file's end. Until a sync a crash may
    /// leave any bytes in the range, also where the call failed.
    fn write_at(&mut self, file: u8, at: u64, bytes: &[u8]) -> Result<(), Failed>
        requires file { file ≤ 2 }
        requires fits { at + length bytes.now < 2 ^ 64 }
        ensures disk { OnOk result (Changes (Self.time self.old) (after_write file at bytes.now) (Self.disk self.old) (Self.disk self.new)) }
        ensures failed { OnErr result (MayChange (Self.time self.old) (after_torn file at (length bytes.now)) (Self.disk self.old) (Self.disk self.new)) }
        ensures line { Self.line self.new ≡ Self.line self.old }
        ensures room { Self.room self.new ≡ Self.room self.old }
        ensures time { Passes (Self.time self.old) (Self.time self.new) }
        ensures cause { HasCause (Self.disk self.old).faults (Self.disk self.new).faults result }
        ensures sure { Self.tells_room ≡ true → WritesSurely (at + length bytes.now) result (Self.disk self.old) (Self.disk self.new) }
        ensures planned { Self.tells_plan ≡ true → IsPlanned (Self.plan self.old) (Self.plan self.new) (Self.time self.old) result };

    /// Cuts the file to a length; one at or above its size changes nothing. Until a sync it has happened or not, also
    /// where the call failed.
    fn cut(&mut self, file: u8, len: u64) -> Result<(), Failed>
        requires { file ≤ 2 }
        ensures disk { OnOk result (Changes (Self.time self.old) (after_cut file len) (Self.disk self.old) (Self.disk self.new)) }
        ensures failed { OnErr result (MayChange (Self.time self.old) (after_cut_torn file len) (Self.disk self.old) (Self.disk self.new)) }
        ensures line { Self.line self.new ≡ Self.line self.old }
        ensures room { Self.room self.new ≡ Self.room self.old }
        ensures time { Passes (Self.time self.old) (Self.time self.new) }
        ensures cause { HasCause (Self.disk self.old).faults (Self.disk self.new).faults result }
        ensures sure { Self.tells_room ≡ true → DoesSurely result (Self.disk self.old) (Self.disk self.new) }
        ensures planned { Self.tells_plan ≡ true → IsPlanned (Self.plan self.old) (Self.plan self.new) (Self.time self.old) result };

    /// After it a crash leaves of the file what a read gives. Where it fails, all is as before.
    fn sync(&mut self, file: u8) -> Result<(), Failed>
        requires { file ≤ 2 }
        ensures disk { OnOk result (Changes (Self.time self.old) (after_sync file) (Self.disk self.old) (Self.disk self.new)) }
        ensures failed { OnErr result (Keeps (Self.disk self.old) (Self.disk self.new)) }
        ensures line { Self.line self.new ≡ Self.line self.old }
        ensures room { Self.room self.new ≡ Self.room self.old }
        ensures time { Passes (Self.time self.old) (Self.time self.new) }
        ensures cause { HasCause (Self.disk self.old).faults (Self.disk self.new).faults result }
        ensures sure { Self.tells_room ≡ true → DoesSurely result (Self.disk self.old) (Self.disk self.new) }
        ensures planned { Self.tells_plan ≡ true → IsPlanned (Self.plan self.old) (Self.plan self.new) (Self.time self.old) result };
}
