//! What the calls of all devices mean.

ghost use Rattle.std.specs.Prelude.{◌≡◌, ℕ, Bool, true, length};
ghost use Rattle.dmn_outside.specs.Disk.{AreOver, DiskView, ReadsAreLeft, TellsAsMuch};
ghost use Rattle.dmn_outside.specs.Failing.{Plan};
ghost use Rattle.dmn_outside.specs.Line.{LineView};

use crate::Failed;

/// A disk failed.
#[derive(Clone, Copy, Debug, PartialEq, Eq)]
pub struct DiskFault;

impl From<Failed> for DiskFault {
    ghost from_gives = { λ failed fault. Unit {0} };

    fn from(_: Failed) -> DiskFault {
        DiskFault
    }
}

/// A line failed.
#[derive(Clone, Copy, Debug, PartialEq, Eq)]
pub struct LineFault;

/// The meanings of disk, line and time. It has no call of its own, so that each call elsewhere can say what it leaves.
pub trait Device {
    /// Whether it tells its contents: what the files hold, and the line's bytes.
    ghost tells: { Bool };

    /// Whether it also tells the moments of what it does, and with them what a crash may leave and what was read.
    ghost tells_moments: { Bool };

    /// What the files hold, what a crash may leave now or might have left before, what was read, and how often the disk
    /// failed.
    ghost disk: { Self → DiskView };

    /// What the line holds.
    ghost line: { Self → LineView };

    /// A number of moments, which each call raises.
    ghost time: { Self → ℕ };

    /// Of the disk as much is told as of the line.
    ghost as_much: { (station : Self) → TellsAsMuch tells tells_moments (disk station).told };

    /// A disk as it reads is one of its images.
    ghost reads_are_left: { (station : Self) → ReadsAreLeft (disk station).told };

    /// A state of the files that is over ended before the present moment.
    ghost past_is_over: { (station : Self) → AreOver (time station) (disk station).past };

    /// Each byte that was sent to this caller has one moment.
    ghost even: { (station : Self) → tells ≡ true → tells_moments ≡ true → length (line station).moments.sent ≡ length (line station).talk.sent };

    /// Whether it tells how many bytes more may be sent, and how long a write may make a file. One that does fails where
    /// bytes do not fit, and nowhere else.
    ghost tells_room: { Bool };

    /// How many bytes more may be sent, to all callers.
    ghost room: { Self → ℕ };

    /// Whether it tells at which of its calls it is to fail.
    ghost tells_plan: { Bool };

    /// The moments of these calls.
    ghost plan: { Self → Plan };
}
