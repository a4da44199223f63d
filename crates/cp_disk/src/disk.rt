//! The traits of disks.
ghost use Rattle.std.specs.Prelude.{Bool, false, Option, None, Some, ◌≡◌, ◌≤◌, ◌<◌, ◌+◌, ◌^◌, List, ℕ, length, take, drop, IfOk, OnOk, IsErrOf};
ghost use Rattle.cp_base.specs.declared.limits.TheConstants.{LAST_NUMBER};
ghost use Rattle.cp_disk.specs.declared.disk.Fault.TheVariants as fault;
ghost use Rattle.cp_disk.specs.Causes.{CountsFaults, CountsFailures};
ghost use Rattle.cp_disk.specs.Images.{written, Elapses, Follows, NoMore, Only, Shortened, Torn};

use thiserror::Error;

/// There was no memory. What was called is as it was.
#[derive(Clone, Copy, Debug, PartialEq, Eq, Error)]
#[error("no memory")]
pub struct NoMemory;

/// The disk failed, which it counted.
#[derive(Clone, Copy, Debug, PartialEq, Eq, Error)]
#[error("disk fault")]
pub struct Failed;

/// Why a disk did not do a call.
#[derive(Clone, Copy, Debug, PartialEq, Eq, Error)]
pub enum Fault {
    /// The disk failed, which it counted. It may have done any part of the call.
    #[error("disk fault")]
    Failed,
    /// There was no memory, which the disk counted apart. It is as it was.
    #[error("no memory")]
    NoMemory,
}

/// A disk. What is said of its bytes holds where its type tells them.
pub trait Disk {
    /// Whether the type tells what it holds.
    ghost Told: { Type 0 };

    /// What a read gives.
    ghost seen: { Self → List ℕ };

    /// The images that a crash now may leave.
    ghost may_leave: { Self → List ℕ → Type 0 };

    /// The moment, as a number that doesn't fall.
    ghost moment: { Self → ℕ };

    /// The images that a crash at some moment from that one on might have left, during a call or between two.
    ghost left_since: { Self → ℕ → List ℕ → Type 0 };

    /// How often it has failed, up to 2^64 - 1.
    ghost faults: { Self → ℕ };

    /// How often it wanted memory, up to 2^64 - 1.
    ghost starved: { Self → ℕ };

    /// How often it was ordered to stop or to crash. Only a disk that takes such orders counts any.
    ghost orders: { Self → ℕ };

    /// How many bytes there are.
    fn len(&mut self) -> Result<u64, Failed>
        ensures len { Told → IfOk result (λ n. n ≡ length (seen self.old)) }
        ensures seen { Told → seen self.new ≡ seen self.old }
        ensures crash { Told → NoMore (may_leave self.old) (may_leave self.new) }
        ensures time { Told → Elapses (moment self.old) (moment self.new) (left_since self.old) (left_since self.new) (may_leave self.new) }
        ensures cause { CountsFailures (faults self.old) (faults self.new) (starved self.old) (starved self.new) result }
        ensures orders { orders self.new ≡ orders self.old };

    /// Fills the buffer with the bytes from this place on.
    fn read(&mut self, at: u64, buf: &mut [u8]) -> Result<(), Fault>
        requires { Told → at + length buf.old ≤ length (seen self.old) }
        ensures bytes { Told → OnOk result (buf.new ≡ take (length buf.old) (drop at (seen self.old))) }
        ensures seen { Told → seen self.new ≡ seen self.old }
        ensures crash { Told → NoMore (may_leave self.old) (may_leave self.new) }
        ensures time { Told → Elapses (moment self.old) (moment self.new) (left_since self.old) (left_since self.new) (may_leave self.new) }
        ensures cause { CountsFaults (faults self.old) (faults self.new) (starved self.old) (starved self.new) result }
        ensures orders { orders self.new ≡ orders self.old };

    /// Writes over what is there, and past the end. Until a sync a crash may leave any bytes in the range.
    fn write_at(&mut self, at: u64, bytes: &[u8]) -> Result<(), Fault>
        requires { Told → at ≤ length (seen self.old) }
        ensures written { Told → OnOk result (seen self.new ≡ written (seen self.old) at bytes.now) }
        ensures refused { Told → IsErrOf result fault.NoMemory → (seen self.new ≡ seen self.old) ×
            NoMore (may_leave self.old) (may_leave self.new) }
        ensures crash { Told → Follows (Torn at (length bytes.now)) (may_leave self.old) (may_leave self.new) }
        ensures time { Told → Elapses (moment self.old) (moment self.new) (left_since self.old) (left_since self.new) (may_leave self.new) }
        ensures cause { CountsFaults (faults self.old) (faults self.new) (starved self.old) (starved self.new) result }
        ensures orders { orders self.new ≡ orders self.old };

    /// Cuts to a length, which isn't above that of the disk.
    fn cut(&mut self, length: u64) -> Result<(), Fault>
        requires { Told → length ≤ Rattle.std.specs.Prelude.length (seen self.old) }
        ensures cut { Told → OnOk result (seen self.new ≡ take length (seen self.old)) }
        ensures refused { Told → IsErrOf result fault.NoMemory → (seen self.new ≡ seen self.old) ×
            NoMore (may_leave self.old) (may_leave self.new) }
        ensures crash { Told → Follows (Shortened length) (may_leave self.old) (may_leave self.new) }
        ensures time { Told → Elapses (moment self.old) (moment self.new) (left_since self.old) (left_since self.new) (may_leave self.new) }
        ensures cause { CountsFaults (faults self.old) (faults self.new) (starved self.old) (starved self.new) result }
        ensures orders { orders self.new ≡ orders self.old };

    /// After it a crash leaves what a read gives.
    fn sync(&mut self) -> Result<(), Failed>
        ensures durable { Told → OnOk result (Only (seen self.old) (may_leave self.new)) }
        ensures seen { Told → seen self.new ≡ seen self.old }
        ensures crash { Told → NoMore (may_leave self.old) (may_leave self.new) }
        ensures time { Told → Elapses (moment self.old) (moment self.new) (left_since self.old) (left_since self.new) (may_leave self.new) }
        ensures cause { CountsFailures (faults self.old) (faults self.new) (starved self.old) (starved self.new) result }
        ensures orders { orders self.new ≡ orders self.old };

    /// This moment is one of those since an earlier one.
    ghost counts_now: { Told → (disk : Self) (since : ℕ) (image : List ℕ) → since ≤ moment disk → may_leave disk image →
        left_since disk since image };

    /// Since this moment there is no other.
    ghost only_now: { Told → (disk : Self) (image : List ℕ) → left_since disk (moment disk) image → may_leave disk image };

    /// A disk as it reads is one of its images.
    ghost reads: { Told → (disk : Self) → may_leave disk (seen disk) };
}

/// A disk that can be told to crash.
pub trait CrashDisk: Disk {
    /// Whether a stop has failed a call since it was armed.
    ghost is_struck: { Self → Bool };

    /// How many changes an armed stop still lets pass.
    ghost stop: { Self → Option ℕ };

    /// Leaves one of the images, by the choice, and ends a stop.
    fn crash(&mut self, choice: u64)
        requires { Self.orders self.old < LAST_NUMBER }
        ensures image { Self.Told → Self.may_leave self.old (Self.seen self.new) }
        ensures only { Self.Told → Only (Self.seen self.new) (Self.may_leave self.new) }
        ensures time { Self.Told → Elapses (Self.moment self.old) (Self.moment self.new) (Self.left_since self.old)
            (Self.left_since self.new) (Self.may_leave self.new) }
        ensures orders { Self.orders self.new ≡ Self.orders self.old + 1 }
        ensures counts { (Self.faults self.new ≡ Self.faults self.old) × (Self.starved self.new ≡ Self.starved self.old) }
        ensures ended { stop self.new ≡ None };

    /// Lets so many calls of `write_at`, `cut` and `sync` pass, and then fails every call until a crash.
    fn stop_after(&mut self, calls: u64)
        requires { Self.orders self.old < LAST_NUMBER }
        ensures seen { Self.Told → Self.seen self.new ≡ Self.seen self.old }
        ensures crash { Self.Told → NoMore (Self.may_leave self.old) (Self.may_leave self.new) ×
            NoMore (Self.may_leave self.new) (Self.may_leave self.old) }
        ensures time { Self.Told → Elapses (Self.moment self.old) (Self.moment self.new) (Self.left_since self.old)
            (Self.left_since self.new) (Self.may_leave self.new) }
        ensures orders { Self.orders self.new ≡ Self.orders self.old + 1 }
        ensures counts { (Self.faults self.new ≡ Self.faults self.old) × (Self.starved self.new ≡ Self.starved self.old) }
        ensures armed { is_struck self.new ≡ false }
        ensures stop { stop self.new ≡ Some calls };

    /// Whether a stop has failed a call since it was armed.
    fn struck(&self) -> bool
        ensures { result ≡ is_struck self.now };
}
