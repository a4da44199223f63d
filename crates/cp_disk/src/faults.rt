//! Which calls of a disk in memory fail, and what it counts.
ghost use Rattle.std.specs.Prelude.{◌≡◌, ◌≤◌, ◌+◌, ◌<◌, ◌^◌, false, None, Some, OnErr, OnOk, is_err};
ghost use Rattle.cp_base.specs.declared.limits.TheConstants.{LAST_NUMBER};
ghost use Rattle.cp_base.specs.Faults.{Rose};
ghost use Rattle.cp_disk.specs.Causes.{CountsFailures};

use crate::disk::Failed;

/// The calls that fail, by their number or by a stop, and the counts of a disk.
#[derive(Debug, Drop)]
pub struct Faults {
    /// The numbers of the calls that fail, counted from 1.
    pub fails: Vec<u64>,
    /// How many calls were made.
    pub calls: u64,
    /// How many calls failed.
    pub faults: u64,
    /// How many calls wanted memory.
    pub starved: u64,
    /// How many changes an armed stop still lets pass.
    pub stop: Option<u64>,
    /// Whether a stop has failed a call since it was armed.
    pub is_struck: bool,
    /// How often the disk was ordered to stop or to crash.
    pub orders: u64,
}

impl Faults {
    ghost use Rattle.cp_disk.specs.Failing.{after_call, after_change, fails_next, is_used_up, names_next, one_fewer, one_more};

    /// No call was made, and no stop is armed.
    pub fn new(fails: Vec<u64>) -> Faults
        ensures counts { (result.faults ≡ 0) × ((result.starved ≡ 0) × (result.orders ≡ 0)) }
        ensures struck { result.is_struck ≡ false }
        ensures calls { (result.calls ≡ 0) × ((result.stop ≡ None) × (result.fails ≡ fails)) }
    {
        Faults {
            fails,
            calls: 0,
            faults: 0,
            starved: 0,
            stop: None,
            is_struck: false,
            orders: 0,
        }
    }

    /// Whether a stop fails the next call.
    fn is_stopped(&self) -> bool
        ensures { result ≡ is_used_up self.now.stop }
    {
        self.stop == Some(0)
    }

    /// Counts the call, and says whether it is one of those that fail.
    fn is_named(&mut self) -> bool
        ensures named { result ≡ names_next self.old }
        ensures counted { self.new ≡ record self.old { calls = one_more self.old.calls } }
    {
        self.calls = self.calls.saturating_add(1);
        self.fails.contains(&self.calls)
    }

    fn count_fault(&mut self)
        ensures later { self.old.faults ≤ self.new.faults }
        ensures rose { Rose self.old.faults self.new.faults }
        ensures counted { self.new ≡ record self.old { faults = one_more self.old.faults } }
    {
        self.faults = self.faults.saturating_add(1);
    }

    /// Counts a call that wanted memory.
    pub fn count_starved(&mut self)
        ensures later { self.old.starved ≤ self.new.starved }
        ensures rose { Rose self.old.starved self.new.starved }
        ensures counted { self.new ≡ record self.old { starved = one_more self.old.starved } }
    {
        self.starved = self.starved.saturating_add(1);
    }

    /// Lets one of the changes pass that a stop lets pass.
    fn pass_change(&mut self)
        ensures { self.new ≡ record self.old { stop = one_fewer self.old.stop } }
    {
        if let Some(left) = self.stop {
            self.stop = Some(left.saturating_sub(1));
        }
    }

    /// Lets a call pass, or fails it.
    pub fn admit(&mut self) -> Result<(), Failed>
        ensures fails { is_err result ≡ fails_next self.old }
        ensures state { self.new ≡ after_call self.old }
        ensures cause { CountsFailures self.old.faults self.new.faults self.old.starved self.new.starved result }
        ensures ok { OnOk result (self.new.faults ≡ self.old.faults) }
        ensures orders { self.new.orders ≡ self.old.orders }
    {
        let named = self.is_named();
        if self.is_stopped() {
            self.is_struck = true;
            self.count_fault();
            return Err(Failed);
        }
        if named {
            self.count_fault();
            return Err(Failed);
        }
        Ok(())
    }

    /// Lets a change pass, or fails it.
    pub fn admit_change(&mut self) -> Result<(), Failed>
        ensures fails { is_err result ≡ fails_next self.old }
        ensures state { self.new ≡ after_change self.old }
        ensures cause { CountsFailures self.old.faults self.new.faults self.old.starved self.new.starved result }
        ensures ok { OnOk result (self.new.faults ≡ self.old.faults) }
        ensures orders { self.new.orders ≡ self.old.orders }
    {
        match self.admit() {
            Ok(()) => {
                self.pass_change();
                Ok(())
            }
            Err(Failed) => Err(Failed),
        }
    }

    /// Arms a stop.
    pub fn arm(&mut self, calls: u64)
        requires { self.old.orders < LAST_NUMBER }
        ensures { self.new ≡ record self.old { stop = Some calls; is_struck = false; orders = self.old.orders + 1 } }
    {
        self.stop = Some(calls);
        self.is_struck = false;
        self.orders += 1;
    }

    /// Ends a stop, at a crash.
    pub fn disarm(&mut self)
        requires { self.old.orders < LAST_NUMBER }
        ensures { self.new ≡ record self.old { stop = None; orders = self.old.orders + 1 } }
    {
        self.stop = None;
        self.orders += 1;
    }
}
