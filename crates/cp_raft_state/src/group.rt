//! What rules read of one group.
ghost use Rattle.std.specs.Prelude.{◌≡◌, ◌≤◌, ◌<◌};
ghost use Rattle.cp_log_rules.specs.Persistent.{last};
ghost use Rattle.cp_log_rules.specs.Configurations.{config_at};
ghost use Rattle.cp_rules.specs.Persistent.{configuration};

use cp_parts::Config;
use cp_replicate::Log;

/// What rules read of what a member has stored of one group, beside its log.
pub trait Group: Log {
    /// The term.
    fn term(&self) -> u64
        ensures { result ≡ (Self.stored self.now).term };

    /// Who got the vote in the term, 0 for nobody.
    fn vote(&self) -> u8
        ensures { result ≡ (Self.stored self.now).vote };

    /// The configuration in force.
    fn config(&self) -> &Config
        ensures { result.now ≡ configuration (Self.stored self.now) };

    /// The configuration in force at an index from the base to the last.
    fn config_at(&self, index: u64) -> &Config
        requires from { (Self.stored self.now).base ≤ index }
        requires to { index ≤ last (Self.stored self.now) }
        ensures { result.now ≡ config_at (Self.stored self.now) index };

    /// The bytes of the snapshot, where there is one.
    fn snapshot(&self) -> &[u8]
        requires { 0 < (Self.stored self.now).base }
        ensures { result.now ≡ (Self.stored self.now).snapshot };
}
