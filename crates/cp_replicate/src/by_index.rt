//! The log of a member, by index.
ghost use Rattle.std.specs.Prelude.{◌≡◌};
ghost use Rattle.std.specs.Option.{option_copied, option_map};
ghost use Rattle.cp_log_rules.specs.Persistent.{PersistentState, last, entry_at, term_at};

/// What decisions read of a member's log in one group.
pub trait Log {
    ghost stored: { Self → PersistentState };

    /// The base: the index of the snapshot, or 0 where there is none.
    fn base(&self) -> u64
        ensures { result ≡ (stored self.now).base };

    /// The index of the last entry, or the base where there is none.
    fn last(&self) -> u64
        ensures { result ≡ last (stored self.now) };

    /// The term at an index from the base to the last; none at others.
    fn term_at(&self, index: u64) -> Option<u64>
        ensures { result ≡ term_at (stored self.now) index };

    /// The bytes of the entry at an index behind the base; none at others.
    fn entry(&self, index: u64) -> Option<&[u8]>
        ensures { option_copied result ≡ option_map (λ e. e.bytes) (entry_at (stored self.now) index) };
}
