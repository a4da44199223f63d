//! How many bytes an entry has at most. No code: the functions below state laws.

ghost use Rattle.cp_ops.specs.Sizes.{EntriesAreShort, OlderEntriesAreShort};

/// An entry has at most 8,192 bytes.
pub fn entries_are_short()
    ensures { EntriesAreShort }
{}

/// An entry whose references have at most 1,024 bytes has at most 4,096, which was the bound of entries in the first version
/// of journals, messages and snapshots.
pub fn older_entries_are_short()
    ensures { OlderEntriesAreShort }
{}
