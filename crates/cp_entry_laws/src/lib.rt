//! What agreement sees of a group's entries: a members entry brings its configuration, another entry brings none, and an entry of
//! what has expired is short. No code: the functions below state laws.
#![tactic(auto)]

ghost use Rattle.cp_entry_laws.specs.Laws.{ConfigsAreMembersEntries, EntriesBringConfigs, ExpiriesAreShort};

/// An entry brings a configuration exactly where it is a members entry, and then the one that it names.
pub fn entries_bring_configs()
    ensures { EntriesBringConfigs }
{}

/// Bytes that bring a configuration spell a members entry.
pub fn configs_are_members_entries()
    ensures { ConfigsAreMembersEntries }
{}

/// An entry of what has expired is within the limit of entries.
pub fn expiries_are_short()
    ensures { ExpiriesAreShort }
{}
