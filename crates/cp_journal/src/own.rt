//! What holds of each disk that a journal alone wrote.
ghost use Rattle.cp_journal.specs.Runs.{OwnFilesSpellRecords};

use cp_disk::Disk;

/// A disk that was empty, and that journals alone wrote: after every run of openings and appends, whatever they answered, and
/// of crashes at any moment, its file spells records, so opening it never answers a bad frame. So does each file that a
/// crash may leave of it.
pub fn own_files_spell_records<D: Disk>()
    ensures { D.Told → OwnFilesSpellRecords D.Disk }
{}
