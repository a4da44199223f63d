//! The member's own snapshot.
ghost use Rattle.std.specs.Prelude.{◌≡◌, ◌≤◌, ℕ, List, Some, IfOk};
ghost use Rattle.cp_parts.specs.Heads.{head_grammar};
ghost use Rattle.cp_log_rules.specs.Persistent.{last};
ghost use Rattle.cp_rules.specs.Snapshots as snapshots;
ghost use Rattle.cp_rules.specs.Spelling as spelling;
ghost use Rattle.cp_rules_facts.specs.Soundness.{ReadsBack};
ghost use Rattle.cp_raft.specs.Ticking.{if_fits, own_bytes};

use cp_base::{Items, NoMemory};
use cp_grammar::Spelled;
use cp_parts::SnapshotHead;
use cp_raft_state::Group;
use cp_replicate::known_term;
use cp_snapshot::fits;
use std::alloc::Global;

/// What a snapshot of an index begins with.
fn own_head<G: Group>(stored: &G, index: u64) -> Result<SnapshotHead, NoMemory>
    requires from { (G.stored stored.now).base ≤ index }
    requires to { index ≤ last (G.stored stored.now) }
    ensures { IfOk result (λ head. head ≡ snapshots.own_head (G.stored stored.now) index) }
{
    let config = stored.config_at(index).clone()?;
    Ok(SnapshotHead {
        term: known_term(stored, index),
        config,
    })
}

/// The bytes of a snapshot of an index.
fn snapshot_bytes<G: Group>(
    alloc: Global,
    stored: &G,
    index: u64,
    machine: &[u8],
) -> Result<Items<u8>, NoMemory>
    requires from { (G.stored stored.now).base ≤ index }
    requires to { index ≤ last (G.stored stored.now) }
    requires fits { head_grammar.Fits (snapshots.own_head (G.stored stored.now) index) }
    ensures { IfOk result (λ bytes. bytes ≡ spelling.snapshot_bytes (snapshots.own_head (G.stored stored.now) index) machine.now) }
{
    let head = own_head(stored, index)?;
    let mut bytes = Vec::new(alloc);
    head.append(&mut bytes)?;
    bytes.extend_from_slice(machine)?;
    Ok(Items::from_vec(bytes))
}

/// The bytes, where they may be written and are not too many.
fn if_fits(may_write: bool, bytes: Items<u8>) -> Option<Items<u8>>
    ensures { result ≡ if_fits may_write bytes }
{
    if may_write && fits(bytes.len()) {
        Some(bytes)
    } else {
        None
    }
}

/// The bytes of the snapshot of an index that is written, if one is: the machine's are handed in, and the member may write.
pub fn own_bytes<G: Group>(
    alloc: Global,
    stored: &G,
    index: u64,
    may_write: bool,
    machine: &Option<Items<u8>>,
) -> Result<Option<Items<u8>>, NoMemory>
    requires from { (G.stored stored.now).base ≤ index }
    requires to { index ≤ last (G.stored stored.now) }
    requires reads_back { (bytes : List ℕ) → machine.now ≡ Some bytes → ReadsBack (G.stored stored.now) index bytes }
    ensures { IfOk result (λ bytes. bytes ≡ own_bytes (G.stored stored.now) index may_write machine.now) }
{
    match machine {
        Some(machine) => {
            let bytes = snapshot_bytes(alloc, stored, index, machine.as_slice())?;
            Ok(if_fits(may_write, bytes))
        }
        None => Ok(None),
    }
}
