//! A member over its store.
ghost use Rattle.std.specs.Prelude.{true, false, [], ◌≡◌, ◌≤◌, IfSome, IsSome};
ghost use Rattle.std.specs.Option.{ForSome};
ghost use Rattle.cp_log.specs.Files.{started};
ghost use Rattle.cp_log.specs.Stores.{held_by, is_spent};
ghost use Rattle.cp_log_rules.specs.Durable.{first_state};
ghost use Rattle.cp_rules.specs.Limits.{most_index};
ghost use Rattle.cp_rules_ranges.specs.Ranges.{IsMember};
ghost use Rattle.cp_raft.specs.Events.{event_of};
ghost use Rattle.cp_three_members.specs.Coming.{MayCome};
ghost use Rattle.cp_three_members.specs.Members.{IsReady, bytes_of};

use crate::coming::{is_call, may_come};
use cp_base::{GroupId, Items, MemberNo};
use cp_disk::MemoryDisk;
use cp_log::Store;
use cp_message::Message;
use cp_raft::{Change, Raft, RaftEvent, RaftOut};
use std::alloc::Global;

/// A member over its store. One that is down takes no step any more.
#[derive(Drop)]
pub struct Member {
    raft: Raft,
    store: Store<MemoryDisk>,
    is_up: bool,
    ghost ready: { is_up ≡ true → ∥ IsReady store raft ∥₁ },
}

/// A disk on which nothing is written yet.
fn empty_disk(alloc: Global) -> Option<MemoryDisk>
    ensures { IfSome result (λ disk. bytes_of disk ≡ []) }
{
    match MemoryDisk::new(alloc, &[], &[]) {
        Ok(disk) => Some(disk),
        Err(_) => None,
    }
}

/// The store of a member that starts for the first time, in a group of three, over an empty disk.
#[tactic(auto, using(crate::proofs::Starting::opens))]
fn first_store(alloc: Global, disk: MemoryDisk) -> Option<Store<MemoryDisk>>
    requires { bytes_of disk ≡ [] }
    ensures whole { IfSome result (λ store. is_spent store ≡ false) }
    ensures held { IfSome result (λ store. held_by store ≡ started (first_state false 3)) }
{
    match Store::open(alloc, disk, false, 3) {
        Ok(store) => Some(store),
        Err(_) => None,
    }
}

/// Takes one step. It answers whether it was done.
#[tactic(auto, using(crate::proofs::Comes::may_step, crate::proofs::Comes::names))]
fn take_step(
    alloc: Global,
    raft: &mut Raft,
    store: &mut Store<MemoryDisk>,
    event: &RaftEvent,
    out: &mut RaftOut,
) -> bool
    requires ready { IsReady store.old raft.old }
    requires kind { IsSome (event_of event.now) }
    requires comes { ForSome (event_of event.now) MayCome }
    ensures { result ≡ true → IsReady store.new raft.new }
{
    match raft.step(alloc, store, event, out) {
        Ok(_) => true,
        Err(_) => false,
    }
}

impl Member {
    /// A member that starts for the first time, in a group of three.
    #[tactic(auto, using(crate::proofs::Starting::begins))]
    pub fn start(alloc: Global, me: u8) -> Option<Member>
        requires { IsMember me }
    {
        let disk = empty_disk(alloc)?;
        let store = first_store(alloc, disk)?;
        match Raft::begin(alloc, GroupId(1), MemberNo(me), &store, 0) {
            Ok(raft) => Some(Member {
                raft,
                store,
                is_up: true,
            }),
            Err(_) => None,
        }
    }

    /// Takes one step where the member is up. It answers whether it is up then.
    #[tactic(auto, using(crate::proofs::Readiness::ready))]
    fn step(&mut self, alloc: Global, event: &RaftEvent, out: &mut RaftOut) -> bool
        requires kind { IsSome (event_of event.now) }
        requires comes { ForSome (event_of event.now) MayCome }
    {
        if self.is_up {
            self.is_up = take_step(alloc, &mut self.raft, &mut self.store, event, out);
        }
        self.is_up
    }

    /// The clock moves.
    pub fn tick(&mut self, alloc: Global, now: u64, out: &mut RaftOut) -> bool
        requires { now ≤ most_index }
    {
        let event = RaftEvent::Tick {
            now,
            may_write: true,
            expiry: None,
            snapshot: None,
        };
        self.step(alloc, &event, out)
    }

    /// A message of another member comes. One that no member sends is not taken.
    #[tactic(auto, using(crate::proofs::Comes::got_is, crate::proofs::Comes::got_comes))]
    pub fn take(&mut self, alloc: Global, message: Message, out: &mut RaftOut) -> bool {
        if !may_come(&message) {
            return false;
        }
        let event = RaftEvent::Got(message);
        self.step(alloc, &event, out)
    }

    /// The member is asked to append the entry of a call.
    pub fn propose(&mut self, alloc: Global, entry: &[u8], out: &mut RaftOut) -> bool {
        if !is_call(entry) {
            return false;
        }
        let Ok(bytes) = Vec::from_slice(alloc, entry) else {
            return false;
        };
        let event = RaftEvent::Propose(Items::from_vec(bytes));
        self.step(alloc, &event, out)
    }

    /// The member is asked to remove a member of its first configuration.
    pub fn remove(&mut self, alloc: Global, member: MemberNo, out: &mut RaftOut) -> bool
        requires { IsMember member.0 }
    {
        let change = Change {
            add: false,
            member,
            expected: 0,
        };
        let event = RaftEvent::Change(change, 0, None);
        self.step(alloc, &event, out)
    }

    /// The member's commit.
    pub fn commit(&self) -> u64 {
        self.raft.commit()
    }
}
