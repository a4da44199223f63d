//! One member of one group.
ghost use Rattle.std.specs.Prelude.{◌≡◌, ◌⊎◌, ◌≤◌, ◌<◌, ◌+◌, ◌^◌, true, false, length, is_some, not, [], ◌&&◌, Option, None, Some, IfOk, OnOk, OnErr, IfErr, IfSome, IsSome, IsErrOf};
ghost use Rattle.std.specs.Option.{option_map, ForSome};
ghost use Rattle.cp_base.specs.Faults.{Rose};
ghost use Rattle.cp_disk.specs.Images.{Only};
ghost use Rattle.cp_journal.specs.Moments.{LeavesOnly};
ghost use Rattle.cp_log.specs.Changes.{is_state};
ghost use Rattle.cp_log.specs.Files.{IsSound, StandsForEither};
ghost use Rattle.cp_log.specs.Stores.{held_by, first_of, disk_of, is_spent, bytes_of};
ghost use Rattle.cp_parts.specs.declared.down.Down.TheVariants as down;
ghost use Rattle.cp_parts.specs.Parts.{part_grammar};
ghost use Rattle.cp_log_rules.specs.Durable.{group_in, has_group, with_part};
ghost use Rattle.cp_rules.specs.Parts.{part_of};
ghost use Rattle.cp_base.specs.declared.identifier.GroupId.{GroupId as Group};
ghost use Rattle.cp_rules.specs.Local.{Event, is_leader};
ghost use Rattle.cp_rules.specs.Persistent.{Part as Written};
ghost use Rattle.cp_rules.specs.Snapshots as snapshots;
ghost use Rattle.cp_rules.specs.Steps.{step};
ghost use Rattle.cp_rules.specs.Volatile.{started};
ghost use Rattle.cp_rules_facts.specs.Soundness as soundness;
ghost use Rattle.cp_rules_ranges.specs.Laws.{MayStep};
ghost use Rattle.cp_rules_ranges.specs.Ranges.{IsInRange};
ghost use Rattle.cp_raft_state.specs.Room.{spare};
ghost use Rattle.cp_raft.specs.Completing.{completed};
ghost use Rattle.cp_raft.specs.Downs.{StepCause, is_disk_fault, of_store};
ghost use Rattle.cp_raft.specs.Events.{event_of};
ghost use Rattle.cp_raft.specs.Frugal.{NoneReady, is_voting};
ghost use Rattle.cp_raft.specs.Offices.{takes_office};
ghost use Rattle.cp_raft.specs.Outs.{IsTold, is_installed};
ghost use Rattle.cp_raft.specs.Taking.{NamesMember};
ghost use Rattle.cp_raft.specs.Writing.{IsTakenBy, PassesBound, after_part, after_step};

use crate::deciding::decide;
use crate::event::RaftEvent;
use crate::out::RaftOut;
use crate::stored::Stored;
use cp_base::{GroupId, MemberNo, NoMemory};
use cp_disk::Disk;
use cp_election::is_leader;
use cp_log::{Store, StoreError};
use cp_message::{Body, Message};
use cp_parts::{Down, Part};
use cp_raft_state::{Seat, Volatile};
use cp_rules::{Outcome, Role};
use std::alloc::Global;

/// One member of one Raft group, over its store.
#[derive(Drop)]
pub struct Raft {
    pub(crate) seat: Seat,
    pub(crate) state: Volatile,
    ghost reads: { is_leader state.role ≡ false → state.reads.looks ≡ [] },
}

/// Why a store did not write, as why the member is down.
fn down_of(error: StoreError) -> Down
    ensures { result ≡ of_store error }
{
    match error {
        StoreError::DiskFault => Down::DiskFault,
        StoreError::Full => Down::JournalFull,
        StoreError::BadFrame(place) => Down::BadFrame(place),
        StoreError::BadRecord(place) => Down::BadRecord(place),
        StoreError::NoMemory => Down::NoMemory,
    }
}

/// Writes a part, where there is one.
#[tactic(auto, using(crate::proofs::Downs::full_is, crate::proofs::Downs::full_so, crate::proofs::Downs::starved_is))]
fn write<D: Disk>(alloc: Global, store: &mut Store<D>, part: &Option<Part>) -> Result<(), Down>
    requires whole { is_spent store.old ≡ false }
    requires taken { ForSome part.now (λ x. IsTakenBy (held_by store.old) x) }
    ensures ok { OnOk result (held_by store.new ≡ after_part part.now (held_by store.old)) }
    ensures err { OnErr result (held_by store.new ≡ held_by store.old) }
    ensures first { first_of store.new ≡ first_of store.old }
    ensures none { part.now ≡ None → store.new ≡ store.old }
    ensures any_moment { IfSome part.now (λ x. D.Told
        → LeavesOnly D.moment D.left_since (disk_of store.old) (disk_of store.new)
        (StandsForEither (first_of store.old) (held_by store.old) (with_part x (held_by store.old)))) }
    ensures sound { IfSome part.now (λ x. D.Told
        → LeavesOnly D.moment D.left_since (disk_of store.old) (disk_of store.new) (IsSound (first_of store.old))) }
    ensures durable { IfSome part.now (λ x. D.Told → is_spent store.new ≡ false
        → Only (D.seen (disk_of store.new)) (D.may_leave (disk_of store.new))) }
    ensures cause { IfErr result (StepCause (D.faults (disk_of store.old)) (D.faults (disk_of store.new))) }
    ensures later { (D.faults (disk_of store.old) ≤ D.faults (disk_of store.new))
        × (D.starved (disk_of store.old) ≤ D.starved (disk_of store.new)) }
    ensures orders { D.orders (disk_of store.new) ≡ D.orders (disk_of store.old) }
    ensures spent { is_spent store.new ≡ is_disk_fault result }
    ensures full { IsErrOf result down.JournalFull → PassesBound (bytes_of store.old) part.now }
    ensures only_full { PassesBound (bytes_of store.old) part.now → IsErrOf result down.JournalFull ⊎ IsErrOf result down.NoMemory }
    ensures frugal { IfSome part.now (λ x. is_state x ≡ true) → IsErrOf result down.NoMemory
        → Rose (D.starved (disk_of store.old)) (D.starved (disk_of store.new)) }
{
    match part {
        Some(part) => match store.write_step(alloc, part) {
            Ok(()) => Ok(()),
            Err(error) => Err(down_of(error)),
        },
        None => Ok(()),
    }
}

/// Whether the part of a step is the snapshot of another member.
fn is_installed(event: &RaftEvent, part: &Option<Part>) -> bool
    ensures { (e : Event) (x : Option Written) (group : Group) → event_of event.now ≡ Some e
        → part.now ≡ option_map (part_of group) x → result ≡ is_installed e x }
{
    match (event, part) {
        (RaftEvent::Got(_), Some(Part::Snapshot(_, _, _, _, _))) => true,
        _ => false,
    }
}

/// Hands nothing over.
fn give_up(out: &mut RaftOut)
    ensures { (out.new.messages.items ≡ []) × ((out.new.looks.items ≡ []) × (out.new.lost.items ≡ [])) }
{
    out.messages.clear();
    out.looks.clear();
    out.lost.clear();
}

/// Says what a step did.
fn tell(event: &RaftEvent, before: Role, part: &Option<Part>, state: &Volatile, out: &mut RaftOut)
    ensures kept { (out.new.messages.items ≡ out.old.messages.items)
        × ((out.new.looks.items ≡ out.old.looks.items) × (out.new.lost.items ≡ out.old.lost.items)) }
    ensures commit { out.new.commit ≡ state.now.commit }
    ensures stepped_down { out.new.stepped_down ≡ is_leader before && not (is_leader state.now.role) }
    ensures took_office { out.new.took_office ≡ not (is_leader before) && is_leader state.now.role }
    ensures installed { (e : Event) (x : Option Written) (group : Group) → event_of event.now ≡ Some e
        → part.now ≡ option_map (part_of group) x → out.new.installed ≡ is_installed e x }
    ensures wrote { out.new.wrote ≡ is_some part.now }
{
    let led = is_leader(before);
    let leads = is_leader(state.role());
    out.commit = state.commit();
    out.stepped_down = led && !leads;
    out.took_office = !led && leads;
    out.installed = is_installed(event, part);
    out.wrote = part.is_some();
}

impl Raft {
    ghost use Rattle.cp_raft.specs.Rafts.{HasStored, MayGoOn, seat_of, state_of};
    ghost use Rattle.cp_raft.specs.Results.{Crashes, Halts, Leaves, Steps, Wants, part_at, step_of, stored_in};

    /// A member begins with a group that stands in its store.
    pub fn begin<D: Disk>(
        alloc: Global,
        group: GroupId,
        me: MemberNo,
        store: &Store<D>,
        now: u64,
    ) -> Result<Raft, NoMemory>
        requires { has_group (held_by store.now) group.0 ≡ true }
        ensures seat { IfOk result (λ raft. seat_of raft ≡ record { group = group; me = me.0 }) }
        ensures state { IfOk result (λ raft. state_of raft ≡ started (group_in (held_by store.now) group.0).base now) }
    {
        let state = Volatile::started(alloc, store.base(group), now);
        let seat = Seat { group, me: me.0 };
        Ok(Raft { seat, state })
    }

    /// The member's commit.
    pub fn commit(&self) -> u64
        ensures { result ≡ (state_of self.now).commit }
    {
        self.state.commit()
    }

    /// Whether the member leads its term.
    pub fn leads(&self) -> bool
        ensures { result ≡ is_leader (state_of self.now).role }
    {
        is_leader(self.state.role())
    }

    /// The clock at the leader's last beat.
    pub fn beat(&self) -> u64
        ensures { result ≡ (state_of self.now).beat }
    {
        self.state.beat()
    }

    /// The whole bytes of the snapshot that a message would install, if it is a chunk that would.
    pub fn completes<D: Disk>(
        &self,
        alloc: Global,
        store: &Store<D>,
        message: &Message,
    ) -> Result<Option<Vec<u8>>, NoMemory>
        requires { has_group (held_by store.now) (seat_of self.now).group.0 ≡ true }
        ensures { IfOk result (λ whole. option_map (λ bytes. bytes.items) whole
            ≡ completed (stored_in self.now store.now) (state_of self.now) message.now.body) }
    {
        match &message.body {
            Body::Snapshot(chunk) => {
                let stored = Stored::of(store, self.seat.group);
                cp_raft_following::completes(alloc, &stored, chunk, &self.state)
            }
            _ => Ok(None),
        }
    }

    /// Takes one step: it writes its part, and hands over what it sends, in place of what `out` had. Where the member is
    /// down, nothing is handed over, and its state in memory is not promised.
    pub fn step<D: Disk>(
        &mut self,
        alloc: Global,
        store: &mut Store<D>,
        event: &RaftEvent,
        out: &mut RaftOut,
    ) -> Result<Outcome, Down>
        requires whole { is_spent store.old ≡ false }
        requires kind { IsSome (event_of event.now) }
        requires stored { HasStored (held_by store.old) (seat_of self.old) (stored_in self.old store.old) }
        requires may { ForSome (event_of event.now)
            (λ e. MayStep (seat_of self.old).me (stored_in self.old store.old) (state_of self.old) e) }
        requires names { ForSome (event_of event.now) (λ e. NamesMember e) }

        // What was done is the step that the rules define, and the next one may be taken.
        ensures steps { (e : Event) → event_of event.now ≡ Some e
            → IfOk result (λ outcome. Steps self.old store.old e self.new store.new outcome out.new) }

        // Where the member is down nothing is handed over, and the store has what it had.
        ensures halts { IfErr result (λ why. Halts store.old store.new why out.new) }
        ensures leaves { Leaves self.old self.new store.old store.new result }

        // When the journal is full, and which steps take no memory.
        ensures wants { (e : Event) → event_of event.now ≡ Some e → Wants self.old store.old e out.old store.new result }

        // A crash at any moment of the call leaves the parts from before it, with the one of the step or without.
        ensures crashes { (e : Event) → event_of event.now ≡ Some e → Crashes self.old store.old e store.new }
    {
        self.take(alloc, store, event, out)
    }

    /// Takes one step, with each promise apart.
    fn take<D: Disk>(
        &mut self,
        alloc: Global,
        store: &mut Store<D>,
        event: &RaftEvent,
        out: &mut RaftOut,
    ) -> Result<Outcome, Down>
        requires whole { is_spent store.old ≡ false }
        requires kind { IsSome (event_of event.now) }
        requires stored { HasStored (held_by store.old) (seat_of self.old) (stored_in self.old store.old) }
        requires may { ForSome (event_of event.now)
            (λ e. MayStep (seat_of self.old).me (stored_in self.old store.old) (state_of self.old) e) }
        requires names { ForSome (event_of event.now) (λ e. NamesMember e) }
        ensures did { (e : Event) → event_of event.now ≡ Some e
            → IfOk result (λ outcome. outcome ≡ (step_of self.old store.old e).outcome) }
        ensures state { (e : Event) → event_of event.now ≡ Some e
            → OnOk result (state_of self.new ≡ (step_of self.old store.old e).state) }
        ensures held { (e : Event) → event_of event.now ≡ Some e
            → OnOk result (held_by store.new ≡ after_step (seat_of self.old) (step_of self.old store.old e).part (held_by store.old)) }
        ensures told { (e : Event) → event_of event.now ≡ Some e
            → OnOk result (IsTold (seat_of self.old) (state_of self.old) e (step_of self.old store.old e) out.new) }
        ensures seat { seat_of self.new ≡ seat_of self.old }
        ensures first { first_of store.new ≡ first_of store.old }
        ensures spent { is_spent store.new ≡ is_disk_fault result }
        ensures durable { (e : Event) (x : Written) → event_of event.now ≡ Some e → (step_of self.old store.old e).part ≡ Some x → D.Told
            → OnOk result (Only (D.seen (disk_of store.new)) (D.may_leave (disk_of store.new))) }
        ensures stays { (e : Event) → event_of event.now ≡ Some e
            → OnOk result (MayGoOn (held_by store.new) (seat_of self.new) (state_of self.new)) }
        ensures nothing_sent { OnErr result ((out.new.messages.items ≡ []) × ((out.new.looks.items ≡ []) × (out.new.lost.items ≡ []))) }
        ensures nothing_held { OnErr result (held_by store.new ≡ held_by store.old) }
        ensures cause { IfErr result (StepCause (D.faults (disk_of store.old)) (D.faults (disk_of store.new))) }
        ensures later { (D.faults (disk_of store.old) ≤ D.faults (disk_of store.new))
            × (D.starved (disk_of store.old) ≤ D.starved (disk_of store.new)) }
        ensures orders { D.orders (disk_of store.new) ≡ D.orders (disk_of store.old) }
        ensures full { (e : Event) → event_of event.now ≡ Some e → IsErrOf result down.JournalFull
            → PassesBound (bytes_of store.old) (part_at self.old store.old e) }
        ensures only_full { (e : Event) → event_of event.now ≡ Some e → PassesBound (bytes_of store.old) (part_at self.old store.old e)
            → IsErrOf result down.JournalFull ⊎ IsErrOf result down.NoMemory }
        ensures frugal { (e : Event) → event_of event.now ≡ Some e → is_voting e ≡ true
            → takes_office (state_of self.old) (step_of self.old store.old e) ≡ false
            → NoneReady (seat_of self.old).me (stored_in self.old store.old) (state_of self.old) → 8 ≤ spare out.old.messages
            → IsErrOf result down.NoMemory → Rose (D.starved (disk_of store.old)) (D.starved (disk_of store.new)) }
        ensures any_moment { (e : Event) (x : Written) → event_of event.now ≡ Some e → (step_of self.old store.old e).part ≡ Some x → D.Told
            → LeavesOnly D.moment D.left_since (disk_of store.old) (disk_of store.new)
            (StandsForEither (first_of store.old) (held_by store.old)
            (with_part (part_of (seat_of self.old).group x) (held_by store.old))) }
        ensures untouched { (e : Event) → event_of event.now ≡ Some e → (step_of self.old store.old e).part ≡ None
            → store.new ≡ store.old }
    {
        out.messages.clear();
        let before = self.state.role();
        let stored = Stored::of(store, self.seat.group);
        let decided = decide(alloc, &stored, self.seat, event, &mut self.state, out);
        let did = match decided {
            Ok(did) => did,
            Err(NoMemory) => {
                self.state.give_up_reads();
                give_up(out);
                return Err(Down::NoMemory);
            }
        };
        if let Err(down) = write(alloc, store, &did.part) {
            give_up(out);
            return Err(down);
        }
        tell(event, before, &did.part, &self.state, out);
        Ok(did.outcome)
    }
}
