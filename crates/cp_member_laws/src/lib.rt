//! Laws of a member, over every machine and every list of its events and starts: an attempt makes one entry at most, and none
//! where it is refused; one event writes at most one part. No code.
#![tactic(auto)]

ghost use Rattle.std.specs.Prelude.{◌≡◌, true};
ghost use Rattle.cp_member_rules.specs.Machines.{Machines, Setup};
ghost use Rattle.cp_member_rules.specs.Worked.{machines, setup, asks};
ghost use Rattle.cp_member_laws.specs.Asked.{MakesWhatIsAsked};
ghost use Rattle.cp_member_laws.specs.Laws.{EventsStoreOne, TakenOnce, OthersAreLeft, MadeOnce, RefusedNeverMakes};
ghost use Rattle.cp_member_laws.specs.Runs.{Comes, refuses};
ghost use Rattle.cp_member_laws.specs.Worked.{seventh, taken, made, restarted};

/// One event writes at most one part, and what is stored moves by it.
pub fn events_store_one<V>()
    ensures { (ms : Machines V) (setup : Setup) → EventsStoreOne ms setup }
{}

/// A member takes an attempt at most once, over all its starts; what it does not take leaves it as it is.
pub fn takes_once<V>()
    ensures once { (ms : Machines V) (setup : Setup) → TakenOnce ms setup }
    ensures others { (ms : Machines V) (setup : Setup) → OthersAreLeft ms setup }
{}

/// A request makes nothing, or the one entry that it asks for, at the end of its group's log.
pub fn makes_what_is_asked<V>()
    ensures { (ms : Machines V) (setup : Setup) → MakesWhatIsAsked ms setup }
{}

/// Over all starts of a member an attempt makes one entry at most.
pub fn makes_once<V>()
    ensures { (ms : Machines V) (setup : Setup) → MadeOnce ms setup }
{}

/// An attempt that is refused, but by `lost`, makes no entry, whenever its request came or comes again.
pub fn refused_never_makes<V>()
    ensures { (ms : Machines V) (setup : Setup) → RefusedNeverMakes ms setup }
{}

/// An attempt that comes again in the same start is not taken; after the next start one that names it is, and is refused.
pub fn takes_an_attempt()
    ensures taken { taken 1 ≡ 1 }
    ensures made { made 1 ≡ 1 }
    ensures again { taken 2 ≡ 1 }
    ensures none { made 2 ≡ 0 }
    ensures refused { refuses machines setup 1 (seventh 2) restarted (Comes (asks 7 2 1)) ≡ true }
{}
