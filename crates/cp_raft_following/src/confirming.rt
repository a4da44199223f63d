//! Whether who asks still leads.
ghost use Rattle.std.specs.Prelude.{IfOk};
ghost use Rattle.cp_rules.specs.Confirming as confirming;
ghost use Rattle.cp_raft_state.specs.Doing.{Does};

use cp_base::NoMemory;
use cp_election::adopted;
use cp_message::{Confirm, Message};
use cp_raft_state::{Did, Group, Seat, Volatile, ballot_of, ballot_part, confirmed, done, post};

/// A leader asks to be confirmed in a round.
pub fn on_confirm<G: Group>(
    stored: &G,
    seat: Seat,
    from: u8,
    ask: &Confirm,
    state: &mut Volatile,
    out: &mut Vec<Message>,
) -> Result<Did, NoMemory>
    ensures { IfOk result (λ did. Does seat
        (confirming.on_confirm (G.stored stored.now) state.old from ask.now.term ask.now.round)
        did state.new out.old.items out.new.items) }
{
    let own = stored.term();
    if ask.term < own {
        post(seat, from, confirmed(seat.group, own, false, 0), out)?;
        return Ok(done(None));
    }
    state.step_down_for(ask.term, own);
    state.know(from);
    post(
        seat,
        from,
        confirmed(seat.group, ask.term, true, ask.round),
        out,
    )?;
    let now = adopted(ask.term, ballot_of(stored));
    Ok(done(ballot_part(stored, seat.group, now)))
}
