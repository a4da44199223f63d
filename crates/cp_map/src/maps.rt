//! The table of the maps of a group.
ghost use Rattle.std.specs.Prelude.{◌≡◌, [], false, true, None, Some, unwrap_or, IfOk, OnOk, OnErr, IfNone, OnSome, IfSome, not, bytes_eq};
ghost use Rattle.std.specs.Option.{option_copied};
ghost use Rattle.std.specs.List.{filter};
ghost use Rattle.cp_group_state.specs.Rows.{find, pair_cmp};
ghost use Rattle.cp_group_state.specs.Invariants.{IsRising};
ghost use Rattle.cp_group_state.specs.Maps.{Sets, key_of, map_effect, map_answer, with_effect, map_step, map_destroyed};
ghost use Rattle.cp_map.specs.Pairs.{takes_away, value_set, step_at};

use crate::Key;
use cp_base::limits::MOST_ROWS;
use cp_base::{Items, Name, NoMemory};
use cp_ops::{Answer, MapOp};
use cp_rows::from_rows;
use std::alloc::Global;
use std::collections::BTreeMap;
use std::marker::Model;
use std::mem;

/// The maps of a group, which contracts see as the list of their pairs, by rising name and key.
#[derive(Debug, Drop)]
pub struct Maps {
    pairs: BTreeMap<(Name, Key), Items<u8>>,
}

impl Model for Maps {
    ghost use Rattle.cp_group_state.specs.Maps.{Pairs};

    ghost Value = { Pairs };

    ghost view = { λ maps. maps.pairs.entries };
}

/// The key that an operation names.
fn key_of(op: &MapOp) -> &Items<u8>
    ensures { result.now ≡ key_of op.now }
{
    match op {
        MapOp::Get(key)
        | MapOp::Set(key, _)
        | MapOp::Put(key, _)
        | MapOp::Remove(key)
        | MapOp::Delete(key)
        | MapOp::PutIfAbsent(key, _)
        | MapOp::Cas(key, _, _) => key,
    }
}

/// The place of the pair of this key in the map of this name.
fn place_of(name: &Name, key: &Items<u8>) -> Result<(Name, Key), NoMemory>
    ensures { IfOk result (λ place. place ≡ (name.now, key.now)) }
{
    let name = name.clone()?;
    let key = key.clone()?;
    Ok((name, Key::new(key)))
}

/// Takes the pair at a place away, where the operation is one that does.
#[tactic(auto, unfolding(crate::specs::Pairs::step_at))]
fn take(
    pairs: &mut BTreeMap<(Name, Key), Items<u8>>,
    place: &(Name, Key),
    op: &MapOp,
) -> Option<Answer>
    ensures other { IfNone result (takes_away op.now ≡ false) }
    ensures same { IfNone result (pairs.new.entries ≡ pairs.old.entries) }
    ensures pairs { OnSome result (pairs.new.entries ≡ (step_at pairs.old.entries place.now op.now).after) }
    ensures answer { IfSome result (λ answer. answer ≡ (step_at pairs.old.entries place.now op.now).answer) }
{
    match op {
        MapOp::Remove(_) => Some(Answer::Ref(pairs.remove(place))),
        MapOp::Delete(_) => {
            pairs.remove(place);
            Some(Answer::Ok)
        }
        MapOp::Get(_)
        | MapOp::Set(_, _)
        | MapOp::Put(_, _)
        | MapOp::PutIfAbsent(_, _)
        | MapOp::Cas(_, _, _) => None,
    }
}

/// Does an operation that takes nothing away to the value of a pair, and gives its answer. Where memory runs out, the
/// value stays.
fn apply_to(value: &mut Items<u8>, op: &MapOp) -> Result<Answer, NoMemory>
    requires { takes_away op.now ≡ false }
    ensures value { OnOk result (value.new ≡ unwrap_or (value_set (map_effect (Some value.old) op.now)) value.old) }
    ensures answer { IfOk result (λ answer. answer ≡ map_answer (Some value.old) op.now) }
    ensures err { OnErr result (value.new ≡ value.old) }
{
    match op {
        MapOp::Get(_) => Ok(Answer::Ref(Some(value.clone()?))),
        MapOp::PutIfAbsent(_, _) => Ok(Answer::Ref(Some(value.clone()?))),
        MapOp::Set(_, next) => {
            *value = next.clone()?;
            Ok(Answer::Ok)
        }
        MapOp::Put(_, next) => {
            let next = next.clone()?;
            Ok(Answer::Ref(Some(mem::replace(value, next))))
        }
        MapOp::Cas(_, old, next) => {
            if value.as_slice() != old.as_slice() {
                return Ok(Answer::Bool(false));
            }
            *value = next.clone()?;
            Ok(Answer::Bool(true))
        }
        MapOp::Remove(_) => unreachable!(),
        MapOp::Delete(_) => unreachable!(),
    }
}

/// Does an operation that takes nothing away to the pair at a place, where there is one.
fn apply_to_pair(
    pairs: &mut BTreeMap<(Name, Key), Items<u8>>,
    place: &(Name, Key),
    op: &MapOp,
) -> Result<Option<Answer>, NoMemory>
    requires { takes_away op.now ≡ false }
    ensures same { IfOk result (λ answer. IfNone answer (pairs.new.entries ≡ pairs.old.entries)) }
    ensures absent { IfOk result (λ answer. IfNone answer (find pair_cmp pairs.old.entries place.now ≡ None)) }
    ensures pairs { IfOk result (λ answer. OnSome answer (pairs.new.entries ≡ (step_at pairs.old.entries place.now op.now).after)) }
    ensures answer { IfOk result (λ answer. IfSome answer (λ answer. answer ≡ (step_at pairs.old.entries place.now op.now).answer)) }
    ensures err { OnErr result (pairs.new.entries ≡ pairs.old.entries) }
{
    match pairs.get_mut(place) {
        Some(value) => Ok(Some(apply_to(value, op)?)),
        None => Ok(None),
    }
}

/// The value that an operation sets where there is no pair, if it sets one.
fn value_for_absent(op: &MapOp) -> Option<&Items<u8>>
    ensures { option_copied result ≡ value_set (map_effect None op.now) }
{
    match op {
        MapOp::Set(_, value) => Some(value),
        MapOp::Put(_, value) => Some(value),
        MapOp::PutIfAbsent(_, value) => Some(value),
        MapOp::Get(_) => None,
        MapOp::Remove(_) => None,
        MapOp::Delete(_) => None,
        MapOp::Cas(_, _, _) => None,
    }
}

/// The answer of an operation where there is no pair.
fn answer_at_absent(op: &MapOp) -> Answer
    ensures { result ≡ map_answer None op.now }
{
    match op {
        MapOp::Get(_) => Answer::Ref(None),
        MapOp::Put(_, _) => Answer::Ref(None),
        MapOp::Remove(_) => Answer::Ref(None),
        MapOp::PutIfAbsent(_, _) => Answer::Ref(None),
        MapOp::Set(_, _) => Answer::Ok,
        MapOp::Delete(_) => Answer::Ok,
        MapOp::Cas(_, _, _) => Answer::Bool(false),
    }
}

/// Makes the pair at a place that has none, and gives the answer of the call that sets it; gives `TableFull` and leaves
/// the pairs where there are as many as may be. Where memory runs out, the pairs stay.
fn make_pair(
    pairs: &mut BTreeMap<(Name, Key), Items<u8>>,
    place: (Name, Key),
    value: Items<u8>,
    answer: Answer,
) -> Result<Answer, NoMemory>
    requires { find pair_cmp pairs.old.entries place ≡ None }
    ensures pairs { OnOk result (pairs.new.entries ≡ (with_effect pairs.old.entries place (Sets value) answer).after) }
    ensures answer { IfOk result (λ given. given ≡ (with_effect pairs.old.entries place (Sets value) answer).answer) }
    ensures err { OnErr result (pairs.new.entries ≡ pairs.old.entries) }
{
    if pairs.len() >= MOST_ROWS as usize {
        return Ok(Answer::TableFull(MOST_ROWS));
    }
    pairs.insert(place, value)?;
    Ok(answer)
}

fn copy_of(value: &Items<u8>) -> Result<Items<u8>, NoMemory>
    ensures { IfOk result (λ copy. copy ≡ value.now) }
{
    Ok(value.clone()?)
}

/// Does an operation that takes nothing away at a place where there is no pair.
fn apply_to_absent(
    pairs: &mut BTreeMap<(Name, Key), Items<u8>>,
    place: (Name, Key),
    op: &MapOp,
) -> Result<Answer, NoMemory>
    requires other { takes_away op.now ≡ false }
    requires absent { find pair_cmp pairs.old.entries place ≡ None }
    ensures pairs { OnOk result (pairs.new.entries ≡ (step_at pairs.old.entries place op.now).after) }
    ensures answer { IfOk result (λ answer. answer ≡ (step_at pairs.old.entries place op.now).answer) }
    ensures err { OnErr result (pairs.new.entries ≡ pairs.old.entries) }
{
    let answer = answer_at_absent(op);
    match value_for_absent(op) {
        Some(value) => make_pair(pairs, place, copy_of(value)?, answer),
        None => Ok(answer),
    }
}

/// Does an operation to the pair at a place, and gives its answer. Where memory runs out, the pairs stay.
fn apply_at(
    pairs: &mut BTreeMap<(Name, Key), Items<u8>>,
    place: (Name, Key),
    op: &MapOp,
) -> Result<Answer, NoMemory>
    ensures pairs { OnOk result (pairs.new.entries ≡ (step_at pairs.old.entries place op.now).after) }
    ensures answer { IfOk result (λ answer. answer ≡ (step_at pairs.old.entries place op.now).answer) }
    ensures err { OnErr result (pairs.new.entries ≡ pairs.old.entries) }
{
    if let Some(answer) = take(pairs, &place, op) {
        return Ok(answer);
    }
    match apply_to_pair(pairs, &place, op)? {
        Some(answer) => Ok(answer),
        None => apply_to_absent(pairs, place, op),
    }
}

impl Maps {
    /// The table without pairs.
    pub fn new(alloc: Global) -> Result<Maps, NoMemory>
        ensures { IfOk result (λ maps. maps ≡ []) }
    {
        Ok(Maps {
            pairs: BTreeMap::new(alloc),
        })
    }

    /// The table of these pairs, by rising name and key.
    pub fn from_rows(alloc: Global, rows: Items<((Name, Key), Items<u8>)>) -> Result<Maps, NoMemory>
        requires { IsRising pair_cmp rows }
        ensures { IfOk result (λ maps. maps ≡ rows) }
    {
        Ok(Maps {
            pairs: from_rows(alloc, rows)?,
        })
    }

    /// The pairs of all maps, by rising name and key.
    pub fn rows(&self) -> &BTreeMap<(Name, Key), Items<u8>>
        ensures { result.now.entries ≡ self.now }
    {
        &self.pairs
    }

    /// The value of a key, lent.
    pub fn value(&self, name: &Name, key: &Items<u8>) -> Result<Option<&Items<u8>>, NoMemory>
        ensures { IfOk result (λ value. option_copied value ≡ find pair_cmp self.now (name.now, key.now)) }
    {
        let place = place_of(name, key)?;
        Ok(self.pairs.get(&place))
    }

    /// Does an operation to the map of this name, and gives its answer. A call that would make a pair beyond the most
    /// is answered by `TableFull`, and changes nothing. Where memory runs out, the pairs stay.
    pub fn apply(&mut self, name: &Name, op: &MapOp) -> Result<Answer, NoMemory>
        ensures pairs { OnOk result (self.new ≡ (map_step self.old name.now op.now).after) }
        ensures answer { IfOk result (λ answer. answer ≡ (map_step self.old name.now op.now).answer) }
        ensures err { OnErr result (self.new ≡ self.old) }
    {
        let place = place_of(name, key_of(op))?;
        apply_at(&mut self.pairs, place, op)
    }

    /// Takes the map of this name away, with all its pairs.
    pub fn destroy(&mut self, name: &Name)
        ensures { self.new ≡ map_destroyed name.now self.old }
    {
        self.pairs.retain(|place, _| !(*name == place.0));
    }
}
