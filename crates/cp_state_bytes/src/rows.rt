//! Readers of single rows.
ghost use Rattle.std.specs.Prelude.{◌≡◌};
ghost use Rattle.cp_grammar.specs.Lists.{each};
ghost use Rattle.cp_grammar.specs.Readers.{Reads};
ghost use Rattle.cp_group_ranges.specs.Rows.{can_wait, is_semaphore};
ghost use Rattle.cp_grammar.specs.Fields.{optional};
ghost use Rattle.cp_answers.specs.Answers.{answer_within};
ghost use Rattle.cp_state_bytes.specs.Versions.{has_kind, most_reference};
ghost use Rattle.cp_state_bytes.specs.Rows.{name_behind, object_behind, session_row, lock_row, is_permits, signed_permits, semaphore_row, held_row, long_row, ref_row, gone_row, waiter_row, holder_behind, memory_row, place_behind, pair_row};

use crate::keys::{is_behind, may_follow_name, may_follow_session};
use crate::row::Row;
use crate::version::Version;
use cp_answers::Answer;
use cp_base::limits::MOST_PERMITS;
use cp_base::{ClientId, Invocation, Items, Name, ThreadNo};
use cp_grammar::{Spelled, Stop, take_i64, take_index, take_u8, take_u32, take_u32_between};
use cp_group_state::{Holder, LockRow, MemoryRow, SemaphoreRow, SessionRow, Waiter};
use cp_map::Key;
use cp_op_values::{Kind, Wish, take_key, take_reference, take_value};
use std::alloc::Global;

/// The least number of permits that may stand available.
const LEAST_PERMITS: i64 = -0x8000_0000;

const MOST_THREAD: u8 = 8;

/// A name above that of the last row.
#[tactic(auto, unfolding(crate::specs::Rows::name_behind))]
pub fn take_name_behind<'a, V>(
    alloc: Global,
    before: &[(Name, V)],
    bytes: &'a [u8],
) -> Result<(Name, &'a [u8]), Stop>
    ensures { Reads result ((name_behind before.now).reading bytes.now) }
{
    let (name, rest) = Name::take(alloc, bytes)?;
    if !is_behind(before, &name) {
        return Err(Stop::Left(bytes.len()));
    }
    Ok((name, rest))
}

/// Whether permits of this kind of object are counted.
fn is_semaphore(kind: Kind) -> bool
    ensures { result ≡ is_semaphore kind }
{
    match kind {
        Kind::Sem | Kind::Jsem => true,
        Kind::Long | Kind::Ref | Kind::Lock | Kind::Latch | Kind::Map => false,
    }
}

/// Whether calls wait on this kind of object.
fn can_wait(kind: Kind) -> bool
    ensures { result ≡ can_wait kind }
{
    match kind {
        Kind::Lock | Kind::Sem | Kind::Jsem | Kind::Latch => true,
        Kind::Long | Kind::Ref | Kind::Map => false,
    }
}

/// A semaphore, above the last row by name and kind.
#[tactic(auto, unfolding(crate::specs::Rows::object_behind))]
fn take_semaphore<'a>(
    alloc: Global,
    before: &[((Name, Kind), SemaphoreRow)],
    bytes: &'a [u8],
) -> Result<((Name, Kind), &'a [u8]), Stop>
    ensures { Reads result ((object_behind is_semaphore before.now).reading bytes.now) }
{
    let (kind, after) = Kind::take(alloc, bytes)?;
    if !is_semaphore(kind) {
        return Err(Stop::Left(bytes.len()));
    }
    let (name, rest) = Name::take(alloc, after)?;
    let object = (name, kind);
    if !is_behind(before, &object) {
        return Err(Stop::Left(after.len()));
    }
    Ok((object, rest))
}

/// A destroyed object, above the last row by name and kind.
#[tactic(auto, unfolding(crate::specs::Rows::object_behind))]
fn take_gone<'a>(
    alloc: Global,
    version: Version,
    before: &[((Name, Kind), ())],
    bytes: &'a [u8],
) -> Result<((Name, Kind), &'a [u8]), Stop>
    ensures { Reads result ((object_behind (has_kind version) before.now).reading bytes.now) }
{
    let (kind, after) = Kind::take(alloc, bytes)?;
    if !version.has_kind(kind) {
        return Err(Stop::Left(bytes.len()));
    }
    let (name, rest) = Name::take(alloc, after)?;
    let object = (name, kind);
    if !is_behind(before, &object) {
        return Err(Stop::Left(after.len()));
    }
    Ok((object, rest))
}

/// Whether so many permits may stand available, or be there in all.
fn is_permits(number: i64) -> bool
    ensures { result ≡ is_permits number }
{
    LEAST_PERMITS <= number && number <= i64::from(MOST_PERMITS)
}

/// A number of permits, which may be below 0.
#[tactic(auto, unfolding(crate::specs::Rows::signed_permits))]
fn take_signed_permits(bytes: &[u8]) -> Result<(i64, &[u8]), Stop>
    ensures { Reads result (signed_permits.reading bytes.now) }
{
    let (number, rest) = take_i64(bytes)?;
    if !is_permits(number) {
        return Err(Stop::Left(bytes.len()));
    }
    Ok((number, rest))
}

/// A thread of a session, above the last row by session and thread.
#[tactic(auto, unfolding(crate::specs::Rows::holder_behind))]
fn take_holder<'a>(
    before: &[((u64, u8), MemoryRow)],
    bytes: &'a [u8],
) -> Result<((u64, u8), &'a [u8]), Stop>
    ensures { Reads result ((holder_behind before.now).reading bytes.now) }
{
    let (session, after) = take_index(bytes)?;
    if !may_follow_session(before, session) {
        return Err(Stop::Left(bytes.len()));
    }
    let (thread, rest) = take_u8(after, MOST_THREAD)?;
    let holder = (session, thread);
    if !is_behind(before, &holder) {
        return Err(Stop::Left(after.len()));
    }
    Ok((holder, rest))
}

/// The name of a map and a key, above the last row by name and key.
#[tactic(auto, unfolding(crate::specs::Rows::place_behind))]
fn take_place<'a>(
    alloc: Global,
    before: &[((Name, Key), Items<u8>)],
    bytes: &'a [u8],
) -> Result<((Name, Key), &'a [u8]), Stop>
    ensures { Reads result ((place_behind before.now).reading bytes.now) }
{
    let (name, after) = Name::take(alloc, bytes)?;
    if !may_follow_name(before, &name) {
        return Err(Stop::Left(bytes.len()));
    }
    let (key, rest) = take_key(alloc, after)?;
    let place = (name, Key::new(key));
    if !is_behind(before, &place) {
        return Err(Stop::Left(after.len()));
    }
    Ok((place, rest))
}

/// An answer, or none.
fn take_answer(
    alloc: Global,
    version: Version,
    bytes: &[u8],
) -> Result<(Option<Answer>, &[u8]), Stop>
    ensures { Reads result ((optional (answer_within (most_reference version))).reading bytes.now) }
{
    let (flag, rest) = take_u8(bytes, 1)?;
    match flag {
        0 => Ok((None, rest)),
        1 => {
            let (answer, rest) = Answer::take_within(alloc, version.most_reference(), rest)?;
            Ok((Some(answer), rest))
        }
        _ => Err(Stop::Left(rest.len())),
    }
}

impl Row for (u64, SessionRow) {
    ghost behind = { λ version. session_row };

    #[tactic(auto, unfolding(crate::specs::Rows::session_row))]
    fn take_row<'a>(
        alloc: Global,
        _version: Version,
        before: &[(u64, SessionRow)],
        bytes: &'a [u8],
    ) -> Result<((u64, SessionRow), &'a [u8]), Stop> {
        let (number, rest) = take_index(bytes)?;
        if !is_behind(before, &number) {
            return Err(Stop::Left(bytes.len()));
        }
        let (client, rest) = match ClientId::take(alloc, rest) {
            Ok(read) => read,
            Err(stop) => return Err(stop),
        };
        let (version, rest) = take_index(rest)?;
        Ok(((number, SessionRow { client, version }), rest))
    }
}

impl Row for (Name, LockRow) {
    ghost behind = { λ version. lock_row };

    #[tactic(auto, unfolding(crate::specs::Rows::lock_row))]
    fn take_row<'a>(
        alloc: Global,
        _version: Version,
        before: &[(Name, LockRow)],
        bytes: &'a [u8],
    ) -> Result<((Name, LockRow), &'a [u8]), Stop> {
        let (name, rest) = take_name_behind(alloc, before, bytes)?;
        let (session, rest) = take_index(rest)?;
        let (thread, rest) = ThreadNo::take(alloc, rest)?;
        let (fence, rest) = take_index(rest)?;
        let (holds, rest) = take_u32(rest, u32::MAX)?;
        let holder = Holder { session, thread };
        let row = LockRow {
            holder,
            fence,
            holds,
        };
        Ok(((name, row), rest))
    }
}

impl Row for ((Name, Kind), SemaphoreRow) {
    ghost behind = { λ version. semaphore_row };

    #[tactic(auto, unfolding(crate::specs::Rows::semaphore_row))]
    fn take_row<'a>(
        alloc: Global,
        _version: Version,
        before: &[((Name, Kind), SemaphoreRow)],
        bytes: &'a [u8],
    ) -> Result<(((Name, Kind), SemaphoreRow), &'a [u8]), Stop> {
        let (object, rest) = take_semaphore(alloc, before, bytes)?;
        let (total, rest) = take_signed_permits(rest)?;
        let (available, rest) = take_signed_permits(rest)?;
        Ok(((object, SemaphoreRow { total, available }), rest))
    }
}

/// What a session holds of a semaphore, by the semaphore's name and the session.
impl Row for ((Name, u64), u64) {
    ghost behind = { λ version. held_row };

    #[tactic(auto, unfolding(crate::specs::Rows::held_row))]
    fn take_row<'a>(
        alloc: Global,
        _version: Version,
        before: &[((Name, u64), u64)],
        bytes: &'a [u8],
    ) -> Result<(((Name, u64), u64), &'a [u8]), Stop> {
        let (session, after) = take_index(bytes)?;
        let (name, rest) = Name::take(alloc, after)?;
        let key = (name, session);
        if !is_behind(before, &key) {
            return Err(Stop::Left(after.len()));
        }
        let (permits, rest) = take_u32_between(rest, 1, MOST_PERMITS)?;
        Ok(((key, u64::from(permits)), rest))
    }
}

impl Row for (Name, i64) {
    ghost behind = { λ version. long_row };

    #[tactic(auto, unfolding(crate::specs::Rows::long_row))]
    fn take_row<'a>(
        alloc: Global,
        _version: Version,
        before: &[(Name, i64)],
        bytes: &'a [u8],
    ) -> Result<((Name, i64), &'a [u8]), Stop> {
        let (name, rest) = take_name_behind(alloc, before, bytes)?;
        let (long, rest) = take_i64(rest)?;
        Ok(((name, long), rest))
    }
}

impl Row for (Name, Option<Items<u8>>) {
    ghost behind = { ref_row };

    #[tactic(auto, unfolding(crate::specs::Rows::ref_row))]
    fn take_row<'a>(
        alloc: Global,
        version: Version,
        before: &[(Name, Option<Items<u8>>)],
        bytes: &'a [u8],
    ) -> Result<((Name, Option<Items<u8>>), &'a [u8]), Stop> {
        let (name, rest) = take_name_behind(alloc, before, bytes)?;
        let (value, rest) = take_reference(alloc, version.most_reference(), rest)?;
        Ok(((name, value), rest))
    }
}

/// A destroyed object.
impl Row for ((Name, Kind), ()) {
    ghost behind = { gone_row };

    #[tactic(auto, unfolding(crate::specs::Rows::gone_row))]
    fn take_row<'a>(
        alloc: Global,
        version: Version,
        before: &[((Name, Kind), ())],
        bytes: &'a [u8],
    ) -> Result<(((Name, Kind), ()), &'a [u8]), Stop> {
        let (object, rest) = take_gone(alloc, version, before, bytes)?;
        Ok(((object, ()), rest))
    }
}

impl Row for Waiter {
    ghost behind = { λ version. each waiter_row };

    #[tactic(auto, unfolding(crate::specs::Rows::waiter_row, cp_grammar::specs::Lists::each))]
    fn take_row<'a>(
        alloc: Global,
        _version: Version,
        _before: &[Waiter],
        bytes: &'a [u8],
    ) -> Result<(Waiter, &'a [u8]), Stop> {
        let (call, after) = match Invocation::take(alloc, bytes) {
            Ok(read) => read,
            Err(stop) => return Err(stop),
        };
        let (kind, rest) = Kind::take(alloc, after)?;
        if !can_wait(kind) {
            return Err(Stop::Left(after.len()));
        }
        let (name, rest) = Name::take(alloc, rest)?;
        let (session, rest) = take_index(rest)?;
        let (permits, rest) = take_u32(rest, MOST_PERMITS)?;
        let (wish, rest) = Wish::take(alloc, rest)?;
        let waiter = Waiter {
            call,
            kind,
            name,
            session,
            permits,
            wish,
        };
        Ok((waiter, rest))
    }
}

impl Row for ((u64, u8), MemoryRow) {
    ghost behind = { memory_row };

    #[tactic(auto, unfolding(crate::specs::Rows::memory_row))]
    fn take_row<'a>(
        alloc: Global,
        version: Version,
        before: &[((u64, u8), MemoryRow)],
        bytes: &'a [u8],
    ) -> Result<(((u64, u8), MemoryRow), &'a [u8]), Stop> {
        let (holder, rest) = take_holder(before, bytes)?;
        let (number, rest) = take_index(rest)?;
        let (answer, rest) = take_answer(alloc, version, rest)?;
        Ok(((holder, MemoryRow { number, answer }), rest))
    }
}

impl Row for ((Name, Key), Items<u8>) {
    ghost behind = { λ version. pair_row };

    #[tactic(auto, unfolding(crate::specs::Rows::pair_row))]
    fn take_row<'a>(
        alloc: Global,
        _version: Version,
        before: &[((Name, Key), Items<u8>)],
        bytes: &'a [u8],
    ) -> Result<(((Name, Key), Items<u8>), &'a [u8]), Stop> {
        let (place, rest) = take_place(alloc, before, bytes)?;
        let (value, rest) = take_value(alloc, rest)?;
        Ok(((place, value), rest))
    }
}
