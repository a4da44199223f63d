//! Reading a call.
ghost use Rattle.std.specs.Prelude.{◌≡◌};
ghost use Rattle.cp_op_values.specs.declared.kind.Kind.TheVariants as kinds;
ghost use Rattle.cp_events.specs.declared.user_op.UserOp.TheVariants as user;
ghost use Rattle.cp_grammar.specs.Readers.{Reads};
ghost use Rattle.cp_call_words.specs.Calls.{made, may_change, other_calls, user_calls, user_op};

use crate::asking::take_on;
use crate::context::Context;
use crate::groups::{take_change_call, take_closing, take_group_call, take_member_call};
use cp_events::{LatchCall, LockCall, LongCall, Object, RefCall, SemCall, UserOp};
use cp_grammar::{SPACE, Stop, is_token, take_token};
use cp_object_ops::MapOp;
use cp_op_values::Kind;
use std::alloc::Global;

fn on_long(object: Object, call: Option<LongCall>) -> UserOp
    ensures { result ≡ made kinds.Long user.Long object call }
{
    match call {
        Some(call) => UserOp::Long(object, call),
        None => UserOp::Destroy(Kind::Long, object),
    }
}

fn on_ref(object: Object, call: Option<RefCall>) -> UserOp
    ensures { result ≡ made kinds.Ref user.Ref object call }
{
    match call {
        Some(call) => UserOp::Ref(object, call),
        None => UserOp::Destroy(Kind::Ref, object),
    }
}

fn on_lock(object: Object, call: Option<LockCall>) -> UserOp
    ensures { result ≡ made kinds.Lock user.Lock object call }
{
    match call {
        Some(call) => UserOp::Lock(object, call),
        None => UserOp::Destroy(Kind::Lock, object),
    }
}

fn on_sem(object: Object, call: Option<SemCall>) -> UserOp
    ensures { result ≡ made kinds.Sem user.Sem object call }
{
    match call {
        Some(call) => UserOp::Sem(object, call),
        None => UserOp::Destroy(Kind::Sem, object),
    }
}

fn on_jsem(object: Object, call: Option<SemCall>) -> UserOp
    ensures { result ≡ made kinds.Jsem user.Jsem object call }
{
    match call {
        Some(call) => UserOp::Jsem(object, call),
        None => UserOp::Destroy(Kind::Jsem, object),
    }
}

fn on_latch(object: Object, call: Option<LatchCall>) -> UserOp
    ensures { result ≡ made kinds.Latch user.Latch object call }
{
    match call {
        Some(call) => UserOp::Latch(object, call),
        None => UserOp::Destroy(Kind::Latch, object),
    }
}

fn on_map(object: Object, call: Option<MapOp>) -> UserOp
    ensures { result ≡ made kinds.Map user.Map object call }
{
    match call {
        Some(call) => UserOp::Map(object, call),
        None => UserOp::Destroy(Kind::Map, object),
    }
}

fn may_change(context: Context) -> bool
    ensures { result ≡ may_change context }
{
    !context.managed && context.members
}

/// A call that names no object.
#[tactic(auto, unfolding(crate::specs::Calls::other_calls))]
fn take_other<'a>(
    alloc: Global,
    context: Context,
    word: &[u8],
    end: u8,
    bytes: &'a [u8],
) -> Result<(UserOp, &'a [u8]), Stop>
    ensures { Reads result ((other_calls context (word.now, end)).reading bytes.now) }
{
    if is_token(word, end, b"session", SPACE) {
        let (group, rest) = take_closing(alloc, context.managed, bytes)?;
        return Ok((UserOp::CloseSession(group), rest));
    }
    if is_token(word, end, b"group", SPACE) {
        let (call, rest) = take_group_call(alloc, context.managed, bytes)?;
        return Ok((UserOp::Group(call), rest));
    }
    if is_token(word, end, b"member", SPACE) {
        let (op, rest) = take_member_call(context.managed, bytes)?;
        return Ok((UserOp::Member(op), rest));
    }
    if is_token(word, end, b"change", SPACE) {
        let (op, rest) = take_change_call(may_change(context), bytes)?;
        return Ok((UserOp::Change(op), rest));
    }
    Err(Stop::Left(bytes.len()))
}

/// A call with this first word.
#[tactic(auto, unfolding(crate::specs::Calls::user_calls))]
fn take_call<'a>(
    alloc: Global,
    context: Context,
    word: &[u8],
    end: u8,
    bytes: &'a [u8],
) -> Result<(UserOp, &'a [u8]), Stop>
    ensures { Reads result ((user_calls context (word.now, end)).reading bytes.now) }
{
    if is_token(word, end, b"long", SPACE) {
        let ((object, call), rest) = take_on::<LongCall>(alloc, context.managed, bytes)?;
        return Ok((on_long(object, call), rest));
    }
    if is_token(word, end, b"ref", SPACE) {
        let ((object, call), rest) = take_on::<RefCall>(alloc, context.managed, bytes)?;
        return Ok((on_ref(object, call), rest));
    }
    if is_token(word, end, b"lock", SPACE) {
        let ((object, call), rest) = take_on::<LockCall>(alloc, context.managed, bytes)?;
        return Ok((on_lock(object, call), rest));
    }
    if is_token(word, end, b"sem", SPACE) {
        let ((object, call), rest) = take_on::<SemCall>(alloc, context.managed, bytes)?;
        return Ok((on_sem(object, call), rest));
    }
    if is_token(word, end, b"jsem", SPACE) {
        let ((object, call), rest) = take_on::<SemCall>(alloc, context.managed, bytes)?;
        return Ok((on_jsem(object, call), rest));
    }
    if is_token(word, end, b"latch", SPACE) {
        let ((object, call), rest) = take_on::<LatchCall>(alloc, context.managed, bytes)?;
        return Ok((on_latch(object, call), rest));
    }
    if is_token(word, end, b"map", SPACE) {
        let ((object, call), rest) = take_on::<MapOp>(alloc, context.managed, bytes)?;
        return Ok((on_map(object, call), rest));
    }
    take_other(alloc, context, word, end, bytes)
}

/// The call at the front of bytes, up to the end of its line, and the bytes after it.
#[tactic(auto, unfolding(crate::specs::Calls::user_op))]
pub fn take_user_op(alloc: Global, context: Context, bytes: &[u8]) -> Result<(UserOp, &[u8]), Stop>
    ensures { Reads result ((user_op context).reading bytes.now) }
{
    let (word, end, rest) = take_token(bytes)?;
    take_call(alloc, context, word, end, rest)
}
