//! Writing a call.
ghost use Rattle.std.specs.Prelude.{◌≡◌, ◌++◌, OnOk};
ghost use Rattle.cp_events.specs.declared.user_op.UserOp.TheVariants as user;
ghost use Rattle.cp_call_words.specs.Calls.{user_op, call_text};
ghost use Rattle.cp_call_words.specs.Shown.{named, with_group, with_groups, shown};

use crate::asking::append_on;
use crate::context::Context;
use crate::groups::{append_change_call, append_closing, append_group_call, append_member_call};
use crate::object::append_object;
use cp_base::{NoMemory, Text};
use cp_events::{Object, UserOp};
use cp_grammar::{LINE, SPACE, append_word};
use cp_op_values::Kind;

/// Appends the call that destroys an object.
fn append_destroy(
    kind: Kind,
    object: &Object,
    short: bool,
    out: &mut Vec<u8>,
) -> Result<(), NoMemory>
    ensures { OnOk result (out.new.items ≡ out.old.items ++ call_text (user.Destroy kind (with_group (named short) object.now))) }
{
    kind.append_text(out)?;
    out.push(SPACE)?;
    append_object(object, short, out)?;
    append_word(b"destroy", LINE, out)?;
    Ok(())
}

/// Appends a call. Where the text is to be short, the group `default` is left out.
#[tactic(auto, unfolding(crate::specs::Calls::user_op, crate::specs::Calls::user_calls, crate::specs::Calls::other_calls))]
fn append_call(op: &UserOp, short: bool, out: &mut Vec<u8>) -> Result<(), NoMemory>
    ensures { OnOk result (out.new.items ≡ out.old.items ++ call_text (with_groups (named short) op.now)) }
{
    match op {
        UserOp::Long(object, call) => {
            append_word(b"long", SPACE, out)?;
            append_on(object, call, short, out)?;
        }
        UserOp::Ref(object, call) => {
            append_word(b"ref", SPACE, out)?;
            append_on(object, call, short, out)?;
        }
        UserOp::Lock(object, call) => {
            append_word(b"lock", SPACE, out)?;
            append_on(object, call, short, out)?;
        }
        UserOp::Sem(object, call) => {
            append_word(b"sem", SPACE, out)?;
            append_on(object, call, short, out)?;
        }
        UserOp::Jsem(object, call) => {
            append_word(b"jsem", SPACE, out)?;
            append_on(object, call, short, out)?;
        }
        UserOp::Latch(object, call) => {
            append_word(b"latch", SPACE, out)?;
            append_on(object, call, short, out)?;
        }
        UserOp::Map(object, call) => {
            append_word(b"map", SPACE, out)?;
            append_on(object, call, short, out)?;
        }
        UserOp::Destroy(kind, object) => append_destroy(*kind, object, short, out)?,
        UserOp::CloseSession(group) => {
            append_word(b"session", SPACE, out)?;
            append_closing(group, short, out)?;
        }
        UserOp::Group(call) => {
            append_word(b"group", SPACE, out)?;
            append_group_call(call, out)?;
        }
        UserOp::Member(op) => {
            append_word(b"member", SPACE, out)?;
            append_member_call(op, out)?;
        }
        UserOp::Change(op) => {
            append_word(b"change", SPACE, out)?;
            append_change_call(op, out)?;
        }
    }
    Ok(())
}

/// Appends a call as it was written, with the end of its line. Its spelling is the same in every context.
#[tactic(auto, using(crate::proofs::CallTexts::same_text, crate::proofs::CallTexts::all_named))]
pub fn put_user_op(context: Context, op: &UserOp, out: &mut Vec<u8>) -> Result<(), NoMemory>
    ensures { OnOk result (out.new.items ≡ out.old.items ++ (user_op context).spelling op.now) }
{
    append_call(op, false, out)
}

/// Appends a call as a transcript shows it, with the end of its line.
pub fn put_shown_user_op(op: &UserOp, out: &mut Vec<u8>) -> Result<(), NoMemory>
    ensures { OnOk result (out.new.items ≡ out.old.items ++ call_text (shown op.now)) }
{
    append_call(op, true, out)
}
