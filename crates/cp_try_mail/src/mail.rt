//! The messages of a client, as they are sent and as they come.
ghost use Rattle.std.specs.Prelude.{◌≡◌, ◌≤◌, IfOk};
ghost use Rattle.cp_answers.specs.Answers.{answer_grammar};
ghost use Rattle.cp_answers.specs.Refusals.{refusal};
ghost use Rattle.cp_grammar.specs.Grammar.{whole};
ghost use Rattle.cp_message.specs.Messages.{message_told};
ghost use Rattle.cp_ops.specs.Ops.{op_grammar};
ghost use Rattle.cp_try_rules.specs.Mail.{address_of, answered, body_of, heard, mail_of, refused, told_event};
ghost use Rattle.cp_try_mail.specs.Mailing.{IsSpellable};

use cp_answers::{Answer, Refusal};
use cp_base::limits::MOST_MEMBER;
use cp_base::{ClientNo, Items, NoMemory, ThreadNo};
use cp_events::UserOp;
use cp_grammar::ReadError;
use cp_message::{Body, Message, Reply, Request};
use cp_ops::Op;
use cp_try_rules::{Event, Says, Sent};
use std::alloc::Global;

/// What comes to a client: a call of a thread, a clock that moves by so many milliseconds, bytes.
#[derive(Debug, Drop)]
pub enum ClientEvent {
    Call(ThreadNo, UserOp),
    Tick(u64),
    Got(Items<u8>),
}

/// Clients have the addresses from 17 on.
fn address_of(no: ClientNo) -> u8
    requires { no.0 ≤ 16 }
    ensures { result ≡ address_of no }
{
    16 + no.0
}

/// The bytes of an operation.
fn op_bytes(alloc: Global, op: &Op) -> Result<Items<u8>, NoMemory>
    requires { op_grammar.Fits op.now }
    ensures { IfOk result (λ bytes. bytes ≡ op_grammar.spelling op.now) }
{
    let mut bytes = Vec::new(alloc);
    op.write(&mut bytes)?;
    Ok(Items::from_vec(bytes))
}

/// What a client says, as a message says it.
fn body_of(alloc: Global, says: &Says) -> Result<Body, NoMemory>
    requires { IsSpellable says.now }
    ensures { IfOk result (λ body. body ≡ body_of says.now) }
{
    match says {
        Says::Hello => Ok(Body::Hello),
        Says::Asks(attempt, restart, asked) => Ok(Body::Request(Request {
            thread: asked.call.thread,
            attempt: *attempt,
            restart: *restart,
            client: asked.call.client,
            group: asked.group,
            number: asked.call.number,
            op: op_bytes(alloc, &asked.op)?,
        })),
    }
}

/// The message of what a client sends.
pub fn message_of(alloc: Global, no: ClientNo, sent: &Sent) -> Result<Message, NoMemory>
    requires no { no.0 ≤ 16 }
    requires says { IsSpellable sent.now.says }
    ensures { IfOk result (λ message. message ≡ mail_of no sent.now) }
{
    let body = body_of(alloc, &sent.says)?;
    Ok(Message {
        from: address_of(no),
        to: sent.to,
        body,
    })
}

/// A reply with an answer.
fn answered(alloc: Global, reply: &Reply) -> Result<Option<Event>, NoMemory>
    ensures { IfOk result (λ event. event ≡ answered reply.now (whole answer_grammar reply.now.bytes)) }
{
    match Answer::read(alloc, reply.bytes.as_slice()) {
        Ok(answer) => Ok(Some(Event::Answered(reply.thread, reply.group, reply.number, answer))),
        Err(ReadError::NotInGrammar(_)) => Ok(None),
        Err(ReadError::NoMemory) => Err(NoMemory),
    }
}

/// A reply with a refusal.
fn refused(alloc: Global, reply: &Reply) -> Result<Option<Event>, NoMemory>
    ensures { IfOk result (λ event. event ≡ refused reply.now (whole refusal reply.now.bytes)) }
{
    match Refusal::read(alloc, reply.bytes.as_slice()) {
        Ok(why) => Ok(Some(Event::Refused(
            reply.thread,
            reply.attempt,
            reply.group,
            reply.number,
            why,
        ))),
        Err(ReadError::NotInGrammar(_)) => Ok(None),
        Err(ReadError::NoMemory) => Err(NoMemory),
    }
}

/// What a message of this member has happen, none where it says nothing to clients.
fn heard(alloc: Global, member: u8, body: &Body) -> Result<Option<Event>, NoMemory>
    ensures { IfOk result (λ event. event ≡ heard member body.now) }
{
    match body {
        Body::Welcome(restart) => Ok(Some(Event::Welcomed(member, *restart))),
        Body::Reply(reply) => answered(alloc, reply),
        Body::Refuse(reply) => refused(alloc, reply),
        _ => Ok(None),
    }
}

/// What bytes that came have happen. Those that spell no message for the client do nothing.
pub fn event_of(alloc: Global, no: ClientNo, bytes: &[u8]) -> Result<Option<Event>, NoMemory>
    requires { no.0 ≤ 16 }
    ensures { IfOk result (λ event. event ≡ told_event no (message_told bytes.now)) }
{
    match Message::read(alloc, bytes) {
        Ok(message) => if message.to == address_of(no) && message.from <= MOST_MEMBER {
            heard(alloc, message.from, &message.body)
        } else {
            Ok(None)
        },
        Err(ReadError::NotInGrammar(_)) => Ok(None),
        Err(ReadError::NoMemory) => Err(NoMemory),
    }
}
