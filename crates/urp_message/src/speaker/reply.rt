//! Replies as they are written (URP specification, messages).
ghost use Rattle.std.specs.Prelude.{◌≡◌, ◌<◌, ◌^◌, ◌++◌, length, OnOk};
ghost use Rattle.message_model.specs.Sayable.{AnswerSpellable};
ghost use Rattle.message_model.specs.WritingMessages.{is_raised, reply_flags, reply_spelling, after_reply, answer_spelling, after_answer};
ghost use Rattle.urp_message.specs.Messages.{answer_of, spoken_of};
ghost use Rattle.urp_message.specs.Speaking.{AnswerWritable};
ghost use Rattle.urp_wire.specs.Written.{names_of};

use super::heading::is_new_tid;
use super::target::put_thread;
use crate::Answer;
use crate::flags::{EXCEPTION, NEW_TID};
use crate::remembered::Spoken;
use std::alloc::Global;
use uno_base::NoMemory;
use uno_types::Tid;
use urp_cache::SendCaches;
use urp_wire::{write_any, write_single, write_values};

/// The bit that every reply has in its first byte.
const REPLY: u8 = 0x80;

/// The flags of a reply, its thread where it is new, and the answer.
#[tactic(auto, unfolding(message_model::specs::WritingMessages::reply_spelling, message_model::specs::WritingMessages::after_reply))]
pub(crate) fn put_reply(
    alloc: Global,
    tid: &Tid,
    answer: &Answer,
    spoken: &mut Spoken,
    to: &mut Vec<u8>,
) -> Result<(), NoMemory>
    requires thread { length tid.now < 2 ^ 32 }
    requires answer { AnswerWritable (answer_of answer.now) }
    ensures bytes { OnOk result (to.new.items ≡ to.old.items ++ reply_spelling tid.now (answer_of answer.now) (spoken_of spoken.old)) }
    ensures after { OnOk result (spoken_of spoken.new ≡ after_reply tid.now (answer_of answer.now) (spoken_of spoken.old)) }
    ensures ranges { OnOk result (AnswerSpellable (answer_of answer.now)) }
{
    to.push(reply_flags(is_raised(answer), is_new_tid(tid, &spoken.last.tid)))?;
    put_thread(tid, &mut spoken.last.tid, &mut spoken.caches.tids, to)?;
    put_answer(alloc, answer, &mut spoken.caches, to)
}

fn is_raised(answer: &Answer) -> bool
    ensures { result ≡ is_raised (answer_of answer.now) }
{
    matches!(answer, Answer::Raised(_))
}

/// The first byte of a reply.
fn reply_flags(is_exception: bool, is_new_tid: bool) -> u8
    ensures { result ≡ reply_flags is_exception is_new_tid }
{
    REPLY + (u8::from(is_exception) * EXCEPTION + u8::from(is_new_tid) * NEW_TID)
}

/// The result and the other values, or an any with the exception.
#[tactic(auto, unfolding(message_model::specs::WritingMessages::answer_spelling, message_model::specs::WritingMessages::after_answer, urp_model::specs::Writing::spelling, urp_model::specs::Writing::after))]
fn put_answer(
    alloc: Global,
    answer: &Answer,
    caches: &mut SendCaches,
    to: &mut Vec<u8>,
) -> Result<(), NoMemory>
    requires { AnswerWritable (answer_of answer.now) }
    ensures bytes { OnOk result (to.new.items ≡ to.old.items ++ answer_spelling (answer_of answer.now) (names_of caches.old)) }
    ensures names { OnOk result (names_of caches.new ≡ after_answer (answer_of answer.now) (names_of caches.old)) }
    ensures ranges { OnOk result (AnswerSpellable (answer_of answer.now)) }
{
    match answer {
        Answer::Returned { value, outs } => {
            write_single(alloc, caches, value, to)?;
            write_values(alloc, caches, outs, to)
        }
        Answer::Raised(exception) => write_any(alloc, caches, exception, to),
    }
}
