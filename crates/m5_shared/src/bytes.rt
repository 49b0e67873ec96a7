//! What goes along a link between sites of an object: the bytes of a message.

ghost use Rattle.std.specs.Prelude.{◌≡◌, ◌↔◌, IsTrue, nat_eq};
ghost use Rattle.std.specs.List.{starts_with};
ghost use Rattle.m5_terms.specs.declared.ask.AnswerOf.TheVariants as answer;
ghost use Rattle.m5_terms.specs.Seal.{seal_bytes};

use m5_terms::ask::{Answer, AnswerOf, Ask, AskOf};
use m5_terms::item::Item;
use m5_terms::seal::seal_of;
use m5_terms::text::Text;
use std::marker::Model;

/// The bytes of a message, whoever sealed it.
#[derive(Drop)]
pub struct MessageBytes {
    held: Text,
}

impl Model for MessageBytes {
    ghost use Rattle.std.specs.Prelude.{ℕ, List};

    ghost Value = { List ℕ };

    ghost view = { λ m. m.held };
}

impl Item for MessageBytes {
    ghost raw = { λ bytes. bytes };

    ghost has_seal = { λ s bytes. starts_with nat_eq bytes (seal_bytes s) };

    fn of_raw(bytes: Text) -> MessageBytes {
        MessageBytes { held: bytes }
    }

    fn is_sealed(&self, session: u32) -> bool {
        let seal = seal_of(session);
        self.held.bytes().starts_with(&seal.0)
    }
}

/// An ask, whose message goes along a link as it is.
pub(crate) fn posted(ask: Ask) -> AskOf<MessageBytes>
    ensures { result ≡ ask }
{
    match ask {
        AskOf::Say(text) => AskOf::Say(text),
        AskOf::Set(element, text) => AskOf::Set(element, text),
        AskOf::GetText(element) => AskOf::GetText(element),
        AskOf::On(element, number) => AskOf::On(element, number),
        AskOf::Read(key) => AskOf::Read(key),
        AskOf::Write(key, text) => AskOf::Write(key, text),
        AskOf::Watch(key, number) => AskOf::Watch(key, number),
        AskOf::Show(text) => AskOf::Show(text),
        AskOf::Send(to, bytes) => AskOf::Send(to, MessageBytes { held: bytes }),
        AskOf::Take => AskOf::Take,
        AskOf::Stop(cause) => AskOf::Stop(cause),
    }
}

/// An answer, with the bytes of the message that came along a link.
pub(crate) fn delivered(reply: AnswerOf<MessageBytes>) -> Answer
    ensures { result ≡ reply }
{
    match reply {
        AnswerOf::Done => AnswerOf::Done,
        AnswerOf::Found(text) => AnswerOf::Found(text),
        AnswerOf::Missing => AnswerOf::Missing,
        AnswerOf::Message(from, message) => AnswerOf::Message(from, message.held),
        AnswerOf::Fired(key, number, text) => AnswerOf::Fired(key, number, text),
        AnswerOf::Event(element, numbers, text) => AnswerOf::Event(element, numbers, text),
        AnswerOf::Nothing => AnswerOf::Nothing,
    }
}

/// Whether there was nothing for a look.
pub(crate) fn is_nothing(reply: &Answer) -> bool
    ensures { IsTrue result ↔ (reply.now ≡ answer.Nothing) }
{
    matches!(reply, AnswerOf::Nothing)
}
