//! A session's page.

ghost use Rattle.std.specs.Prelude.{◌≡◌, [], ◌∷◌, ◌++◌, IfOk, OnOk, OnErr, MatchOption, None, Some, All};
ghost use Rattle.std.specs.Option.{unwrap_or};
ghost use Rattle.std.specs.Str.{bytes_eq};
ghost use Rattle.m5_script.specs.Pairs.{text_at, set_at};
ghost use Rattle.m5_page.specs.Page.{handlers_of};
ghost use Rattle.m5_page.specs.Found.{Differs, IsFoundAt};

use crate::row::Handler;
use m5_script::items::TextPair;
use m5_terms::ask::Numbers;
use m5_terms::listed::Listed;
use m5_terms::text::Text;
use std::alloc::{AllocError, Global};
use std::marker::Model;

/// The texts of a page's elements, and the elements' handlers in the order of their registration.
#[derive(Drop)]
pub struct Page {
    texts: Vec<TextPair>,
    handlers: Listed<Handler>,
}

impl Model for Page {
    ghost use Rattle.m5_page.specs.Page.{PageRecord};

    ghost Value = { PageRecord };

    ghost view = { λ p. record { texts = p.texts.items; handlers = p.handlers } };
}

impl Page {
    /// A page without texts and handlers.
    pub fn make(alloc: Global) -> Page
        ensures { result ≡ record { texts = []; handlers = [] } }
    {
        Page {
            texts: Vec::new(alloc),
            handlers: Listed::make(alloc),
        }
    }

    /// Sets the text of an element. Where memory is wanting, the page stays as it was.
    pub fn set_text(&mut self, element: Text, text: Text) -> Result<(), AllocError>
        ensures ok { OnOk result (self.new ≡ record self.old { texts = set_at self.old.texts element text }) }
        ensures err { OnErr result (self.new ≡ self.old) }
    {
        set_text(&mut self.texts, element, text)
    }

    /// The text of an element, which is empty where none was set.
    pub fn get_text(&self, element: &[u8]) -> &[u8]
        ensures { result.now ≡ unwrap_or (text_at self.now.texts element.now) [] }
    {
        text_among(self.texts.as_slice(), element)
    }

    /// Adds a handler of an element behind the others. Where memory is wanting, the page stays as it
    /// was.
    pub fn on(&mut self, element: Text, number: u32) -> Result<(), AllocError>
        ensures ok { OnOk result (self.new ≡ record self.old { handlers = self.old.handlers ++ record { element = element; number = number } ∷ [] }) }
        ensures err { OnErr result (self.new ≡ self.old) }
    {
        self.handlers.push(Handler { element, number })
    }

    /// The numbers of an element's handlers, in the order of registration.
    pub fn event(&self, alloc: Global, element: &[u8]) -> Result<Numbers, AllocError>
        ensures { IfOk result (λ ns. ns ≡ handlers_of self.now.handlers element.now) }
    {
        handlers_among(alloc, self.handlers.as_slice(), element)
    }
}

fn has_key(pair: &TextPair, key: &Text) -> bool
    ensures { result ≡ bytes_eq pair.now.key key.now }
{
    pair.key.bytes() == key.bytes()
}

/// The index of the first pair with this key.
fn position(pairs: &[TextPair], key: &Text) -> Option<usize>
    ensures { MatchOption result (All (Differs key.now) pairs.now) (λ i. IsFoundAt key.now pairs.now i) }
{
    for index in 0..pairs.len() {
        if has_key(&pairs[index], key) {
            return Some(index);
        }
    }
    None
}

fn set_text(pairs: &mut Vec<TextPair>, key: Text, text: Text) -> Result<(), AllocError>
    ensures ok { OnOk result (pairs.new.items ≡ set_at pairs.old.items key text) }
    ensures err { OnErr result (pairs.new.items ≡ pairs.old.items) }
{
    match position(pairs.as_slice(), &key) {
        Some(index) => {
            pairs[index] = TextPair { key, text };
            Ok(())
        }
        None => {
            pairs.push(TextPair { key, text })?;
            Ok(())
        }
    }
}

/// The text of an element, which is empty where there is none.
fn text_among<'a>(pairs: &'a [TextPair], element: &[u8]) -> &'a [u8]
    ensures { result.now ≡ unwrap_or (text_at pairs.now element.now) [] }
{
    for pair in pairs {
        if pair.key.bytes() == element {
            return pair.text.bytes();
        }
    }
    b""
}

fn handlers_among(
    alloc: Global,
    handlers: &[Handler],
    element: &[u8],
) -> Result<Numbers, AllocError>
    ensures { IfOk result (λ ns. ns ≡ handlers_of handlers.now element.now) }
{
    let mut numbers: Numbers = Listed::make(alloc);
    for handler in handlers {
        if handler.element.bytes() == element {
            numbers.push(handler.number)?;
        }
    }
    Ok(numbers)
}
