//! What a line of a script says.

ghost use Rattle.std.specs.Prelude.{◌≡◌, ◌≢◌, IfOk, IfErr, Some};
ghost use Rattle.m5_terms.specs.Text.{IsText};
ghost use Rattle.m5_terms.specs.declared.types.World.TheVariants.{Any};
ghost use Rattle.m5_script.specs.Fields.{skipped, word_at, Refuses};
ghost use Rattle.m5_script.specs.Quoted.{text_at};
ghost use Rattle.m5_script.specs.Line.{number_at, world_at, item_at, ended, keyword_of, sessions_form, steps_form, region_form, store_form, event_form, raw_form, order_form, form_after, form_of, is_remark, IsForm};

use crate::fields::{number, sites, skip, word, world};
use crate::form::{Form, Keyword, LineEnd};
use crate::quoted::{hexadecimal, parted, quoted};
use m5_terms::text::{Text, byte_at};
use m5_terms::types::World;
use std::alloc::Global;

/// What is still to be read of a line.
#[derive(Clone, Copy)]
struct Cursor<'a> {
    rest: &'a [u8],
}

impl<'a> Cursor<'a> {
    fn next_word(&mut self) -> &'a [u8]
        ensures word { result.now ≡ (word_at self.old.rest.now).0 }
        ensures rest { self.new.rest.now ≡ (word_at self.old.rest.now).1 }
    {
        let (word, rest) = word(self.rest);
        self.rest = rest;
        word
    }

    #[tactic(auto, unfolding(crate::specs::Line::number_at))]
    fn next_number(&mut self) -> Result<u32, LineEnd>
        ensures ok { IfOk result (λ n. number_at self.old.rest.now ≡ Some (n, self.new.rest.now)) }
        ensures err { IfErr result (λ e. Refuses e (number_at self.old.rest.now)) }
    {
        match number(self.next_word()) {
            Some(number) => Ok(number),
            None => Err(LineEnd::Syntax),
        }
    }

    #[tactic(auto, unfolding(crate::specs::Line::world_at))]
    fn next_world(&mut self) -> Result<World, LineEnd>
        ensures ok { IfOk result (λ w. world_at self.old.rest.now ≡ Some (w, self.new.rest.now)) }
        ensures site { IfOk result (λ w. w ≢ Any) }
        ensures err { IfErr result (λ e. Refuses e (world_at self.old.rest.now)) }
    {
        match world(self.next_word()) {
            Some(world) => Ok(world),
            None => Err(LineEnd::Syntax),
        }
    }

    /// The next quoted text.
    #[tactic(auto, unfolding(crate::specs::Quoted::text_at), using(crate::proofs::Texts::unquoted, crate::proofs::Texts::quote_within, crate::proofs::Texts::text_read, crate::proofs::Texts::text_refused, crate::proofs::Texts::text_unparted))]
    fn next_text(&mut self, alloc: Global) -> Result<Text, LineEnd>
        ensures ok { IfOk result (λ t. text_at self.old.rest.now ≡ Some (t, self.new.rest.now)) }
        ensures text { IfOk result (λ t. IsText t) }
        ensures err { IfErr result (λ e. Refuses e (text_at self.old.rest.now)) }
    {
        let from = skip(self.rest);
        if byte_at(from, 0) != b'"' {
            return Err(LineEnd::Syntax);
        }
        let inside = from.split_at(1).1;
        let (text, length) = quoted(alloc, inside)?;
        let rest = inside.split_at(length).1;
        if !parted(rest) {
            return Err(LineEnd::Syntax);
        }
        self.rest = rest;
        Ok(text)
    }

    /// The bytes that the next quoted text spells in hexadecimal.
    #[tactic(auto, unfolding(crate::specs::Line::item_at), using(crate::proofs::Steps::refuses_first, crate::proofs::Steps::refuses_next, crate::proofs::Steps::gives_next))]
    fn next_item(&mut self, alloc: Global) -> Result<Text, LineEnd>
        ensures ok { IfOk result (λ t. item_at self.old.rest.now ≡ Some (t, self.new.rest.now)) }
        ensures err { IfErr result (λ e. Refuses e (item_at self.old.rest.now)) }
    {
        let digits = self.next_text(alloc)?;
        hexadecimal(alloc, digits.bytes())
    }

    /// The form of a line of which nothing but blanks is left.
    fn close(&self, form: Form) -> Result<Form, LineEnd>
        ensures ok { IfOk result (λ f. (f ≡ form) × (ended form self.now.rest.now ≡ Some f)) }
        ensures err { IfErr result (λ e. Refuses e (ended form self.now.rest.now)) }
    {
        if skip(self.rest).is_empty() {
            Ok(form)
        } else {
            Err(LineEnd::Syntax)
        }
    }
}

#[tactic(auto, unfolding(crate::specs::Line::sessions_form), using(crate::proofs::Steps::refuses_first, crate::proofs::Steps::refuses_next, crate::proofs::Steps::gives_next))]
fn sessions_form(rest: &[u8]) -> Result<Form, LineEnd>
    ensures ok { IfOk result (λ f. sessions_form rest.now ≡ Some f) }
    ensures form { IfOk result IsForm }
    ensures err { IfErr result (λ e. Refuses e (sessions_form rest.now)) }
{
    let mut line = Cursor { rest };
    let number = line.next_number()?;
    line.close(Form::Sessions(number))
}

#[tactic(auto, unfolding(crate::specs::Line::steps_form), using(crate::proofs::Steps::refuses_first, crate::proofs::Steps::refuses_next, crate::proofs::Steps::gives_next))]
fn steps_form(rest: &[u8]) -> Result<Form, LineEnd>
    ensures ok { IfOk result (λ f. steps_form rest.now ≡ Some f) }
    ensures form { IfOk result IsForm }
    ensures err { IfErr result (λ e. Refuses e (steps_form rest.now)) }
{
    let mut line = Cursor { rest };
    let number = line.next_number()?;
    line.close(Form::Steps(number))
}

#[tactic(auto, unfolding(crate::specs::Line::region_form), using(crate::proofs::Steps::refuses_first, crate::proofs::Steps::refuses_next, crate::proofs::Steps::gives_next))]
fn region_form(rest: &[u8]) -> Result<Form, LineEnd>
    ensures ok { IfOk result (λ f. region_form rest.now ≡ Some f) }
    ensures form { IfOk result IsForm }
    ensures err { IfErr result (λ e. Refuses e (region_form rest.now)) }
{
    let mut line = Cursor { rest };
    let number = line.next_number()?;
    line.close(Form::Region(number))
}

#[tactic(auto, unfolding(crate::specs::Line::store_form), using(crate::proofs::Steps::refuses_first, crate::proofs::Steps::refuses_next, crate::proofs::Steps::gives_next))]
fn store_form(alloc: Global, rest: &[u8]) -> Result<Form, LineEnd>
    ensures ok { IfOk result (λ f. store_form rest.now ≡ Some f) }
    ensures form { IfOk result IsForm }
    ensures err { IfErr result (λ e. Refuses e (store_form rest.now)) }
{
    let mut line = Cursor { rest };
    let key = line.next_text(alloc)?;
    let text = line.next_text(alloc)?;
    line.close(Form::Store(key, text))
}

#[tactic(auto, unfolding(crate::specs::Line::event_form), using(crate::proofs::Steps::refuses_first, crate::proofs::Steps::refuses_next, crate::proofs::Steps::gives_next))]
fn event_form(alloc: Global, rest: &[u8]) -> Result<Form, LineEnd>
    ensures ok { IfOk result (λ f. event_form rest.now ≡ Some f) }
    ensures form { IfOk result IsForm }
    ensures err { IfErr result (λ e. Refuses e (event_form rest.now)) }
{
    let mut line = Cursor { rest };
    let session = line.next_number()?;
    let element = line.next_text(alloc)?;
    let text = line.next_text(alloc)?;
    line.close(Form::Event(session, element, text))
}

#[tactic(auto, unfolding(crate::specs::Line::raw_form), using(crate::proofs::Steps::refuses_first, crate::proofs::Steps::refuses_next, crate::proofs::Steps::gives_next))]
fn raw_form(alloc: Global, rest: &[u8]) -> Result<Form, LineEnd>
    ensures ok { IfOk result (λ f. raw_form rest.now ≡ Some f) }
    ensures form { IfOk result IsForm }
    ensures err { IfErr result (λ e. Refuses e (raw_form rest.now)) }
{
    let mut line = Cursor { rest };
    let session = line.next_number()?;
    let world = line.next_world()?;
    let item = line.next_item(alloc)?;
    line.close(Form::Raw(session, world, item))
}

#[tactic(auto, unfolding(crate::specs::Line::order_form), using(crate::proofs::Steps::refuses_first, crate::proofs::Steps::some_order, crate::proofs::Steps::no_order))]
fn order_form(alloc: Global, rest: &[u8]) -> Result<Form, LineEnd>
    ensures ok { IfOk result (λ f. order_form rest.now ≡ Some f) }
    ensures form { IfOk result IsForm }
    ensures err { IfErr result (λ e. Refuses e (order_form rest.now)) }
{
    let sites = sites(alloc, rest)?;
    if sites.count() == 0 {
        return Err(LineEnd::Syntax);
    }
    Ok(Form::Order(sites))
}

#[tactic(auto, unfolding(crate::specs::Line::keyword_of))]
fn keyword(word: &[u8]) -> Option<Keyword>
    ensures { result ≡ keyword_of word.now }
{
    if word == b"sessions".as_slice() {
        Some(Keyword::Sessions)
    } else if word == b"steps".as_slice() {
        Some(Keyword::Steps)
    } else if word == b"region".as_slice() {
        Some(Keyword::Region)
    } else if word == b"store".as_slice() {
        Some(Keyword::Store)
    } else if word == b"event".as_slice() {
        Some(Keyword::Event)
    } else if word == b"raw".as_slice() {
        Some(Keyword::Raw)
    } else if word == b"order".as_slice() {
        Some(Keyword::Order)
    } else {
        None
    }
}

fn form_after(alloc: Global, keyword: Keyword, rest: &[u8]) -> Result<Form, LineEnd>
    ensures ok { IfOk result (λ f. form_after keyword rest.now ≡ Some f) }
    ensures form { IfOk result IsForm }
    ensures err { IfErr result (λ e. Refuses e (form_after keyword rest.now)) }
{
    match keyword {
        Keyword::Sessions => sessions_form(rest),
        Keyword::Steps => steps_form(rest),
        Keyword::Region => region_form(rest),
        Keyword::Store => store_form(alloc, rest),
        Keyword::Event => event_form(alloc, rest),
        Keyword::Raw => raw_form(alloc, rest),
        Keyword::Order => order_form(alloc, rest),
    }
}

/// True at the end and at the sign that begins a remark.
fn is_remark(bytes: &[u8]) -> bool
    ensures { result ≡ is_remark bytes.now }
{
    match bytes {
        [] => true,
        [byte, ..] => *byte == b'#',
    }
}

/// What a line says.
#[tactic(auto, unfolding(crate::specs::Line::form_of))]
pub fn read_form(alloc: Global, line: &[u8]) -> Result<Form, LineEnd>
    ensures ok { IfOk result (λ f. form_of line.now ≡ Some f) }
    ensures form { IfOk result IsForm }
    ensures err { IfErr result (λ e. Refuses e (form_of line.now)) }
{
    if is_remark(skip(line)) {
        return Ok(Form::Skipped);
    }
    let (first, rest) = word(line);
    match keyword(first) {
        Some(keyword) => form_after(alloc, keyword, rest),
        None => Err(LineEnd::Syntax),
    }
}
