//! What was read of a script so far, and the faults of a line.

ghost use Rattle.std.specs.Prelude.{◌≡◌, take, OnOk};
ghost use Rattle.std.specs.List.{list_any, list_all};
ghost use Rattle.m5_script.specs.Scenario.{is_sealed, same_key};
ghost use Rattle.m5_script.specs.Reading.{within, names_session, is_late, is_again, is_beyond, is_forged, is_many, fault_of, next, fresh, finished, IsReading};

use crate::form::Form;
use crate::items::{
    PageEvent, PageEvents, RawItem, RawItems, SiteName, Sites, TextPair, TextPairs,
};
use crate::script::Script;
use m5_terms::seal::seal_of;
use std::alloc::{AllocError, Global};

/// What is wrong with a line; of several kinds the first in this order is named.
#[derive(Clone, Copy, Debug, PartialEq, Eq)]
pub enum LineKind {
    /// It is of no form.
    Syntax,
    /// `sessions` after another line.
    Late,
    /// A second `steps`, `region` or `order`, or a key stored twice.
    Again,
    /// A number past its limit, a session that is not there, or a raw item of more than 4,096 bytes.
    Range,
    /// A raw item that begins with its session's seal.
    Sealed,
    /// More pairs, events, raw items or sites than there is room for.
    Many,
}

/// What the lines so far say.
#[derive(Drop)]
pub(crate) struct Reading {
    /// Whether a line has come that is not skipped.
    begun: bool,
    sessions: u32,
    steps: Option<u32>,
    region: Option<u32>,
    pairs: TextPairs,
    events: PageEvents,
    raws: RawItems,
    order: Sites,
}

fn is_within(limit: u32, number: u32) -> bool
    ensures { result ≡ within limit number }
{
    1 <= number && number <= limit
}

/// The first eight bytes, or all where there are fewer.
#[tactic(auto, using(crate::proofs::Rules::take_short))]
fn head(bytes: &[u8]) -> &[u8]
    ensures { result.now ≡ take 8 bytes.now }
{
    if bytes.len() < 8 {
        bytes
    } else {
        bytes.split_at(8).0
    }
}

fn begins_sealed(session: u32, bytes: &[u8]) -> bool
    ensures { result ≡ is_sealed session bytes.now }
{
    let seal = seal_of(session);
    head(bytes) == seal.0.as_slice()
}

/// Whether a pair has this key.
fn is_stored(pairs: &[TextPair], key: &[u8]) -> bool
    ensures { result ≡ list_any (same_key key.now) pairs.now }
{
    pairs.iter().any(|pair| pair.key.bytes() == key)
}

/// Whether the sites' sessions are all there.
fn are_there(sessions: u32, sites: &[SiteName]) -> bool
    ensures { result ≡ list_all (names_session sessions) sites.now }
{
    sites.iter().all(|site| is_within(sessions, site.session))
}

impl Reading {
    /// Before the first line.
    pub(crate) fn start(alloc: Global) -> Reading
        ensures { result ≡ fresh }
    {
        Reading {
            begun: false,
            sessions: 1,
            steps: None,
            region: None,
            pairs: TextPairs::make(alloc),
            events: PageEvents::make(alloc),
            raws: RawItems::make(alloc),
            order: Sites::make(alloc),
        }
    }

    fn is_late(&self, form: &Form) -> bool
        ensures { result ≡ is_late self.now form.now }
    {
        matches!(form, Form::Sessions(_)) && self.begun
    }

    fn is_again(&self, form: &Form) -> bool
        ensures { result ≡ is_again self.now form.now }
    {
        match form {
            Form::Steps(_) => self.steps.is_some(),
            Form::Region(_) => self.region.is_some(),
            Form::Store(key, _) => is_stored(self.pairs.as_slice(), key.bytes()),
            Form::Order(_) => self.order.count() > 0,
            _ => false,
        }
    }

    fn is_beyond(&self, form: &Form) -> bool
        ensures { result ≡ is_beyond self.now form.now }
    {
        match form {
            Form::Sessions(number) => !is_within(32, *number),
            Form::Steps(number) => !is_within(200_000, *number),
            Form::Region(number) => !is_within(262_144, *number),
            Form::Event(session, _, _) => !is_within(self.sessions, *session),
            Form::Raw(session, _, item) => {
                !is_within(self.sessions, *session) || item.bytes().len() > 4_096
            }
            Form::Order(sites) => !are_there(self.sessions, sites.as_slice()),
            _ => false,
        }
    }

    fn is_many(&self, form: &Form) -> bool
        ensures { result ≡ is_many self.now form.now }
    {
        match form {
            Form::Store(_, _) => self.pairs.count() >= 1_024,
            Form::Event(_, _, _) => self.events.count() >= 4_096,
            Form::Raw(_, _, _) => self.raws.count() >= 1_024,
            Form::Order(sites) => sites.count() > 4_096,
            _ => false,
        }
    }

    /// What is wrong with the next line.
    #[tactic(auto, unfolding(crate::specs::Reading::fault_of))]
    pub(crate) fn fault(&self, form: &Form) -> Option<LineKind>
        ensures { result ≡ fault_of self.now form.now }
    {
        if self.is_late(form) {
            Some(LineKind::Late)
        } else if self.is_again(form) {
            Some(LineKind::Again)
        } else if self.is_beyond(form) {
            Some(LineKind::Range)
        } else if is_forged(form) {
            Some(LineKind::Sealed)
        } else if self.is_many(form) {
            Some(LineKind::Many)
        } else {
            None
        }
    }

    /// Takes the next line. Where memory is wanting, a part of it may be taken.
    #[tactic(auto, unfolding(crate::specs::Reading::next))]
    pub(crate) fn take(&mut self, form: Form) -> Result<(), AllocError>
        ensures { OnOk result (self.new ≡ next self.old form) }
    {
        match form {
            Form::Skipped => return Ok(()),
            Form::Sessions(number) => self.sessions = number,
            Form::Steps(number) => self.steps = Some(number),
            Form::Region(number) => self.region = Some(number),
            Form::Store(key, text) => self.pairs.push(TextPair { key, text })?,
            Form::Event(session, element, text) => {
                self.events.push(PageEvent {
                    session,
                    element,
                    text,
                })?
            }
            Form::Raw(session, world, bytes) => {
                self.raws.push(RawItem {
                    session,
                    world,
                    bytes,
                })?
            }
            Form::Order(sites) => self.order = sites,
        }
        self.begun = true;
        Ok(())
    }

    /// The script that the lines say.
    #[tactic(auto, using(crate::proofs::Rules::script_holds))]
    pub(crate) fn finish(self) -> Script
        requires { IsReading self }
        ensures { result ≡ finished self }
    {
        Script {
            sessions: self.sessions,
            steps: u64::from(self.steps.unwrap_or(50_000)),
            region: u64::from(self.region.unwrap_or(65_536)),
            pairs: self.pairs,
            events: self.events,
            raws: self.raws,
            order: self.order,
        }
    }
}

fn is_forged(form: &Form) -> bool
    ensures { result ≡ is_forged form.now }
{
    match form {
        Form::Raw(session, _, item) => begins_sealed(*session, item.bytes()),
        _ => false,
    }
}
