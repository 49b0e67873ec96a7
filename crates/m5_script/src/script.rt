//! A script, as read.

ghost use Rattle.std.specs.Prelude.{◌≡◌, IfOk};

use crate::items::{PageEvents, RawItems, Sites, TextPairs, copy_events, copy_pairs, copy_raws};
use std::alloc::{AllocError, Global};
use std::marker::Model;

/// How many sessions run, the numbers for every site, and what the board opens with. The lists are
/// in the order of the lines.
#[derive(Drop)]
pub struct Script {
    /// From 1 to 32.
    pub sessions: u32,
    /// How many steps every site may take.
    pub steps: u64,
    /// How many units the region of every site has.
    pub region: u64,
    pub pairs: TextPairs,
    pub events: PageEvents,
    pub raws: RawItems,
    /// The sites that have the first turns.
    pub order: Sites,
}

impl Model for Script {
    ghost use Rattle.m5_script.specs.Scenario.{Scenario, IsScript};

    ghost Value = { Scenario };

    ghost view = { λ s. record { sessions = s.sessions; steps = s.steps; region = s.region; pairs = s.pairs; events = s.events; raws = s.raws; order = s.order } };

    ghost invariant = { λ s. IsScript (record { sessions = s.sessions; steps = s.steps; region = s.region; pairs = s.pairs; events = s.events; raws = s.raws; order = s.order }) };
}

impl Script {
    /// The same script again, in memory of its own.
    pub fn copy(&self, alloc: Global) -> Result<Script, AllocError>
        ensures { IfOk result (λ s. s ≡ self.now) }
    {
        let pairs = copy_pairs(alloc, &self.pairs)?;
        let events = copy_events(alloc, &self.events)?;
        let raws = copy_raws(alloc, &self.raws)?;
        let order = self.order.copy(alloc)?;
        Ok(Script {
            sessions: self.sessions,
            steps: self.steps,
            region: self.region,
            pairs,
            events,
            raws,
            order,
        })
    }
}
