//! A site of an object.

ghost use Rattle.std.specs.Prelude.{◌≡◌, ◌≤◌, IfOk, IsSome, Some};
ghost use Rattle.m5_terms.specs.Worlds.{IsSiteWorld};
ghost use Rattle.m5_site.specs.declared.state.Wait.TheVariants as waits;
ghost use Rattle.m5_site.specs.Answers.{answered};
ghost use Rattle.m5_site.specs.Held.{IsSiteOf};
ghost use Rattle.m5_site.specs.Object.{code_of};
ghost use Rattle.m5_site.specs.Own.{IsOwnAsk};
ghost use Rattle.m5_site.specs.code.Sound.{IsSoundState, WaitFits};
ghost use Rattle.m5_site.specs.Site.{empty, opening, need_of, IsAsked, query};
ghost use Rattle.m5_site.specs.Stops.{ComesTo};

use crate::answers::{after_call, after_take};
use crate::asking::{called, sent};
use crate::computing::{computed, need_of};
use crate::making::{begin, new_array};
use crate::object::Object;
use crate::state::{Limits, Need, State, Wait};
use m5_region::bench::Bench;
use m5_region::cells::Cells;
use m5_region::value::Value;
use m5_terms::ask::{Answer, Ask, AskOf};
use m5_terms::types::World;
use std::alloc::{AllocError, Global};
use std::marker::Model;

/// A site of a session at a world: what it has, and what it waits for.
#[derive(Drop)]
pub struct Site {
    of_session: u32,
    at_world: World,
    has: State,
    waits_for: Wait,
}

impl Model for Site {
    ghost use Rattle.m5_site.specs.Held.{Held};

    ghost Value = { Held };

    ghost view = { λ s. record { session = s.of_session; world = s.at_world; state = s.has; wait = s.waits_for } };
}

/// A site with nothing yet, and all its room reserved.
fn empty(alloc: Global, limits: Limits) -> Result<State, AllocError>
    requires { limits.region ≤ 262144 }
    ensures { IfOk result (λ state. state ≡ empty limits) }
{
    let bench = Bench::make(alloc, 4 * limits.region + 64, limits.steps)?;
    let handlers = Cells::make(alloc)?;
    Ok(State {
        bench,
        handlers,
        due: None,
        stopped: false,
    })
}

/// Begins the first thread of a home.
fn open(state: &mut State, object: &Object, world: World, limits: Limits)
    requires empty { state.old ≡ empty limits }
    requires world { IsSiteWorld world }
    ensures { state.new ≡ opening object.now limits world }
{
    match world {
        World::Home => {
            if let Some(code) = new_array(state, &[Value::Int(object.start() as i64)]) {
                begin(state, code, Value::Null);
            }
        }
        _ => {}
    }
}

/// What an answer makes of a site that waits.
fn after(
    state: &mut State,
    object: &Object,
    world: World,
    session: u32,
    wait: Wait,
    answer: &Answer,
)
    requires world { IsSiteWorld world }
    requires kind { IsSome (answered object.now session world state.old wait answer.now) }
    requires sound { IsSoundState (code_of object.now world) state.old }
    requires fits { WaitFits object.now (code_of object.now world) state.old wait }
    ensures is { answered object.now session world state.old wait answer.now ≡ Some state.new }
    ensures sound { IsSoundState (code_of object.now world) state.new }
{
    match wait {
        Wait::Call(primitive, _, next) => after_call(state, primitive, next, answer),
        Wait::Take => after_take(state, object, world, session, answer),
        Wait::Stop(_) => state.stopped = true,
        _ => {}
    }
}

impl Site {
    /// The site of a session at a world as it opens, with all its room reserved: 4 units for each of
    /// the number of region and 64 more, and 4,096 threads, cells and handlers. A home has one thread,
    /// which enters the label `start`.
    pub fn make(
        alloc: Global,
        object: &Object,
        session: u32,
        world: World,
        limits: Limits,
    ) -> Result<Site, AllocError>
        requires region { limits.region ≤ 262144 }
        requires world { IsSiteWorld world }
        ensures is { IfOk result (λ site. site ≡ record { session = session; world = world; state = opening object.now limits world; wait = waits.Nothing }) }
        ensures of { IfOk result (λ site. IsSiteOf object.now site) }
    {
        object.is_object();
        let mut has = empty(alloc, limits)?;
        open(&mut has, object, world, limits);
        Ok(Site {
            of_session: session,
            at_world: world,
            has,
            waits_for: Wait::Nothing,
        })
    }

    /// The session that it was made for.
    pub fn session(&self) -> u32
        ensures { result ≡ self.now.session }
    {
        self.of_session
    }

    /// The world that it was made for.
    pub fn world(&self) -> World
        ensures { result ≡ self.now.world }
    {
        self.at_world
    }

    /// Runs the site's threads up to what it needs then: an answer to what `ask` tells; something new,
    /// where it has no thread and no stop is due; to be stopped, where a block is to be entered and no
    /// step is left, where an object, a cell, a thread or a handler does not fit, or where one of the
    /// last answer did not; or nothing, where a block does what has no meaning. It takes memory at a
    /// send alone, and after an `Err` the site is not used again.
    pub fn compute(&mut self, alloc: Global, object: &Object) -> Result<Need, AllocError>
        requires of { IsSiteOf object.now self.old }
        requires computing { self.old.wait ≡ waits.Nothing }
        ensures comes { IfOk result (λ need. ComesTo object.now self.old.session self.old.world self.old.state self.new.wait self.new.state) }
        ensures need { IfOk result (λ need. need ≡ need_of self.new.wait) }
        ensures of { IfOk result (λ need. IsSiteOf object.now self.new) }
        ensures session { self.new.session ≡ self.old.session }
        ensures world { self.new.world ≡ self.old.world }
    {
        object.is_object();
        let wait = computed(alloc, object, self.at_world, &mut self.has)?;
        self.waits_for = wait;
        Ok(need_of(wait))
    }

    /// What the site asks, where `compute` answered that it asks: a call of a primitive of its own
    /// world, or a send of the bytes of its thread, with the session's seal, to another world.
    pub fn ask(&self, alloc: Global, object: &Object) -> Result<Ask, AllocError>
        requires of { IsSiteOf object.now self.now }
        requires asked { IsAsked self.now.wait }
        ensures query { IfOk result (λ ask. ask ≡ query object.now self.now.session self.now.state self.now.wait) }
        ensures own { IfOk result (λ ask. IsOwnAsk self.now.session self.now.world ask) }
    {
        let state = &self.has;
        match self.waits_for {
            Wait::Call(primitive, argument, _) => {
                let handlers = state.handlers.len();
                called(alloc, &state.bench.region, handlers, primitive, argument)
            }
            Wait::Send(world, thread) => sent(alloc, object, self.of_session, state, world, thread),
            Wait::Nothing | Wait::Take | Wait::Wrong(_) => Ok(AskOf::Take),
            Wait::Stop(cause) => Ok(AskOf::Stop(cause)),
        }
    }

    /// What an answer makes of the site, which computes from then on. It takes no memory. Bytes that
    /// are no message of the session change nothing. Where an object or a thread of the answer does not
    /// fit, the site is to stop for the first that does not.
    pub fn answered(&mut self, object: &Object, answer: &Answer)
        requires of { IsSiteOf object.now self.old }
        requires kind { IsSome (answered object.now self.old.session self.old.world self.old.state self.old.wait answer.now) }
        ensures is { answered object.now self.old.session self.old.world self.old.state self.old.wait answer.now ≡ Some self.new.state }
        ensures computing { self.new.wait ≡ waits.Nothing }
        ensures of { IsSiteOf object.now self.new }
        ensures session { self.new.session ≡ self.old.session }
        ensures world { self.new.world ≡ self.old.world }
    {
        let wait = self.waits_for;
        after(
            &mut self.has,
            object,
            self.at_world,
            self.of_session,
            wait,
            answer,
        );
        self.waits_for = Wait::Nothing;
    }
}
