//! One value for each world that has sites.

ghost use Rattle.std.specs.Prelude.{◌≡◌, IfOk};
ghost use Rattle.std.specs.Borrow.{sem};
ghost use Rattle.m5_terms.specs.declared.types.World.{World};
ghost use Rattle.m5_terms.specs.Worlds.{IsSiteWorld};
ghost use Rattle.m5_terms.specs.PerWorld.{at, with_at};
ghost use Rattle.m5_terms.specs.Lends.{lends_at};
ghost use Rattle.m5_terms.specs.PerWorldLaws.{ChangesOne, IsEach};

use crate::types::World;
use std::alloc::AllocError;

/// One value for each world that has sites, which contracts read by `at`.
#[derive(Drop)]
pub struct PerWorld<T> {
    home: T,
    server: T,
    panel: T,
}

impl<T> PerWorld<T> {
    pub fn get(&self, world: World) -> &T
        requires { IsSiteWorld world }
        ensures { result.now ≡ at self.now world }
    {
        match world {
            World::Home => &self.home,
            World::Server => &self.server,
            World::Panel => &self.panel,
            World::Any => unreachable!(),
        }
    }

    pub fn get_mut(&mut self, world: World) -> &mut T
        requires { IsSiteWorld world }
        ensures* rest { sem 𝓛 (lends_at T.row self.entry world result) }
        ensures value { result.now ≡ at self.old world }
    {
        match world {
            World::Home => &mut self.home,
            World::Server => &mut self.server,
            World::Panel => &mut self.panel,
            World::Any => unreachable!(),
        }
    }
}

impl<T: Drop> PerWorld<T> {
    /// What `make` gives at each of the worlds, in their order.
    pub fn of_each<F: Fn(World) -> Result<T, AllocError>>(
        make: F,
    ) -> Result<PerWorld<T>, AllocError>
        requires { F.IsAlwaysCallable make }
        ensures { IfOk result (λ p. (w : World) → IsSiteWorld w → F.post make w (Ok (at p w))) }
    {
        let home = make(World::Home)?;
        let server = make(World::Server)?;
        let panel = make(World::Panel)?;
        Ok(PerWorld {
            home,
            server,
            panel,
        })
    }

    pub fn set(&mut self, world: World, value: T)
        requires { IsSiteWorld world }
        ensures { self.new ≡ with_at world value self.old }
    {
        match world {
            World::Home => self.home = value,
            World::Server => self.server = value,
            World::Panel => self.panel = value,
            World::Any => unreachable!(),
        }
    }
}

/// A change at one world leaves the values at the others.
pub fn changes_one_holds<T>()
    ensures { ChangesOne T }
{}

/// The values at the worlds that have sites are all that there is.
pub fn is_each_holds<T>()
    ensures { IsEach T }
{}
