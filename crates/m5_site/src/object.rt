//! An object: what a program is compiled to.

ghost use Rattle.std.specs.Prelude.{◌≡◌, IfSome, IfNone};
ghost use Rattle.m5_site.specs.Object.{IsObject};

use crate::check::{is_code_at, takes_unit};
use m5_bytecode::code::Code;
use m5_dictionary::dicts::Dicts;
use m5_js::js::Js;
use m5_terms::types::World;
use std::marker::Model;

/// The dictionaries, the label with which each home begins and the one with which a handler ends,
/// and each world's code, which has a block for exactly the labels that stand at its world.
#[derive(Drop)]
pub struct Object {
    held_dicts: Dicts,
    first: u16,
    last: u16,
    of_server: Code,
    of_home: Js,
    of_panel: Js,
}

impl Model for Object {
    ghost use Rattle.m5_site.specs.Object.{Bundle, IsObject};

    ghost Value = { Bundle };

    ghost view = { λ o. record { dicts = o.held_dicts; start = o.first; finish = o.last; server = o.of_server; home = o.of_home; panel = o.of_panel } };

    ghost invariant = { λ o. IsObject (record { dicts = o.held_dicts; start = o.first; finish = o.last; server = o.of_server; home = o.of_home; panel = o.of_panel }) };
}

impl Object {
    /// The object of these parts, if they are those of some bundle: `start` stands at home and
    /// `finish` at each world, both take unit and nothing from outside, and each code has the labels
    /// of its world, asks its primitives alone and sends to other worlds.
    pub fn of(
        dicts: Dicts,
        start: u16,
        finish: u16,
        server: Code,
        home: Js,
        panel: Js,
    ) -> Option<Object>
        ensures found { IfSome result (λ o. o ≡ record { dicts = dicts; start = start; finish = finish; server = server; home = home; panel = panel }) }
        ensures none { IfNone result (IsObject (record { dicts = dicts; start = start; finish = finish; server = server; home = home; panel = panel }) → ⊥) }
    {
        dicts.are_dictionaries();
        if !takes_unit(&dicts, World::Home, start) {
            return None;
        }
        if !takes_unit(&dicts, World::Any, finish) {
            return None;
        }
        if !is_code_at(&dicts, World::Server, server.blocks()) {
            return None;
        }
        if !is_code_at(&dicts, World::Home, home.blocks()) {
            return None;
        }
        if !is_code_at(&dicts, World::Panel, panel.blocks()) {
            return None;
        }
        Some(Object {
            held_dicts: dicts,
            first: start,
            last: finish,
            of_server: server,
            of_home: home,
            of_panel: panel,
        })
    }

    /// What the type's invariant says. The call does nothing.
    pub fn is_object(&self)
        ensures { IsObject self.now }
    {
        let _ = &self.held_dicts;
    }

    pub fn dicts(&self) -> &Dicts
        ensures { result.now ≡ self.now.dicts }
    {
        &self.held_dicts
    }

    /// The label with which each home begins.
    pub fn start(&self) -> u16
        ensures { result ≡ self.now.start }
    {
        self.first
    }

    /// The label that a handler goes on with when it is done.
    pub fn finish(&self) -> u16
        ensures { result ≡ self.now.finish }
    {
        self.last
    }

    pub fn server(&self) -> &Code
        ensures { result.now ≡ self.now.server }
    {
        &self.of_server
    }

    pub fn home(&self) -> &Js
        ensures { result.now ≡ self.now.home }
    {
        &self.of_home
    }

    pub fn panel(&self) -> &Js
        ensures { result.now ≡ self.now.panel }
    {
        &self.of_panel
    }
}
