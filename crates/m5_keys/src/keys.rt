//! The key store.

ghost use Rattle.std.specs.Prelude.{◌≡◌, ℕ, List, [], ◌∷◌, ◌++◌, IfOk, OnOk, OnErr};
ghost use Rattle.std.specs.Option.{option_map};
ghost use Rattle.m5_script.specs.Pairs.{text_at, set_at};
ghost use Rattle.m5_keys.specs.Keys.{watchers_of};

use crate::watch::{Watch, Watcher, Watchers};
use indexmap::IndexMap;
use m5_terms::listed::Listed;
use m5_terms::text::Text;
use std::alloc::{AllocError, Global};
use std::marker::Model;

/// A text for each key that has one, found without a walk, and the watches in the order of their
/// registration.
#[derive(Drop)]
pub struct Keys {
    texts: IndexMap<Vec<u8>, Text>,
    watches: Listed<Watch>,
}

impl Model for Keys {
    ghost use Rattle.m5_keys.specs.Keys.{KeyStore};
    ghost use Rattle.m5_keys.specs.Views.{pairs_of};

    ghost Value = { KeyStore };

    ghost view = { λ k. record { pairs = pairs_of k.texts.entries; watches = k.watches } };
}

impl Keys {
    /// No text, and no watch.
    pub fn make(alloc: Global) -> Keys
        ensures { result ≡ record { pairs = []; watches = [] } }
    {
        Keys {
            texts: IndexMap::new(alloc),
            watches: Listed::make(alloc),
        }
    }

    /// The text of a key, if it has one.
    pub fn read(&self, key: &[u8]) -> Option<&[u8]>
        ensures { option_map (λ t. t.now) result ≡ text_at self.now.pairs key.now }
    {
        match self.texts.get(key) {
            Some(text) => Some(text.bytes()),
            None => None,
        }
    }

    /// Sets the text of a key: in its pair's place, or in a new pair behind the others. Where memory
    /// is wanting, the store stays as it was.
    pub fn write(&mut self, key: Text, text: Text) -> Result<(), AllocError>
        ensures ok { OnOk result (self.new ≡ record self.old { pairs = set_at self.old.pairs key text }) }
        ensures err { OnErr result (self.new ≡ self.old) }
    {
        self.texts.insert(key.into_bytes(), text)?;
        Ok(())
    }

    /// Adds a watch behind the others. Where memory is wanting, the store stays as it was.
    pub fn watch(&mut self, key: Text, who: Watcher) -> Result<(), AllocError>
        ensures ok { OnOk result (self.new ≡ record self.old { watches = self.old.watches ++ record { key = key; session = who.session; number = who.number } ∷ [] }) }
        ensures err { OnErr result (self.new ≡ self.old) }
    {
        let Watcher { session, number } = who;
        self.watches.push(Watch {
            key,
            session,
            number,
        })
    }

    /// Who watches a key, in the order of registration.
    pub fn watchers(&self, alloc: Global, key: &[u8]) -> Result<Watchers, AllocError>
        ensures { IfOk result (λ ws. ws ≡ watchers_of self.now.watches key.now) }
    {
        watchers_among(alloc, self.watches.as_slice(), key)
    }
}

/// Who watches a key by one of these watches.
fn watchers_among(alloc: Global, watches: &[Watch], key: &[u8]) -> Result<Watchers, AllocError>
    ensures { IfOk result (λ ws. ws ≡ watchers_of watches.now key.now) }
{
    let mut watchers: Watchers = Listed::make(alloc);
    for watch in watches {
        if watch.key.bytes() == key {
            watchers.push(Watcher {
                session: watch.session,
                number: watch.number,
            })?;
        }
    }
    Ok(watchers)
}
