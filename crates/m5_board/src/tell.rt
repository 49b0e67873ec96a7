//! A write's triggers: one for each watcher of the key, or none where memory is wanting.

ghost use Rattle.std.specs.Prelude.{◌≡◌, ℕ, List, [], ◌∷◌, All, length, IfOk, OnOk, OnErr};
ghost use Rattle.m5_keys.specs.declared.watch.Watcher.{Watcher as WatcherOf};
ghost use Rattle.m5_network.specs.Board.{Desk as DeskOf};
ghost use Rattle.m5_network.specs.Board as network;
ghost use Rattle.m5_board.specs.Boards.{desk_at, IsSession};
ghost use Rattle.m5_board.specs.Answers.{told};

use crate::desk::Desk;
use crate::desks::{fire, unfire};
use m5_keys::keys::Keys;
use m5_keys::watch::{Trigger, Watcher};
use m5_terms::text::Text;
use std::alloc::{AllocError, Global};

/// What is told to a watcher.
fn trigger_of(
    alloc: Global,
    watcher: &Watcher,
    key: &Text,
    text: &Text,
) -> Result<Trigger, AllocError>
    ensures { IfOk result (λ t. t ≡ record { key = key.now; number = watcher.now.number; text = text.now }) }
{
    let key = key.copy(alloc)?;
    let text = text.copy(alloc)?;
    Ok(Trigger {
        key,
        number: watcher.number,
        text,
    })
}

fn post_one<I>(
    alloc: Global,
    desks: &mut Vec<Desk<I>>,
    watcher: &Watcher,
    key: &Text,
    text: &Text,
) -> Result<(), AllocError>
    requires { IsSession watcher.now.session desks.old.items }
    ensures desks { OnOk result (desk_at desks.new.items ≡ told key.now text.now (watcher.now ∷ []) (desk_at desks.old.items)) }
    ensures count { length desks.new.items ≡ length desks.old.items }
    ensures err { OnErr result (desks.new.items ≡ desks.old.items) }
{
    let trigger = trigger_of(alloc, watcher, key, text)?;
    fire(desks, watcher.session, trigger)
}

/// Takes off what was added last for these watchers.
fn unpost<I>(desks: &mut Vec<Desk<I>>, watchers: &[Watcher])
    requires { All (λ (w : WatcherOf). IsSession w.session desks.old.items) watchers.now }
    ensures restored { (key text : List ℕ) (before : List (DeskOf I)) → length before ≡ length desks.old.items → desk_at desks.old.items ≡ told key text watchers.now (desk_at before) → desks.new.items ≡ before }
    ensures count { length desks.new.items ≡ length desks.old.items }
{
    let mut left = watchers.len();
    while left > 0 {
        left -= 1;
        unfire(desks, watchers[left].session);
    }
}

/// Adds a trigger for each watcher, in order. Where memory is wanting, the desks stay as they were.
fn post<I>(
    alloc: Global,
    desks: &mut Vec<Desk<I>>,
    watchers: &[Watcher],
    key: &Text,
    text: &Text,
) -> Result<(), AllocError>
    requires { All (λ (w : WatcherOf). IsSession w.session desks.old.items) watchers.now }
    ensures desks { OnOk result (desk_at desks.new.items ≡ told key.now text.now watchers.now (desk_at desks.old.items)) }
    ensures count { length desks.new.items ≡ length desks.old.items }
    ensures err { OnErr result (desks.new.items ≡ desks.old.items) }
{
    for index in 0..watchers.len() {
        match post_one(alloc, desks, &watchers[index], key, text) {
            Ok(()) => {}
            Err(error) => {
                unpost(desks, &watchers[..index]);
                return Err(error);
            }
        }
    }
    Ok(())
}

/// Writes the text of a key, of which these are told. Where memory is wanting, the key store and the
/// desks stay as they were.
pub(crate) fn write_told<I>(
    alloc: Global,
    keys: &mut Keys,
    desks: &mut Vec<Desk<I>>,
    watchers: &[Watcher],
    key: Text,
    text: Text,
) -> Result<(), AllocError>
    requires { All (λ (w : WatcherOf). IsSession w.session desks.old.items) watchers.now }
    ensures desks { OnOk result (desk_at desks.new.items ≡ told key text watchers.now (desk_at desks.old.items)) }
    ensures keys { OnOk result (keys.new ≡ record keys.old { pairs = network.set_at keys.old.pairs key text }) }
    ensures count { length desks.new.items ≡ length desks.old.items }
    ensures err_desks { OnErr result (desks.new.items ≡ desks.old.items) }
    ensures err_keys { OnErr result (keys.new ≡ keys.old) }
{
    post(alloc, desks, watchers, &key, &text)?;
    match keys.write(key, text) {
        Ok(()) => Ok(()),
        Err(error) => {
            unpost(desks, watchers);
            Err(error)
        }
    }
}
