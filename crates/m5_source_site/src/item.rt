//! What goes along a link between sites of the source.

ghost use Rattle.std.specs.Prelude.{◌≡◌};
ghost use Rattle.m5_meaning.specs.Seals as seals;
ghost use Rattle.m5_meaning.specs.Site as item;
ghost use Rattle.m5_source_site.specs.Items.{item_of};

use crate::thread::SiteThread;
use m5_terms::ask::{AnswerOf, AskOf};
use m5_terms::item::Item;
use m5_terms::text::Text;
use std::marker::Model;

/// A thread, or bytes that no site sealed.
#[derive(Drop)]
pub enum SiteItem {
    Thread(SiteThread),
    Raw(Text),
}

/// A site's item, which contracts see as the definitions' item. It is a struct of its own since an
/// enum has no `Model`.
#[derive(Drop)]
pub struct LinkItem {
    held: SiteItem,
}

impl Model for LinkItem {
    ghost use Rattle.m5_meaning.specs.Site.{Item};
    ghost use Rattle.m5_source_site.specs.Items.{item_code};

    ghost Value = { Item };

    ghost coded = { item_code };

    ghost use Rattle.m5_source_site.specs.Items.{item_of};

    ghost view = { λ i. item_of i.held };
}

impl LinkItem {
    pub fn new(item: SiteItem) -> LinkItem
        ensures { result ≡ item_of item }
    {
        LinkItem { held: item }
    }

    /// The item of a thread that leaves.
    pub fn of_thread(thread: SiteThread) -> LinkItem
        ensures { result ≡ item.thread thread }
    {
        LinkItem::new(SiteItem::Thread(thread))
    }

    pub fn get(&self) -> &SiteItem
        ensures { item_of result.now ≡ self.now }
    {
        &self.held
    }

    pub fn into_item(self) -> SiteItem
        ensures { item_of result ≡ self }
    {
        let LinkItem { held } = self;
        held
    }
}

impl Item for LinkItem {
    ghost raw = { item.raw };

    ghost has_seal = { λ s i. seals.has_seal i };

    fn of_raw(bytes: Text) -> LinkItem {
        LinkItem::new(SiteItem::Raw(bytes))
    }

    fn is_sealed(&self, _session: u32) -> bool {
        match self.get() {
            SiteItem::Thread(_) => true,
            SiteItem::Raw(_) => false,
        }
    }
}

/// What a site of the source asks.
pub type SiteAsk = AskOf<LinkItem>;

/// What a site of the source is answered.
pub type SiteAnswer = AnswerOf<LinkItem>;
