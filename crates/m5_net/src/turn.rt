//! One turn of a site.

ghost use Rattle.std.specs.Prelude.{◌≡◌, ◌↔◌, false, length, IfOk, IsTrue};
ghost use Rattle.m5_terms.specs.declared.ask.AnswerOf.TheVariants as answer;
ghost use Rattle.m5_board.specs.Boards.{board_of, IsSession};
ghost use Rattle.m5_site.specs.declared.state.Limits.{Limits};
ghost use Rattle.m5_site.specs.declared.state.Wait.TheVariants as waits;
ghost use Rattle.m5_site.specs.Held.{IsSiteOf};
ghost use Rattle.m5_site.specs.Site.{query};
ghost use Rattle.m5_net.specs.Turning.{Net, IsAhead, IsReadyTurned, IsTurned, IsGoing, IsAskTurned};

use m5_shared::shared::Shared;
use m5_site::object::Object;
use m5_site::site::Site;
use m5_site::state::Need;
use m5_terms::ask::{Answer, AnswerOf, Ask, AskOf};
use std::alloc::{AllocError, Global};

/// A deed, with the site after it unless it has stopped; nothing found, with the site that goes on;
/// or the label of a block that does what has no meaning.
#[derive(Drop)]
pub enum Turned {
    Acts(Option<Site>),
    Rests(Site),
    Wrong(u16),
}

/// Whether there was nothing for a look.
fn is_nothing(reply: &Answer) -> bool
    ensures { IsTrue result ↔ (reply.now ≡ answer.Nothing) }
{
    matches!(reply, AnswerOf::Nothing)
}

/// The turn of a site that waits for an answer.
fn answer_turn(
    alloc: Global,
    object: &Object,
    shared: &mut Shared,
    site: Site,
    ask: Ask,
) -> Result<Turned, AllocError>
    requires of { IsSiteOf object.now site }
    requires going { IsGoing site.wait }
    requires ask { ask ≡ query object.now site.session site.state site.wait }
    requires session { IsSession site.session shared.old.board.desks }
    ensures turned { IfOk result (IsAskTurned object.now site shared.old shared.new) }
    ensures count { length shared.new.board.desks ≡ length shared.old.board.desks }
{
    let mut site = site;
    let reply = shared.act(alloc, site.session(), site.world(), ask)?;
    site.answered(object, &reply);
    if is_nothing(&reply) {
        Ok(Turned::Rests(site))
    } else {
        Ok(Turned::Acts(Some(site)))
    }
}

/// One turn of a site: it computes up to its next ask, which the board answers. The site may be ahead
/// of the network's by local steps.
pub fn turn(
    alloc: Global,
    object: &Object,
    shared: &mut Shared,
    site: Site,
) -> Result<Turned, AllocError>
    requires of { IsSiteOf object.now site }
    requires computing { site.wait ≡ waits.Nothing }
    requires session { IsSession site.session shared.old.board.desks }
    ensures ready { IfOk result (IsReadyTurned object.now site.session site.world) }
    ensures turned { (n : Limits) (N : Net object.now n) → (N.site site.session site.world).stopped ≡ false → board_of shared.old.board ≡ N.board → IsAhead object.now site.session site.world (N.site site.session site.world) site → IfOk result (IsTurned object.now n N site.session site.world shared.old shared.new) }
    ensures count { length shared.new.board.desks ≡ length shared.old.board.desks }
{
    let mut site = site;
    match site.compute(alloc, object)? {
        Need::Ask => {
            let ask = site.ask(alloc, object)?;
            answer_turn(alloc, object, shared, site, ask)
        }
        Need::Take => answer_turn(alloc, object, shared, site, AskOf::Take),
        Need::Stop(cause) => {
            let _done = shared.act(alloc, site.session(), site.world(), AskOf::Stop(cause))?;
            Ok(Turned::Acts(None))
        }
        Need::Wrong(label) => Ok(Turned::Wrong(label)),
    }
}
