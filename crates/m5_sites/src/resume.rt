//! What an answer makes of a site that waits for it.

ghost use Rattle.std.specs.Prelude.{◌≡◌, ◌↔◌, IfOk, OnOk, IsTrue};
ghost use Rattle.m5_terms.specs.declared.ask.AnswerOf.TheVariants as answer;
ghost use Rattle.m5_source_site.specs.ClosedSite.{HasRoom};
ghost use Rattle.m5_source_site.specs.Waiting.{resumed};
ghost use Rattle.m5_sites.specs.Sites.{kept};

use m5_source_site::item::SiteAnswer;
use m5_source_site::measured::MeasuredProgram;
use m5_source_site::resume::Waiting;
use m5_source_site::site::Site;
use m5_terms::ask::AnswerOf;
use m5_terms::types::World;
use std::alloc::{AllocError, Global};

/// Memory is wanting where a site's numbers are too large to count on from, since no site that
/// memory holds comes so far.
pub fn check_room(site: &Site) -> Result<(), AllocError>
    ensures { OnOk result (HasRoom site.now) }
{
    const ROOM: u64 = 1 << 62;
    if site.steps() < ROOM && site.weight() < ROOM {
        Ok(())
    } else {
        Err(AllocError)
    }
}

/// Whether the board has nothing for the ask.
pub fn is_nothing(reply: &SiteAnswer) -> bool
    ensures { IsTrue result ↔ (reply.now ≡ answer.Nothing) }
{
    matches!(reply, AnswerOf::Nothing)
}

/// The site, unless it has stopped.
pub fn keep(site: Site) -> Option<Site>
    ensures { result ≡ kept site }
{
    if site.has_stopped() { None } else { Some(site) }
}

/// What the site does with the answer, if it is one to its ask.
pub fn resume(
    alloc: Global,
    program: &MeasuredProgram<'_>,
    here: World,
    waiting: Waiting,
    reply: SiteAnswer,
) -> Result<Option<Site>, AllocError>
    ensures { IfOk result (λ o. o ≡ resumed program.now here waiting.site waiting.wait reply) }
{
    check_room(&waiting.site)?;
    waiting.resume(alloc, program, here, reply)
}
