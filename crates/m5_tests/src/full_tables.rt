//! Sites that fill their table of threads, of cells or of handlers, and then ask to stop: more steps than the job `ref` has.

ghost use Rattle.std.specs.Prelude.{◌≡◌, IfOk, IfSome, Some};
ghost use Rattle.m5_terms.specs.declared.ask.AnswerOf.TheVariants.{Done};
ghost use Rattle.m5_terms.specs.declared.types.World.TheVariants.{Home};
ghost use Rattle.m5_meaning.specs.Site.{Site as SiteOf};
ghost use Rattle.m5_source_site.specs.ClosedSite.{IsClosedSite};
ghost use Rattle.m5_source_site.specs.Waiting.{resumed};

use m5_front::program::read_program;
use m5_source_site::item::SiteAsk;
use m5_source_site::measured::MeasuredProgram;
use m5_source_site::next::{Next, next_step};
use m5_source_site::resume::Waiting;
use m5_source_site::site::Site;
use m5_source_site::thread::SiteThread;
use m5_terms::ask::{AnswerOf, AskOf, Cause};
use m5_terms::queue::Queue;
use m5_terms::thread::Focus;
use m5_terms::types::World;
use std::alloc::{AllocError, Global};
use std::test::Fail;

/// A program without end, and how many handlers it registers and how many steps it has made where the table is full. The
/// thread that runs is one of 4,096. A turn of the loops takes 8, 10 and 16 steps, and what comes before the first one 5.
const CASES: [(&[u8], u32, u64); 3] = [
    (
        b"fun ~l (u : unit) : unit = let do spawn () in l u end\nmain = l ()",
        0,
        5 + 4_095 * 8 + 1,
    ),
    (
        b"fun ~l (u : unit) : unit = let val c = ref u in l u end\nmain = l ()",
        0,
        5 + 4_096 * 10 + 3,
    ),
    (
        b"extern val on : string * (string -> unit) -> unit @ home\n\
        fun l @ home (u : unit) : unit = let do on (\"e\", fn (s : string) => ()) in l u end\nmain = l ()",
        4_096,
        5 + 4_096 * 16 + 9,
    ),
];

/// What an ask is to this test.
#[derive(Clone, Copy)]
enum Kind {
    Registers,
    Fills,
    Differs,
}

fn kind_of(query: SiteAsk) -> Kind {
    match query {
        AskOf::On(_, _) => Kind::Registers,
        AskOf::Stop(Cause::Table) => Kind::Fills,
        _ => Kind::Differs,
    }
}

/// The site after the board has done what it asked; none where its numbers are large.
fn answered(
    alloc: Global,
    program: &MeasuredProgram<'_>,
    waiting: Waiting,
) -> Result<Option<Site>, AllocError>
    requires { (t : SiteOf) → resumed program.now Home waiting.site waiting.wait Done ≡ Some t → IsClosedSite t }
    ensures { IfOk result (λ o. IfSome o IsClosedSite) }
{
    if 1_000_000 <= waiting.site.steps() || 1_000_000_000 <= waiting.site.weight() {
        return Ok(None);
    }
    waiting.resume(alloc, program, World::Home, AnswerOf::Done)
}

/// How many handlers a site of home registers, and its steps where it asks to stop for a full table; none where it comes
/// to another end.
fn filled(
    alloc: Global,
    program: &MeasuredProgram<'_>,
    opening: Site,
) -> Result<Option<(u32, u64)>, AllocError>
    requires { IsClosedSite opening }
{
    let mut site = opening;
    let mut registered: u32 = 0;
    'steps: for _ in 0..100_000u32 {
        if 1_000_000 <= site.steps() || 1_000_000_000 <= site.weight() {
            return Ok(None);
        }
        match next_step(alloc, program, World::Home, site)? {
            Next::Goes(next) => site = next,
            Next::Asks(query, waiting) => match kind_of(query) {
                Kind::Registers => {
                    registered = registered.saturating_add(1);
                    match answered(alloc, program, waiting)? {
                        Some(next) => site = next,
                        None => return Ok(None),
                    }
                }
                Kind::Fills => return Ok(Some((registered, waiting.site.steps()))),
                Kind::Differs => return Ok(None),
            },
            Next::Wrong => return Ok(None),
        }
    }
    Ok(None)
}

/// The site of home as a program opens it.
fn opened(alloc: Global, program: &MeasuredProgram<'_>) -> Result<Site, AllocError>
    ensures { IfOk result IsClosedSite }
{
    program.closed_holds();
    let focus = Focus::Eval(World::Home, program.main().copy(alloc)?);
    let mut threads = Queue::make(alloc);
    threads.push_back(SiteThread::new(Queue::make(alloc), focus))?;
    Ok(Site::opening(alloc, threads))
}

#[test]
fn end_in_a_stop(rt: HostRuntime) -> Result<(), Fail> {
    let alloc = rt.alloc();
    for (text, registered, steps) in CASES {
        if text.len() > 1_000 {
            return Err("long".into());
        }
        let Ok(accepted) = read_program(alloc, text) else {
            return Err("refused".into());
        };
        let program = MeasuredProgram::of(&accepted.program);
        let site = opened(alloc, &program)?;
        assert_eq!(rt; filled(alloc, &program, site)?, Some((registered, steps)));
    }
    Ok(())
}
