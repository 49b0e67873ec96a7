//! The laws of runs, each on a function that does nothing.

ghost use Rattle.m5_meaning.specs.Site.{Program};
ghost use Rattle.m5_script.specs.Scenario.{Scenario};
ghost use Rattle.m5_network.specs.Idle.{idle};
ghost use Rattle.m5_network.specs.Kinds.{Kind};
ghost use Rattle.m5_network.specs.Laws.{PrefixIsRun, PlacesDetermine, RunsCompose, StopsApart, TurnsAreRuns, RoundsAreRuns, PlainOrderIsRun};
ghost use Rattle.m5_network.specs.Run.{source};

/// The sites of some network, by what they are.
pub trait HasKind {
    ghost kind: { Kind };
}

/// The first places of a run are a run, and so are the others from where it ends.
pub fn prefix_is_run_holds<S: HasKind>()
    ensures { PrefixIsRun S.kind }
{}

/// The places determine the deeds and the last network.
pub fn places_determine_holds<S: HasKind>()
    ensures { PlacesDetermine S.kind }
{}

/// A run may go on from where another one ends.
pub fn runs_compose_holds<S: HasKind>()
    ensures { RunsCompose S.kind }
{}

/// Turns of a run's sites, and rounds of turns, are runs by the places that their deeds show.
pub fn turns_are_runs_holds<S: HasKind>()
    ensures turns { TurnsAreRuns S.kind }
    ensures rounds { RoundsAreRuns S.kind }
{}

/// The plain order is a run by the places that its deeds show, and ends at rest.
pub fn plain_order_is_run_holds<S: HasKind>()
    ensures { PlainOrderIsRun S.kind }
{}

/// All this holds of a program's sites.
pub fn program_runs_hold()
    ensures prefix { (P : Program) (S : Scenario) → PrefixIsRun (source P S) }
    ensures determine { (P : Program) (S : Scenario) → PlacesDetermine (source P S) }
    ensures compose { (P : Program) (S : Scenario) → RunsCompose (source P S) }
    ensures stops { (P : Program) (S : Scenario) → StopsApart (source P S) }
    ensures plain { (P : Program) (S : Scenario) → PlainOrderIsRun (source P S) }
{}

/// Sites that only look for something new.
pub struct Idle;

impl HasKind for Idle {
    ghost kind = { idle };
}

/// All this holds of idle sites, by the laws over any kind.
pub fn idle_runs_hold()
    ensures prefix { PrefixIsRun idle }
    ensures determine { PlacesDetermine idle }
    ensures compose { RunsCompose idle }
    ensures turns { TurnsAreRuns idle }
    ensures plain { PlainOrderIsRun idle }
{
    prefix_is_run_holds::<Idle>();
    places_determine_holds::<Idle>();
    runs_compose_holds::<Idle>();
    turns_are_runs_holds::<Idle>();
    plain_order_is_run_holds::<Idle>();
}
