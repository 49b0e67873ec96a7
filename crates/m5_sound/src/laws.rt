//! The laws of typed runs, each on a function that does nothing.

ghost use Rattle.m5_sound.specs.Laws.{OpeningIsSound, OpeningIsTyped, RunsKeepTypes, AllStaysTyped, EachThreadGoesOn, NoSiteGoesWrong, SomethingCanHappen, PrimitivesAreAtTheirWorlds, TextsStayTexts, Stops, own_stops, NumbersStayRight, AnswersAreLawful};

/// No lawful answers lead a site of a program's opening to where the rules allow nothing.
pub fn opening_is_sound_holds()
    ensures { OpeningIsSound }
{}

/// A program's opening is typed.
pub fn opening_is_typed_holds()
    ensures { OpeningIsTyped }
{}

/// A run from a typed network leads to a typed one.
pub fn runs_keep_types_holds()
    ensures { RunsKeepTypes }
{}

/// Along each run of a program all threads, cells, handlers and link items are typed.
pub fn all_stays_typed_holds()
    ensures { AllStaysTyped }
{}

/// Along each run of a program each thread has a local step or an ask.
pub fn each_thread_goes_on_holds()
    ensures { EachThreadGoesOn }
{}

/// Along each run of a program no site is wrong.
pub fn no_site_goes_wrong_holds()
    ensures { NoSiteGoesWrong }
{}

/// After each run of a program each site is stopped, at rest, or can make a deed.
pub fn something_can_happen_holds()
    ensures { SomethingCanHappen }
{}

/// Along each run of a program each primitive is called at its world.
pub fn primitives_are_at_their_worlds_holds()
    ensures { PrimitivesAreAtTheirWorlds }
{}

/// Along each run of a program texts have only the bytes of texts.
pub fn texts_stay_texts_holds()
    ensures { TextsStayTexts }
{}

/// A condition of stops, whichever it is.
pub trait StopCondition {
    ghost licensed: { Stops };
}

/// Along each run of a program, whatever licenses its stops, the board names handlers that the sites have, and none twice.
pub fn numbers_stay_right_holds<C: StopCondition>()
    ensures { NumbersStayRight C.licensed }
{}

/// Along each run of a program, whatever licenses its stops, what the board answers to a site is lawful.
pub fn answers_are_lawful_holds<C: StopCondition>()
    ensures { AnswersAreLawful C.licensed }
{}

/// The stops that the script's numbers license.
pub struct OwnStops;

impl StopCondition for OwnStops {
    ghost licensed = { own_stops };
}

/// So it is with the stops that the script's numbers license.
pub fn own_stops_keep_numbers_holds()
    ensures numbers { NumbersStayRight own_stops }
    ensures answers { AnswersAreLawful own_stops }
{
    numbers_stay_right_holds::<OwnStops>();
    answers_are_lawful_holds::<OwnStops>();
}
