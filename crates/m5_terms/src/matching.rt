//! The laws of passes whose output goes on as their input does, each on a function that does nothing.

ghost use Rattle.m5_terms.specs.Laws.{PlaysFromEach, SoundIsPlayedFully, BothMatch, BothMeet, States, Items, ItemPassesMatch};
ghost use Rattle.m5_terms.specs.Machine.{Machine};
ghost use Rattle.m5_terms.specs.Matching.{Reading, Matches, Moments, Meeting, AreMet};
ghost use Rattle.m5_terms.specs.Related.{Asking};

/// A pass between two machines: what its output is read back to, which moments of the input those of its output meet, and that
/// it owes nothing at any state.
pub trait Pass {
    ghost input: { Machine };

    ghost output: { Machine };

    ghost reading: { Reading input output };

    ghost input_moments: { Moments input };

    ghost output_moments: { Moments output };

    ghost meeting: { Meeting input output input_moments output_moments };

    ghost matches: { Matches input output reading };

    ghost met: { AreMet input output reading input_moments output_moments meeting };
}

/// Two passes, one after the other.
pub trait TwoPasses {
    ghost first: { Machine };

    ghost second: { Machine };

    ghost third: { Machine };

    ghost over: { Reading first second };

    ghost under: { Reading second third };

    ghost first_moments: { Moments first };

    ghost second_moments: { Moments second };

    ghost third_moments: { Moments third };

    ghost met_over: { Meeting first second first_moments second_moments };

    ghost met_under: { Meeting second third second_moments third_moments };
}

/// What matches at each state plays along with its input, whatever lawful answers that gets, and its moments are met.
pub fn matching_plays_holds<P: Pass>()
    ensures { PlaysFromEach P.input P.output P.reading P.input_moments P.output_moments P.meeting }
{}

/// Where the input is sound, the output is never wrong, and all that it asks is the input's.
pub fn sound_input_is_played_holds<P: Pass>()
    ensures { SoundIsPlayedFully P.input P.output P.reading P.input_moments P.output_moments P.meeting }
{}

/// Two passes that match, one after the other, match; and the moments of the last are met by those of the first.
pub fn two_passes_match_holds<P: TwoPasses>()
    ensures matches { BothMatch P.first P.second P.third P.over P.under }
    ensures met { BothMeet P.first P.second P.third P.over P.under P.first_moments P.second_moments P.third_moments P.met_over P.met_under }
{}

/// Two passes over sites whose links carry different items, one after the other.
pub trait TwoItemPasses {
    ghost first: { Asking };

    ghost second: { Asking };

    ghost third: { Asking };

    ghost over: { States first second };

    ghost under: { States second third };

    ghost over_items: { Items first second };

    ghost under_items: { Items second third };
}

/// Two such passes that match are one that matches, by the items and the states between.
pub fn item_passes_match_holds<P: TwoItemPasses>()
    ensures { ItemPassesMatch P.first P.second P.third P.over P.under P.over_items P.under_items }
{}
