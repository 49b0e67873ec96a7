//! The laws of dictionaries, each on a function that does nothing.

ghost use Rattle.m5_dict_typing.specs.Laws.{TypedValuesHaveIds, ThreadsBringTheirTypes, OpeningIsTyped, SitesGoOn, RunsKeepTypes, HasBytesThere};

/// A typed value is of each id that stands for its type.
pub fn typed_values_have_ids_holds()
    ensures { TypedValuesHaveIds }
{}

/// A typed thread brings to its label what the label's line says.
pub fn threads_bring_their_types_holds()
    ensures { ThreadsBringTheirTypes }
{}

/// Each site opens with threads that bring their types.
pub fn opening_is_typed_holds()
    ensures { OpeningIsTyped }
{}

/// Steps and typed answers keep it, and what is sent has its types where it goes.
pub fn sites_go_on_holds()
    ensures { SitesGoOn }
{}

/// Each run keeps it, whatever typed answers it has.
pub fn runs_keep_types_holds()
    ensures { RunsKeepTypes }
{}

/// A thread that has its types has bytes where its label stands.
pub fn has_bytes_there_holds()
    ensures { HasBytesThere }
{}
