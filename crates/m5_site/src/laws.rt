//! Laws of objects' sites, each on a function that does nothing.

ghost use Rattle.m5_network.specs.Laws.{StopsApart};
ghost use Rattle.m5_site.specs.Kind.{object_kind};
ghost use Rattle.m5_site.specs.Object.{Bundle};
ghost use Rattle.m5_site.specs.declared.state.Limits.{Limits};

/// No answer goes on from a stop for want of steps or room, which a run chooses; a full table is
/// asked, and no choice.
pub fn stops_apart_holds()
    ensures { (O : Bundle) (n : Limits) → StopsApart (object_kind O n) }
{}
