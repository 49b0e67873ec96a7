//! The numbers of a script.

ghost use Rattle.m5_replay.specs.code.Looking.{HasLimits};

use m5_script::script::Script;

/// How many sessions run, and the steps and the weight at which a site may be stopped.
#[derive(Clone, Copy)]
pub struct Limits {
    pub sessions: u32,
    pub steps: u64,
    pub region: u64,
}

/// Those of a script.
pub fn limits_of(script: &Script) -> Limits
    ensures { HasLimits script.now result }
{
    Limits {
        sessions: script.sessions,
        steps: script.steps,
        region: script.region,
    }
}
