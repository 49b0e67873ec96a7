//! The numbers that every site of a run is held to.

ghost use Rattle.std.specs.Prelude.{◌<◌, ◌^◌};

/// The numbers for every site: at most so many steps, and a weight below that of its region. Both
/// are small enough to count on from.
#[derive(Clone, Copy)]
pub struct Limits {
    pub steps: u64,
    pub region: u64,
    pub ghost few_steps: { steps < 2 ^ 62 },
    pub ghost small_region: { region < 2 ^ 62 },
}
