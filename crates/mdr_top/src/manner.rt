// What a run on one memory is asked for.

/// The manner in which a script is run on one memory.
#[derive(Clone, Copy)]
pub struct Manner {
    /// The budget.
    pub ticks: u64,
    /// Whether the user half is held to its annotations.
    pub watched: bool,
}
