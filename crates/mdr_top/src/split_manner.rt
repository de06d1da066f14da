// What a run over two halves is asked for.

/// The manner in which a script is run over the two halves of a source.
#[derive(Clone, Copy)]
pub struct SplitManner {
    /// The budget.
    pub ticks: u64,
    /// Whether the messages between the halves are shown behind the report.
    pub wire: bool,
    /// Whether the layout of the kernel half's memory is shown behind that.
    pub region: bool,
}
