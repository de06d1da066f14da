// Laws, each as a function that does nothing.

ghost use Rattle.mdr_exchanges.specs.Ends.{EndedRunsAreAsBefore, ExchangesAreFew};
ghost use Rattle.mdr_exchanges.specs.Meanings.{HonestRunsAreMeant};

/// Where an answer is refused, or none comes, the run had waited for it, and its memory is what it was before: the answer's
/// number and its first fault are told, or the number of the message that has no answer.
pub fn ended_runs_are_as_before()
    ensures { EndedRunsAreAsBefore }
{}

/// Of exchanges whose messages are a run's, the messages and answers are at most 8 for each tick and 6 for each command that
/// called a function.
pub fn exchanges_are_few()
    ensures { ExchangesAreFew }
{}

/// A run of a sound program over honest exchanges has the outcome of the watched run on one memory, within 8 messages for
/// each tick and 6 for each command that called a function (4 for each tick where nothing is called back), or the far side
/// failed.
pub fn honest_runs_are_meant()
    ensures { HonestRunsAreMeant }
{}
