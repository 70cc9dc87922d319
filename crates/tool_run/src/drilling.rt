//! The command `drill`.

ghost use Rattle.tool_base.specs.Endings.{ending};
ghost use Rattle.tool_run.specs.Drill.{DrillEnds};

use drill::run_drill;
use memory::NoMemory;
use std::alloc::Global;
use tool_base::Ending;
use tool_words::DrillWords;

/// Runs sessions in memory under a schedule of events.
pub(crate) fn drill_sessions(alloc: Global, words: &DrillWords) -> Ending
    ensures { DrillEnds words.now.number words.now.sessions words.now.events (ending result) }
{
    match run_drill(alloc, u64::from(words.number), words.sessions, words.events) {
        Ok(drilled) => Ending::Drilled(drilled.summary),
        Err(NoMemory) => Ending::NoMemory,
    }
}
