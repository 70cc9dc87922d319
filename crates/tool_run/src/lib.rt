//! The tool: what its words ask for, what it reads and writes, and the status that it ends with.
#![tactic(auto)]

mod drilling;
mod tool;

pub use tool::run_tool;
pub use tool_base::FILE_LIMIT;
pub use tool_trustee::{Clocks, MemClock, MemClocks, SystemClock, SystemClocks};
