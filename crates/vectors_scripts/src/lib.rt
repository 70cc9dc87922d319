//! Scripts that run the tool over files, links and disks in memory, and print what comes of it. `play` plays them, and
//! `verbs` does their lines, all but those that run a command: `runs` has the program do these.
#![tactic(auto)]

mod answers;
mod files;
mod given;
mod links;
mod play;
mod prints;
mod runs;
mod scene;
mod script;
mod slots;
mod verbs;
mod world;

pub use given::{push_file, words_of};
pub use play::{print_played, print_scripts, world_here};
pub use scene::{Files, file, made};
pub use slots::print_disks;
pub use world::World;
