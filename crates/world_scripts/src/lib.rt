//! Worlds and their rounds as scripts: what the lines of a script say, the world and the rounds that a whole script makes, and one run of the
//! program `vmrounds`: the rounds of a script over a world, and the report of them.
#![tactic(auto)]

pub mod given;
pub mod handed;
pub mod opening;
pub mod parse;
pub mod play;
pub mod report;
pub mod run;
pub mod run_end;
pub mod script;
pub mod script_line;
pub mod stop;
