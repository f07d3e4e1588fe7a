//! The parts of a script's line: the values, options, targets, trees and results that its words encode, each with the reading that is proved
//! of it. The lines of calls are made of these (`call_lines`). A word is refused only if it encodes none.
//! If a later step fails, what was read before is dropped by a call, not at the function's end: laid out there it is dear to prove.
#![tactic(auto)]

pub mod arguments;
pub mod handles;
pub mod options;
pub mod policies;
pub mod report;
pub mod results;
pub mod targets;
pub mod trees;
pub mod values;
