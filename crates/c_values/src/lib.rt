//! The values of the C interface, without text. It says how a call from C ended and what it writes, and takes a box apart into the pointer to
//! its block and whose block that is. It has the kind of a frame's message, its numbers and its parts, and it makes frames that hold
//! a value as it is given. It also has results as notifications, whether a suspension is awake, and in which field two commands differ. The
//! crates above hide the pointer of a session or of a journal in a struct of C's; their proofs by hand depend on the steps that are proved here.
#![tactic(auto)]

mod future;
mod judged;
mod judgement;
mod leaves;
mod loose;
mod making;
mod messages;
mod numbers;
mod parts;
mod reading;
mod results;
mod status;
mod told;
mod waking;

pub use future::awake_at;
pub use judgement::{Judged, judge, unjudged};
pub use loose::Loose;
pub use making::{input_with, value_frame};
pub use messages::{message_at, message_row, write_difference, write_part};
pub use numbers::{FrameRow, behavior_code, unread_row};
pub use reading::frame_at;
pub use results::notification_at;
pub use status::Status;
pub use told::{Told, answer, tell, write, written};
