//! Whole scripts.
//!
//! [`run_script`] runs the lines of a script on a new engine and gives the text of their replies, which is that of the history of
//! the script. A line that is neither blank nor a comment gets one reply. One whose text is not read is refused, and does not
//! reach the engine.
//!
//! In reading order: `display.rt` with [`write_reply`], the texts of replies, and `script.rt` with [`run_script`]. In `specs/`,
//! `History` is the history of the lines that a script is read as, over the history machine, `Scripts` the same
//! by the bytes of the script, and `Replies` the texts. The functions of `laws.rt`, as
//! [`every_line_has_one_reply`], are laws of histories.
//!
//! ```text
//! let mut engine = Engine::new(alloc);
//! let output = run_script(alloc, script, &mut engine)?;
//! // output.text: the replies; output.refused: whether a line was refused
//! ```
#![tactic(auto)]

mod display;
mod laws;
mod script;

pub use display::write_reply;
pub use laws::{
    every_line_has_one_reply, lines_of_scripts_are_script_lines, refused_lines_change_nothing,
    replies_have_no_annotations, scripts_lead_to_histories,
};
pub use script::{MAX_SCRIPT_LENGTH, Output, run_script};
