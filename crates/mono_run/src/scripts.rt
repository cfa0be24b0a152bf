// Scripts: their written form, and the turns that their lines give. Definitions with examples.

mod body;
mod examples;
mod laws;

pub use body::BodyLine;
pub use examples::worked_scripts;
pub use laws::{a_script_has_no_bad_line, one_line_is_the_first, what_may_not_follow_is_bad};
