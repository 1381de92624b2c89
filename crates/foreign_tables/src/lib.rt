//! The names that are spelled otherwise in foreign content, and the start tags at which it is left
//! (13.2.6.5 #parsing-main-inforeign).
#![tactic(auto)]

mod breaking;
mod names;

pub use breaking::breaks_out;
pub use names::{is_lower_of, math_attribute, svg_attribute, svg_name};
