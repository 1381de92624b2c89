//! A page is parsed from its files to the lines of its scripts: its pieces are read, the document's
//! side and the parser's side of the core take turns over them, the scripts that are awaited are
//! fetched, and the lines are written.
#![tactic(auto)]

mod counterpart;
mod fetch;
mod in_place;
mod job;
mod output;
mod page;
mod parse;
mod prefetch;
mod reader;
mod scripts;
mod watch;
mod write;

pub use core_steps::End;
pub use counterpart::Counterpart;
pub use fetch::read_whole;
pub use in_place::InPlace;
pub use job::Job;
pub use output::{json_line, line_text, show_outcome, show_watch};
pub use page::{Failure, PAGE_LIMIT};
pub use parse::parse_page;
pub use prefetch::{Early, Nobody, Prefetch};
pub use scripts::{SCRIPT_LIMIT, fetch_script};
pub use watch::{Unwatched, Watch, passed_stand};
pub use write::write_all;
