//! The serial parse, which every run comes to: a page's text, its scripts and what they do, one
//! character and one script after another, and what is written of it. The statements and the lines
//! of scripts are plain data here. Its laws stand in `standard_laws`, worked pages in
//! `standard_examples`.
//!
//! Reading order of `specs/`: Page, Statements, Scripts (a page, scripts and their files), Serial
//! (the serial parse), Quiet (a page whose scripts do not run), Dump, Output (what is written).
#![tactic(auto)]

pub mod script;

pub use script::{Line, Lines, Statement};
