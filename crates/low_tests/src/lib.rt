//! Tests of the crates below the parser, each through its public calls: `shared_stack`, `op_queue`,
//! `page_maker`, `command_words`, `outside`, `utf8_pieces`, `entity_table`, `script_lang`,
//! `char_class`, `tokenizer`, `doc_tree`, `doc_changes`, `op_exec`, `serialiser` and `tree_watch`.
//! They stand in a crate of their own, since a crate that has tests is proved twice.
#![tactic(auto)]

#[cfg(test)]
mod cuts;
#[cfg(test)]
mod executing;
#[cfg(test)]
mod files;
#[cfg(test)]
mod lanes;
#[cfg(test)]
mod making;
#[cfg(test)]
mod marks;
#[cfg(test)]
mod names;
#[cfg(test)]
mod nodes;
#[cfg(test)]
mod pieces;
#[cfg(test)]
mod scripts;
#[cfg(test)]
mod serialised;
#[cfg(test)]
mod spelling;
#[cfg(test)]
mod stack;
#[cfg(test)]
mod tokens;
#[cfg(test)]
mod trees;
#[cfg(test)]
mod watching;
#[cfg(test)]
mod words;
