//! The plain data that the parser's parts hand to one another, and that the definitions speak of:
//! texts, names, tags, tokens, the tokenizer's states, instructions, operations, the open state,
//! nodes. A contract sees each of them as plain data: a text is the list of its characters.
#![tactic(auto)]

mod attribute_list;
mod attribute_sum;
pub mod attributes;
pub mod children;
pub mod class;
pub mod ending;
pub mod instruction;
mod letters;
pub mod mark_state;
pub mod memory;
pub mod name;
mod name_index;
pub mod name_text;
pub mod open;
pub mod operation;
pub mod reference_state;
pub mod state;
pub mod text;
pub mod token;
pub mod tree;
pub mod word;

pub use attributes::{Attribute, Attributes};
pub use children::Children;
pub use class::Class;
pub use ending::{Ending, Why};
pub use instruction::{
    Finish, Flow, Group, Instr, Mode, Next, Scope, Stop, Test, Then, TokenizerSwitch, Turn, Who,
};
pub use mark_state::{CdataState, CommentState, DoctypeState, MarkState};
pub use memory::NoMemory;
pub use name::{Name, Space};
pub use name_text::NameText;
pub use open::{
    ActiveFormatting, Context, Elements, FormattingEntry, Modes, Open, OpenElement, Stack,
};
pub use operation::{NodeId, Op, Place};
pub use reference_state::{ReferenceState, ReturnState};
pub use state::{RawText, TagState, TextState, TokState, eq_state};
pub use text::{Text, char_at};
pub use token::{PartialTag, Quote, Tag, TagKind, Token, Tokens};
pub use tree::{Kind, Node};
pub use word::Word;
