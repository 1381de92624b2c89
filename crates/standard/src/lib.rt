//! The definitions of the parser, in the terms of the WHATWG HTML Standard. Their laws stand in
//! `tokenizer_laws`, `rule_laws`, `stack_laws`, `act_laws`, `fragment_laws` and `standard_laws`,
//! worked pages in `standard_examples`.
//!
//! Reading order of `specs/`: Class, Step, TextStates, EscapeStates, TagStates, CommentStates,
//! DoctypeStates, CdataStates, MarkStates, Entities, ReferenceStates, Tokenizer (13.2.5
//! #tokenization); WhiteSpace, Groups, ForeignNames, Elements, Stack, Reset, Formatting, Foreign,
//! Instructions (13.2.4 #parse-state); Rows, RulesHead, RulesBody, RulesTable, RulesRest,
//! RulesForeign, Adoption, Rules (13.2.6 #tree-construction); Tree, Act, Outer (the tree and its
//! text); Prepare (which scripts run); Parser, Fragment (13.4 #parsing-html-fragments). The serial
//! parse over a page is in `serial`.
#![tactic(auto)]
