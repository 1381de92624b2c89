//! Laws of the tokenizer's rows (13.2.5 #tokenization), each proved for all texts and states, on
//! functions that do nothing.
#![tactic(auto)]

ghost use Rattle.tokenizer_laws.specs.TokenizerLaws.{CutAnywhere, EndsAlways, EndsInEndOfFile};
ghost use Rattle.tokenizer_laws.specs.TokenizerLaws.{AsksAtDeclarations, CdataIsText};

/// A text may be cut anywhere: its parts, one after the other, come to what it comes to.
pub fn cut_anywhere()
    ensures { CutAnywhere }
{}

/// The bound on how often one character is read is never met.
pub fn ends_always()
    ensures { EndsAlways }
{}

/// The end of the input makes an end-of-file token, and none behind it.
pub fn ends_in_end_of_file()
    ensures { EndsInEndOfFile }
{}

/// `foreign`, whether the adjusted current node isn't an HTML element, is read where a markup
/// declaration begins, and nowhere else.
pub fn asks_at_declarations()
    ensures { AsksAtDeclarations }
{}

/// A CDATA section emits its characters as they are, up to the first `]]>`, and the data state
/// follows.
pub fn cdata_is_text()
    ensures { CdataIsText }
{}
