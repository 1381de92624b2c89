//! Laws of the serial parse, proved of the definitions in `serial`: on functions that do nothing,
//! so that a contract names each.
//!
//! `specs/Laws` has what they say; `specs/Frames` has nested scripts as a list of frames;
//! `specs/Quiet` texts that are read through, and pages none of whose scripts runs.
#![tactic(auto)]

ghost use Rattle.standard_laws.specs.Laws.{HasOneOutcome, ParsesInPieces, AdvancesByParse};
ghost use Rattle.standard_laws.specs.Laws.{BatchesLead, WholeBatchesLead, LeavesNothing, EndLeads};
ghost use Rattle.standard_laws.specs.Laws.{FinishLeads, OverIsSerial};
ghost use Rattle.standard_laws.specs.Laws.{ScriptLeads, ScriptRefuses, StillScripts};
ghost use Rattle.standard_laws.specs.Laws.{ExternalScripts, SyntaxErrors, AwaitsMissing};
ghost use Rattle.standard_laws.specs.Laws.{AwaitsFault, AwaitsGot, AwaitsRefuses, FileSyntaxErrors};
ghost use Rattle.standard_laws.specs.Laws.{LinesBegin, OutputBegins};
ghost use Rattle.standard_laws.specs.Frames.{FramesEnd, ScriptsEnter, FilesEnter, StillTags};
ghost use Rattle.standard_laws.specs.Frames.{ExternalTags, InlineTags, OutsideTexts, TextsBegin};
ghost use Rattle.standard_laws.specs.Frames.{RestsEnd, RestsStop, RestsRefuse, FrameEnds};
ghost use Rattle.standard_laws.specs.Frames.{WritesFit, WritesRefuse, LinesFit, LinesRefuse};
ghost use Rattle.standard_laws.specs.Frames.{Removes, Appends, Fills, FillsRefuse, ReadsById};
ghost use Rattle.standard_laws.specs.Frames.{ReadsRoot, Throws};
ghost use Rattle.standard_laws.specs.Quiet.{ThroughByParse, ThroughInPieces, QuietIsSerial};

/// Every page has exactly one outcome.
pub fn has_one_outcome()
    ensures { HasOneOutcome }
{}

/// A text may come in two pieces: it is parsed as the first and then the second, unless the parser
/// stops in the first.
pub fn parse_of_a_cut_text()
    ensures { ParsesInPieces }
{}

/// Characters one by one, each operation done at once, come to the operations of the whole text
/// done after it.
pub fn advance_by_parse()
    ensures { AdvancesByParse }
{}

/// What is parsed of a front of the input leads from one moment of the serial parse to another:
/// over the front, or to a stop in it.
pub fn batch_leads()
    ensures leads { BatchesLead }
    ensures whole { WholeBatchesLead }
    ensures nothing_left { LeavesNothing }
{}

/// Where the input is used the page's ending is applied, and the parse is over.
pub fn end_leads()
    ensures ending { EndLeads }
    ensures finish { FinishLeads }
    ensures outcome { OverIsSerial }
{}

/// What a script comes to leads to the moment behind it.
pub fn script_leads()
    ensures goes_on { ScriptLeads }
    ensures refuses { ScriptRefuses }
{}

/// What a script whose end tag was met at level 0 comes to, by how it was prepared. One that runs
/// is begun as a list of frames.
pub fn script_begins()
    ensures still { StillScripts }
    ensures external { ExternalScripts }
    ensures syntax { SyntaxErrors }
    ensures enters { ScriptsEnter }
{}

/// A script that is awaited leads to the moment behind it, by what fetching it gave.
pub fn awaited_script_leads()
    ensures missing { AwaitsMissing }
    ensures fault { AwaitsFault }
    ensures goes_on { AwaitsGot }
    ensures refuses { AwaitsRefuses }
{}

/// What the file of an awaited script comes to. One that runs is begun as a list of frames.
pub fn file_begins()
    ensures syntax { FileSyntaxErrors }
    ensures enters { FilesEnter }
{}

/// Nested scripts as a list of frames (specs/Frames): the end tag of a script, by how the script
/// was prepared.
pub fn nested_script_begins()
    ensures still { StillTags }
    ensures external { ExternalTags }
    ensures inline { InlineTags }
{}

/// Nested scripts: the text of one begins.
pub fn nested_text_begins()
    ensures outside { OutsideTexts }
    ensures begins { TextsBegin }
{}

/// Nested scripts: the parser takes the text that the innermost wrote.
pub fn written_text_is_parsed()
    ensures end { RestsEnd }
    ensures script { RestsStop }
    ensures deep { RestsRefuse }
{}

/// Nested scripts: a statement of the innermost, or its end.
pub fn statements_run()
    ensures write { WritesFit }
    ensures long { WritesRefuse }
    ensures line { LinesFit }
    ensures long_line { LinesRefuse }
    ensures remove { Removes }
    ensures append { Appends }
    ensures fill { Fills }
    ensures too_deep { FillsRefuse }
    ensures read { ReadsById }
    ensures read_root { ReadsRoot }
    ensures throw { Throws }
    ensures end { FrameEnds }
    ensures last { FramesEnd }
{}

/// The lines of every moment that a parse passes through begin those of its outcome, and what is
/// written for them begins what is written for the page, with the dump of the tree or without.
pub fn lines_begin()
    ensures lines { LinesBegin }
    ensures output { OutputBegins }
{}

/// A text that is read through (a fragment's, or that of a page whose scripts don't run) is
/// parsed up to the first stop, and from the end tag of a script on. It may come in two pieces.
pub fn texts_are_read_through()
    ensures parse { ThroughByParse }
    ensures pieces { ThroughInPieces }
{}

/// The serial parse of a page none of whose scripts runs comes to the document, or the refusal,
/// of the parse in which scripts don't run.
pub fn quiet_parse_is_serial()
    ensures { QuietIsSerial }
{}
