//! Laws of the rules of tree construction (13.2.6 #tree-construction): what holds of all rows
//! together. Each stands on a function that does nothing, so that a contract names it.
#![tactic(auto)]

ghost use Rattle.rule_laws.specs.Naming.{AreFresh, CameBefore};
ghost use Rattle.rule_laws.specs.NamingLaws.{RowsAppend, RulesAppend, RoundsAppend, TokensAppend};
ghost use Rattle.rule_laws.specs.NamingLaws.{FosteringEnds};
ghost use Rattle.rule_laws.specs.NamingLaws.{TokensStayBound, CharactersStayBound, EndsStayBound};
ghost use Rattle.rule_laws.specs.NamingLaws.{TextsStayBound};
ghost use Rattle.rule_laws.specs.NamingLaws.{ActsBind, NewDocServes, DocsServeTexts, DocsServeEnds};
ghost use Rattle.rule_laws.specs.NamingLaws.{RowsRename, TokensRename, CharactersRename};
ghost use Rattle.rule_laws.specs.NamingLaws.{EndsRename, TextsRename, LaterRenames};
ghost use Rattle.rule_laws.specs.NamingLaws.{TokensGrow, CharactersGrow, EndsGrow, TextsGrow};
ghost use Rattle.rule_laws.specs.Depth.{TokensStayShallow, RoundsStayShallow, OpeningIsShallow};
ghost use Rattle.rule_laws.specs.Proper.{OpeningIsProper, TokensStayProper};
ghost use Rattle.rule_laws.specs.Rounds.{RoundsSuffice, RoundsAnswer, ProperHasModes};
ghost use Rattle.rule_laws.specs.Fragments.{TokensKeepContext, CharactersKeepContext};
ghost use Rattle.rule_laws.specs.Fragments.{EndsKeepContext, TextsKeepContext};
ghost use Rattle.rule_laws.specs.Fragments.{TokensNeverStop, CharactersNeverStop, TextsNeverStop};
ghost use Rattle.rule_laws.specs.Fragments.{FragmentsParse, FragmentByParse};
ghost use Rattle.rule_laws.specs.Fragments.{DocsServeThrough, FragmentIsBound};

/// Processing a token again, or by the rules of another mode or of foreign content
/// (13.2.6 #tree-construction), comes to an end within the rounds that the definition allows, by
/// whatever rules it begins, for every token and open state of at most 512 open elements that holds
/// no mode but insertion modes; and it then asks for no more of the rules. A proper open state
/// holds no other.
pub fn rounds_suffice()
    ensures suffice { RoundsSuffice }
    ensures answer { RoundsAnswer }
    ensures proper { ProperHasModes }
{}

/// The open state (13.2.4 #parse-state) is proper, at the beginning and behind every token that
/// doesn't ask for one element too many: an original mode is there exactly in the modes "text" and
/// "in table text", and is neither; table text is pending in "in table text" alone; no template
/// insertion mode is one of the two; and the rules for foreign content are never a mode.
pub fn open_state_is_proper()
    ensures opening { OpeningIsProper }
    ensures tokens { TokensStayProper }
{}

/// At most 512 elements are ever open (13.2.4.2 #the-stack-of-open-elements): so it is at the
/// beginning, and so it stays behind every token.
pub fn few_elements_are_open()
    ensures opening { OpeningIsShallow }
    ensures rounds { RoundsStayShallow }
    ensures tokens { TokensStayShallow }
{}

/// Operations are only appended (13.2.6 #tree-construction): what is asked for doesn't depend on
/// what was asked for before.
pub fn appends_operations()
    ensures rows { RowsAppend }
    ensures rules { RulesAppend }
    ensures rounds { RoundsAppend }
    ensures tokens { TokensAppend }
{}

/// Foster parenting (13.2.6.1 #creating-and-inserting-nodes) is off behind a token, whatever turned
/// it on.
pub fn fostering_ends()
    ensures { FosteringEnds }
{}

/// Operations name ids that are bound, and elements are made under ids that aren't, where the ids
/// that the open state holds are bound and those that it is to give aren't; and so it stays.
pub fn operations_are_bound()
    ensures tokens { TokensStayBound AreFresh }
    ensures characters { CharactersStayBound AreFresh }
    ensures ends { EndsStayBound AreFresh }
    ensures texts { TextsStayBound AreFresh }
{}

/// The same where no other realm has bound ids: those that are bound came before the next one.
pub fn ids_come_in_order()
    ensures tokens { TokensStayBound CameBefore }
    ensures characters { CharactersStayBound CameBefore }
    ensures ends { EndsStayBound CameBefore }
    ensures texts { TextsStayBound CameBefore }
{}

/// The same of a document on which the operations are executed.
pub fn documents_serve()
    ensures binds { ActsBind }
    ensures begins { NewDocServes AreFresh }
    ensures begins_alone { NewDocServes CameBefore }
    ensures texts { DocsServeTexts AreFresh }
    ensures texts_alone { DocsServeTexts CameBefore }
    ensures ends { DocsServeEnds AreFresh }
    ensures ends_alone { DocsServeEnds CameBefore }
{}

/// Which ids the elements have makes no difference: under other ids, where those to come stay in
/// order, all is the same.
pub fn renames()
    ensures rows { RowsRename }
    ensures tokens { TokensRename }
    ensures characters { CharactersRename }
    ensures ends { EndsRename }
    ensures texts { TextsRename }
    ensures later { LaterRenames }
{}

/// The next id is never an earlier one.
pub fn ids_grow()
    ensures tokens { TokensGrow }
    ensures characters { CharactersGrow }
    ensures ends { EndsGrow }
    ensures texts { TextsGrow }
{}

/// The context of a fragment (13.4 #parsing-html-fragments) stays what it is, and a page has none.
pub fn context_stays()
    ensures tokens { TokensKeepContext }
    ensures characters { CharactersKeepContext }
    ensures ends { EndsKeepContext }
    ensures texts { TextsKeepContext }
{}

/// No script's end tag stops the parser of a fragment (13.4 #parsing-html-fragments). So a
/// fragment's text is parsed as any other is, to its end or to a push that would open element 513.
pub fn fragments_never_stop()
    ensures tokens { TokensNeverStop }
    ensures characters { CharactersNeverStop }
    ensures texts { TextsNeverStop }
    ensures through { FragmentsParse }
    ensures fragment { FragmentByParse }
{}

/// The operations of a fragment (13.4 #parsing-html-fragments) can be executed where its roots were
/// made, with no id bound before: they name ids that are bound, and make elements under ids that
/// aren't. So can those of any text that is read through, by whatever document serves its parser.
pub fn fragment_is_bound()
    ensures fragment { FragmentIsBound }
    ensures through { DocsServeThrough AreFresh }
    ensures through_alone { DocsServeThrough CameBefore }
{}
