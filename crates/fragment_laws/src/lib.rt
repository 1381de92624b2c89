//! Laws of fragments (13.4 #parsing-html-fragments) on a tree: what setting an element's children
//! comes to, and what it leaves as it was. Each stands on a function that does nothing, so that a
//! contract names it.
#![tactic(auto)]

ghost use Rattle.fragment_laws.specs.Laws.{NodesStay, OthersStand, MadeAsAlone, TargetHolds};
ghost use Rattle.fragment_laws.specs.Laws.{SetsChildren, SetsTree, SetsTooDeep};
ghost use Rattle.fragment_laws.specs.Unnamed.{FragmentsAreUnnamed, OperationsKeepUnnamed};
ghost use Rattle.fragment_laws.specs.Unnamed.{ScriptsKeepUnnamed, StatementsKeepUnnamed};
ghost use Rattle.fragment_laws.specs.Unnamed.{MomentsKeepUnnamed, StopsAreNamed, MomentsRunOthers};
ghost use Rattle.fragment_laws.specs.Whole.{MomentsAreWhole, ScriptsAreWhole, StatementsSet};
ghost use Rattle.fragment_laws.specs.Whole.{TagsAreOthers, StatementsStayUnnamed};
ghost use Rattle.fragment_laws.specs.Whole.{MomentsStayUnnamed};

/// A fragment's nodes are made behind those that there were, which stay as they are. Once its
/// nodes are an element's children (a template's: its contents' children), each node that there
/// was is as it was, but for the element's own children: they have no parent then, and keep their
/// own children.
pub fn fragments_touch_their_target()
    ensures made { NodesStay }
    ensures filled { OthersStand }
{}

/// Behind other nodes a fragment's are made as they are in a document of their own. Then the
/// children of the target are the trees of the fragment, in order.
pub fn targets_hold_the_fragment()
    ensures made { MadeAsAlone }
    ensures filled { TargetHolds }
{}

/// The statement that sets what stands in an element leaves another tree and nothing else: the
/// element's children are those of the fragment with it as the context, and all else in the tree,
/// the parser, the input, the lines, the characters written and the scripts executed are as
/// before; no script runs. Where the fragment is too deep, the page is refused and the tree is as
/// before.
pub fn statement_sets_the_tree()
    ensures children { SetsChildren }
    ensures tree { SetsTree }
    ensures too_deep { SetsTooDeep }
{}

/// No script of a fragment (13.4 #parsing-html-fragments) is ever executed. Its nodes have no id,
/// and come to have none, whatever is done then. A script runs only where the parser stops at its
/// end tag, and that is one for which an id stands.
pub fn no_script_of_a_fragment_runs()
    ensures unnamed { FragmentsAreUnnamed }
    ensures operations { OperationsKeepUnnamed }
    ensures scripts { ScriptsKeepUnnamed }
    ensures statements { StatementsKeepUnnamed }
    ensures moments { MomentsKeepUnnamed }
    ensures stops { StopsAreNamed }
    ensures runs { MomentsRunOthers }
{}

/// Whatever the page and its scripts are: at each moment of the serial parse, and wherever a
/// script of it runs, the document's nodes are a tree whose first node is the one Document, ids
/// stand for elements, and those that the parser holds are bound.
pub fn serial_states_are_whole()
    ensures moments { MomentsAreWhole }
    ensures scripts { ScriptsAreWhole }
{}

/// So the statement that sets an element's children does as `statement_sets_the_tree` says
/// wherever the serial parse runs it, and no node of the fragment has an id. A node without one
/// is none whose script's end tag is met, in the page or in a text that was written, and it stays
/// one: no script of a fragment is ever executed.
pub fn fragments_are_set_in_every_parse()
    ensures sets { StatementsSet }
    ensures scripts { TagsAreOthers }
    ensures statements { StatementsStayUnnamed }
    ensures moments { MomentsStayUnnamed }
{}
