//! Laws of operations on a document (13.2.6.1 #creating-and-inserting-nodes), whoever executes
//! them.
#![tactic(auto)]

ghost use Rattle.std.specs.Prelude.{◌≡◌, ℕ, Bool, List, map, Option, Some};
ghost use Rattle.html_types.specs.declared.operation.NodeId.{NodeId};
ghost use Rattle.html_types.specs.declared.operation.Op.{Op};
ghost use Rattle.standard.specs.Tree.{Nodes, detached, appended, find_id};
ghost use Rattle.standard.specs.Act.{Doc, new_doc, is_bound, act, acts, IsOpBound, AreOpsBound};
ghost use Rattle.standard.specs.Act.{rename_op, SameUpTo};
ghost use Rattle.standard.specs.Fragment.{filled};
ghost use Rattle.act_laws.specs.Bindings.{BindsElements, NamesElements};
ghost use Rattle.act_laws.specs.Staying.{Stays};

/// An operation, or a list of them, with every id replaced by another, each by one of its own,
/// makes the same tree, and names the same nodes in it. So does an element's move by a script,
/// which names no id.
pub fn same_up_to_renaming()
    ensures one { (r : NodeId → NodeId) → ((a b : NodeId) → r a ≡ r b → a ≡ b)
        → (d d' : Doc) → SameUpTo r d d' → (op : Op)
        → SameUpTo r (act d op) (act d' (rename_op r op)) }
    ensures all { (r : NodeId → NodeId) → ((a b : NodeId) → r a ≡ r b → a ≡ b)
        → (d d' : Doc) → SameUpTo r d d' → (ops : List Op)
        → SameUpTo r (acts d ops) (acts d' (map (rename_op r) ops)) }
    ensures script_move { (r : NodeId → NodeId) → (d d' : Doc) → SameUpTo r d d'
        → (v c : List ℕ) (t : Nodes)
        → appended d.tree (find_id d.tree v) (find_id d.tree c) ≡ Some t
        → (appended d'.tree (find_id d'.tree v) (find_id d'.tree c) ≡ Some t)
        × SameUpTo r (record d { tree = t }) (record d' { tree = t }) }
{}

/// What an element's children are set to by a script (a fragment, 13.4 #parsing-html-fragments),
/// whatever its operations are, leaves the nodes that there were: they keep their numbers,
/// templates their contents, and elements are elements.
pub fn fragments_leave_nodes()
    ensures { (t : Nodes) (n : ℕ) (form : Bool) (ops : List Op) → Stays t (filled t n form ops) }
{}

/// Each id stands for an element, and no two ids for one: so it stays behind operations whose ids
/// are bound before, and where a script removes or moves an element, or sets its children. A
/// fragment's elements have no id.
pub fn ids_stay_one_to_one()
    ensures one { (d : Doc) → BindsElements d → (op : Op) → IsOpBound (is_bound d.bound) op
        → BindsElements (act d op) }
    ensures all { (d : Doc) → BindsElements d → (ops : List Op)
        → AreOpsBound (is_bound d.bound) ops → BindsElements (acts d ops) }
    ensures removal { (d : Doc) → BindsElements d → (n : ℕ)
        → BindsElements (record d { tree = detached d.tree n }) }
    ensures script_move { (d : Doc) → BindsElements d → (p n : Option ℕ) (t : Nodes)
        → appended d.tree p n ≡ Some t → BindsElements (record d { tree = t }) }
    ensures fragment { (d : Doc) → BindsElements d → (n : ℕ) (form : Bool) (ops : List Op)
        → BindsElements (record d { tree = filled d.tree n form ops }) }
{}

/// Ids and elements stand one to one: each id stands for an element, no two ids for one, and each
/// element of the tree has its id. So it is at first, behind operations whose ids are bound before
/// (a new element's is not), and where a script removes or moves an element.
pub fn acts_bind_one_to_one()
    ensures first { NamesElements new_doc }
    ensures one { (d : Doc) → NamesElements d → (op : Op) → IsOpBound (is_bound d.bound) op
        → NamesElements (act d op) }
    ensures all { (d : Doc) → NamesElements d → (ops : List Op)
        → AreOpsBound (is_bound d.bound) ops → NamesElements (acts d ops) }
    ensures removal { (d : Doc) → NamesElements d → (n : ℕ)
        → NamesElements (record d { tree = detached d.tree n }) }
    ensures script_move { (d : Doc) → NamesElements d → (p n : Option ℕ) (t : Nodes)
        → appended d.tree p n ≡ Some t → NamesElements (record d { tree = t }) }
{}
