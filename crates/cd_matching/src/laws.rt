//! Laws.
ghost use Rattle.std.specs.Prelude.{◌≡◌, ◌↔◌, ◌<◌, ◌++◌, ℕ, Bool, true, false, List, length};
ghost use Rattle.std.specs.Prelude.{Option, Some, None};
ghost use Rattle.std.specs.List.{slice_get};
ghost use Rattle.cd_sets.specs.declared.node_id.NodeId.{NodeId};
ghost use Rattle.cd_syntax.specs.Name.{Name};
ghost use Rattle.cd_syntax.specs.TypeTree.{Tree, Fields as TreeFields, Typed};
ghost use Rattle.cd_model.specs.AllOf.{AllOf};
ghost use Rattle.cd_model.specs.Formula.{Graph, IsGraph};
ghost use Rattle.cd_model.specs.Interfaces.{Interfaces, value_in_written};
ghost use Rattle.cd_model.specs.Scope.{Scope};
ghost use Rattle.cd_model.specs.Thing as thing;
ghost use Rattle.cd_model.specs.Thing.{Thing, IsElement, IsValue};
ghost use Rattle.cd_model.specs.Written.{Written, in_written};
ghost use Rattle.cd_matching.specs.Captures.{Captures};
ghost use Rattle.cd_matching.specs.Kernel.{KernelNode, leads_to, parts_of, Ends, Binds};
ghost use Rattle.cd_matching.specs.Kernel.{by_node, apart_of, taken};
ghost use Rattle.cd_matching.specs.Naming.{IsNamed};
ghost use Rattle.cd_matching.specs.Pattern.{Pattern, Fields, Record};
ghost use Rattle.cd_matching.specs.Rests.{OthersAre, SameCaptures};
ghost use Rattle.cd_matching.specs.Take.{take};
ghost use Rattle.cd_matching.specs.Takes.{ElementTakes, ValueTakes, PatternStandsFor, IsResolved};
ghost use Rattle.cd_matching.specs.Variables.{binds};
ghost use Rattle.cd_matching.specs.WrittenPattern.{pattern_of, in_scope, others_in, with_rest};

/// A pattern takes each element in one way, or fails, and each value in one way at most.
pub fn patterns_answer_once()
    ensures elements { (graph : Graph) (p : Pattern NodeId) (e : Thing)
        → (result : Option (Captures Name)) × ElementTakes graph p e result }
    ensures once { (graph : Graph) (p : Pattern NodeId) (e : Thing)
        (one other : Option (Captures Name)) → IsElement e → ElementTakes graph p e one
        → ElementTakes graph p e other → one ≡ other }
    ensures values_once { (graph : Graph) (interfaces : Interfaces) (p : Pattern NodeId) (v : Thing)
        (one other : Option (Captures Name)) → IsValue v → ValueTakes graph interfaces p v one
        → ValueTakes graph interfaces p v other → one ≡ other }
{}

/// A pattern whose nodes stand for written types stands for the written pattern.
pub fn resolved_patterns_stand()
    ensures { (graph : Graph) (p : Pattern NodeId) (scope : Scope) (written : Tree)
        → IsResolved graph p scope written → IsNamed (pattern_of scope written)
        → PatternStandsFor graph p scope written }
{}

/// Its nodes stand for these types in each longer graph.
pub fn resolving_is_kept()
    ensures { (graph more : Graph) (p : Pattern NodeId) (scope : Scope) (written : Tree)
        → IsGraph graph → IsResolved graph p scope written
        → IsResolved (graph ++ more) p scope written }
{}

/// Where a pattern takes a thing, each variable that stands in it captures something, and no other
/// name does.
pub fn variables_have()
    ensures bound { (test : NodeId → Thing → Bool) (p : Pattern NodeId) (d : Thing)
        (captures : Captures Name) (name : Name) → IsNamed p
        → take NodeId test p d ≡ Some captures → binds p name ≡ true
        → (what : Thing) × (captures name ≡ Some what) }
    ensures unbound { (test : NodeId → Thing → Bool) (p : Pattern NodeId) (d : Thing)
        (captures : Captures Name) (name : Name) → take NodeId test p d ≡ Some captures
        → binds p name ≡ false → captures name ≡ None }
    ensures element_bound { (graph : Graph) (p : Pattern NodeId) (e : Thing)
        (captures : Captures Name) (name : Name) → ElementTakes graph p e (Some captures)
        → IsNamed p → binds p name ≡ true → (what : Thing) × (captures name ≡ Some what) }
    ensures element_unbound { (graph : Graph) (p : Pattern NodeId) (e : Thing)
        (captures : Captures Name) (name : Name) → ElementTakes graph p e (Some captures)
        → binds p name ≡ false → captures name ≡ None }
    ensures value_bound { (graph : Graph) (interfaces : Interfaces) (p : Pattern NodeId) (v : Thing)
        (captures : Captures Name) (name : Name) → ValueTakes graph interfaces p v (Some captures)
        → IsNamed p → binds p name ≡ true → (what : Thing) × (captures name ≡ Some what) }
    ensures value_unbound { (graph : Graph) (interfaces : Interfaces) (p : Pattern NodeId)
        (v : Thing) (captures : Captures Name) (name : Name)
        → ValueTakes graph interfaces p v (Some captures) → binds p name ≡ false
        → captures name ≡ None }
{}

/// A record pattern with a typed rest takes the records of the type beside its fields that the open
/// pattern takes, with the same captures, and nothing else.
pub fn rests_take()
    ensures takes { (test : Written → Thing → Bool) (scope : Scope) (fields : TreeFields)
        (is : Tree) (are : Fields Written) (all : thing.Fields)
        → test (in_scope scope (others_in fields is)) (thing.Record all) ≡ true
        → SameCaptures (take Written test (with_rest scope fields (Typed is) are) (thing.Record all))
        (take Written test (Record are true) (thing.Record all)) }
    ensures fails { (test : Written → Thing → Bool) (scope : Scope) (fields : TreeFields)
        (is : Tree) (are : Fields Written) (d : Thing)
        → test (in_scope scope (others_in fields is)) d ≡ false
        → take Written test (with_rest scope fields (Typed is) are) d ≡ None }
{}

/// A record is in that type just where at each label that the fields don't name it has nothing, or
/// something in the type of the rest.
pub fn rests_hold()
    ensures elements { (scope : Scope) (fields : TreeFields) (is : Tree) (all : thing.Fields)
        → in_written (thing.Record all) (in_scope scope (others_in fields is)) true
        ↔ OthersAre (λ d. in_written d (in_scope scope is) true) fields all }
    ensures values { (interfaces : Interfaces) (scope : Scope) (fields : TreeFields) (is : Tree)
        (all : thing.Fields)
        → value_in_written interfaces (thing.Record all) (in_scope scope (others_in fields is)) true
        ↔ OthersAre (λ d. value_in_written interfaces d (in_scope scope is) true) fields all }
{}

/// Each node of a kernel takes by one rule.
pub fn nodes_take_by_rules()
    ensures { (test : NodeId → Thing → Bool) (nodes : List (KernelNode NodeId)) (d : Thing)
        (number : ℕ) → Ends nodes (length nodes) number
        → taken NodeId test nodes d number
        ≡ by_node NodeId test nodes d (apart_of NodeId test nodes d) (taken NodeId test nodes d)
        (slice_get nodes number) }
{}

/// All ways through Both and First end where these name smaller numbers alone, by any ranks that
/// are less than there are nodes.
pub fn ways_end_by_falling()
    ensures { (nodes : List (KernelNode NodeId)) (rank : ℕ → ℕ)
        → ((number : ℕ) (node : KernelNode NodeId) → slice_get nodes number ≡ Some node
        → AllOf (λ next. (rank next < rank number) × (next < length nodes)) (leads_to node))
        → ((number : ℕ) → number < length nodes → rank number < length nodes)
        → (number : ℕ) → number < length nodes → Ends nodes (length nodes) number }
{}

/// A variable that captures something where a node takes a thing is bound by the node.
pub fn captured_variables_are_bound()
    ensures { (test : NodeId → Thing → Bool) (nodes : List (KernelNode NodeId)) (variable : ℕ)
        → AllOf (λ node. AllOf (λ number. number < length nodes) (leads_to node ++ parts_of node))
        nodes
        → ((number : ℕ) → number < length nodes → Ends nodes (length nodes) number)
        → (d : Thing) (number : ℕ) (captures : Captures ℕ) (what : Thing) → number < length nodes
        → taken NodeId test nodes d number ≡ Some captures → captures variable ≡ Some what
        → Binds nodes variable number }
{}
