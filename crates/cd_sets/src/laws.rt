//! Laws of sets of node numbers and of their subsets. Each is the contract of a function that does
//! nothing.
ghost use Rattle.std.specs.Prelude.{◌≡◌, ◌≢◌, ◌^◌, List, length};
ghost use Rattle.std.specs.Bool.{Decides};
ghost use Rattle.std.specs.Cmp.Lexicographic.{pointwise};
ghost use Rattle.std.specs.List.{All, AllPairs, Contains};
ghost use Rattle.cd_sets.specs.declared.node_id.NodeId.{NodeId};
ghost use Rattle.cd_sets.specs.declared.question.Question.{Question};
ghost use Rattle.cd_sets.specs.IdSet.{AreRising, holds};
ghost use Rattle.cd_sets.specs.Comparing.{same_id};
ghost use Rattle.cd_sets.specs.Asking.{same_question};
ghost use Rattle.cd_sets.specs.Subsets.{subsets_of, IsPart};

/// Sets with the same members are the same list.
pub fn members_decide()
    ensures { (first second : List NodeId) → AreRising first → AreRising second
        → ((id : NodeId) → holds first id ≡ holds second id) → first ≡ second }
{}

/// The comparisons find those sets and questions equal that are the same.
pub fn equality_decides()
    ensures sets { (first second : List NodeId)
        → Decides (pointwise same_id first second) (first ≡ second) }
    ensures questions { (first second : Question)
        → Decides (same_question first second) (first ≡ second) }
{}

/// The subsets are the parts.
pub fn subsets_are_parts()
    ensures each_is_part { (ids part : List NodeId) → Contains (subsets_of ids) part
        → IsPart part ids }
    ensures each_part_is { (ids part : List NodeId) → IsPart part ids
        → Contains (subsets_of ids) part }
{}

/// There is a subset for each choice among the numbers, and for numbers that rise no two of them
/// are the same, and each of them rises.
pub fn subsets_differ()
    ensures count { (ids : List NodeId) → length (subsets_of ids) ≡ 2 ^ length ids }
    ensures differ { (ids : List NodeId) → AreRising ids
        → AllPairs (λ first second. first ≢ second) (subsets_of ids) }
    ensures rise { (ids : List NodeId) → AreRising ids → All AreRising (subsets_of ids) }
{}
