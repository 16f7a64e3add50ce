//! Laws of words, and of the ways and rows that they make. Each is the contract of a function that
//! does nothing.
ghost use Rattle.std.specs.Prelude.{◌≡◌, ◌<◌, ◌≤◌, ◌+◌, ◌++◌, ℕ, true, List, [], ◌∷◌, map, length};
ghost use Rattle.std.specs.Prelude.{Some};
ghost use Rattle.std.specs.List.{slice_get};
ghost use Rattle.cd_model.specs.AllOf.{AllOf, AnyOf};
ghost use Rattle.cd_rules.specs.Clauses.{Clause, RecordType};
ghost use Rattle.cd_rules.specs.Needs.{Need, AreNeeds};
ghost use Rattle.cd_rules.specs.Rows.{labels_of, rows_of};
ghost use Rattle.cd_tasks.specs.Assignments.{Differ, HasWays, Word, all_words, begins_with};
ghost use Rattle.cd_tasks.specs.Assignments.{count_needs, full_words, members_of, row_by, sides_of};
ghost use Rattle.cd_tasks.specs.Assignments.{way_of, without_those_from};
ghost use Rattle.cd_tasks.specs.Within.{IsRowWithin, IsWayWithin};

/// No word stands twice among all words, and each word of at most so many members, given to some of
/// the sides, is one of them.
pub fn words_are_visited_once()
    ensures once { (sides members : ℕ) → Differ (all_words sides members) }
    ensures each { (sides members : ℕ) (word : Word) → length word ≤ members
        → AllOf (λ side. side < sides) word
        → AnyOf (λ other. other ≡ word) (all_words sides members) }
{}

/// The full words make the ways of each need of a clause, in their order.
pub fn full_words_are_ways()
    ensures { (clause : Clause) (needs : List Need) (need : ℕ) → HasWays clause
        → AreNeeds clause needs → need < count_needs clause
        → slice_get needs need
        ≡ Some (map (way_of clause need) (full_words (sides_of clause) (members_of clause))) }
{}

/// The full words make the rows of a clause of records, in their order.
pub fn full_words_are_rows()
    ensures { (wanted refused : List RecordType) → rows_of wanted refused
        ≡ map (row_by wanted refused)
        (full_words (length (labels_of (wanted ++ refused)) + 1) (length refused)) }
{}

/// Each question of the way of a word has one in the way of each longer word that begins with it,
/// at its place, which wants and refuses what it does.
pub fn partial_is_within()
    ensures { (clause : Clause) (need : ℕ) (word longer : Word) → begins_with word longer ≡ true
        → IsWayWithin (way_of clause need word) (way_of clause need longer) }
{}

/// The row of each longer word that begins with a word asks all that the row of that word asks.
pub fn partial_row_is_within()
    ensures { (wanted refused : List RecordType) (word longer : Word)
        → begins_with word longer ≡ true
        → IsRowWithin (row_by wanted refused word) (row_by wanted refused longer) }
{}

/// The words of two members, each given to one of two sides; and those that are left where the
/// first member is given to side 0, and the longer words are skipped.
pub fn worked_examples()
    ensures words { all_words 2 2 ≡ [] ∷ (0 ∷ []) ∷ (0 ∷ 0 ∷ []) ∷ (0 ∷ 1 ∷ [])
        ∷ (1 ∷ []) ∷ (1 ∷ 0 ∷ []) ∷ (1 ∷ 1 ∷ []) ∷ [] }
    ensures full { full_words 2 2
        ≡ (0 ∷ 0 ∷ []) ∷ (0 ∷ 1 ∷ []) ∷ (1 ∷ 0 ∷ []) ∷ (1 ∷ 1 ∷ []) ∷ [] }
    ensures skipped { without_those_from (0 ∷ []) ((0 ∷ 0 ∷ []) ∷ (0 ∷ 1 ∷ []) ∷ (1 ∷ [])
        ∷ (1 ∷ 0 ∷ []) ∷ (1 ∷ 1 ∷ []) ∷ []) ≡ (1 ∷ []) ∷ (1 ∷ 0 ∷ []) ∷ (1 ∷ 1 ∷ []) ∷ [] }
{}
