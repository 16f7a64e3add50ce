//! Laws. A test says of each box whether it is inhabited.
ghost use Rattle.std.specs.Prelude.{◌≡◌, ◌↔◌, true, Bool, List};
ghost use Rattle.cd_sets.specs.declared.question.Question.{Question};
ghost use Rattle.cd_model.specs.AllOf.{AllOf, AnyOf};
ghost use Rattle.cd_model.specs.Formula.{Graph, in_node};
ghost use Rattle.cd_model.specs.Interfaces.{Interfaces, value_in_node};
ghost use Rattle.cd_model.specs.Thing.{Thing, IsElement, IsValue};
ghost use Rattle.cd_products.specs.QuestionBoxes.{QuestionClause, question_pieces};
ghost use Rattle.cd_products.specs.QuestionBoxes.{question_pieces_of, pairs_of, triples_of};
ghost use Rattle.cd_products.specs.QuestionBoxes.{InQuestions, InOneQuestionsAtMost, InClauses};
ghost use Rattle.cd_products.specs.QuestionBoxes.{AreDecided, DropsEmpty, KeepsInhabited};
ghost use Rattle.cd_products.specs.QuestionBoxes.{ArePairClauses, CoverXml, MakeXml};
ghost use Rattle.cd_products.specs.Products.{Cover, AreProducts, CoverTriples, AreTriples};

/// Things are in a piece of some clauses exactly when they are in one of the clauses.
pub fn pieces_are_exact()
    ensures elements { (graph : Graph) (inhabited : List Question → Bool)
        (clauses : List QuestionClause) (elements : List Thing)
        → DropsEmpty (in_node graph) IsElement inhabited → AllOf IsElement elements
        → AnyOf (InQuestions (in_node graph) elements)
        (question_pieces inhabited clauses)
        ↔ InClauses (in_node graph) clauses elements }
    ensures values { (graph : Graph) (interfaces : Interfaces) (inhabited : List Question → Bool)
        (clauses : List QuestionClause) (values : List Thing)
        → AreDecided (value_in_node graph interfaces) IsValue
        → DropsEmpty (value_in_node graph interfaces) IsValue inhabited → AllOf IsValue values
        → AnyOf (InQuestions (value_in_node graph interfaces) values)
        (question_pieces inhabited clauses)
        ↔ InClauses (value_in_node graph interfaces) clauses values }
{}

/// The pieces of a clause are disjoint.
pub fn pieces_are_disjoint()
    ensures elements { (graph : Graph) (inhabited : List Question → Bool)
        (clause : QuestionClause) (elements : List Thing)
        → InOneQuestionsAtMost (in_node graph) elements
        (question_pieces_of inhabited clause) }
    ensures values { (graph : Graph) (interfaces : Interfaces) (inhabited : List Question → Bool)
        (clause : QuestionClause) (values : List Thing)
        → InOneQuestionsAtMost (value_in_node graph interfaces) values
        (question_pieces_of inhabited clause) }
{}

/// Each piece passes the test.
pub fn pieces_are_inhabited()
    ensures { (inhabited : List Question → Bool) (clauses : List QuestionClause)
        → AllOf (λ box. inhabited box ≡ true) (question_pieces inhabited clauses) }
{}

/// The pieces of the clauses of a question of pairs are its products: of elements they are exact,
/// and of values they subsume.
pub fn products_are_exact()
    ensures elements { (graph : Graph) (inhabited : List Question → Bool) (question : Question)
        (clauses : List QuestionClause) → DropsEmpty (in_node graph) IsElement inhabited
        → KeepsInhabited (in_node graph) IsElement inhabited
        → ArePairClauses (in_node graph) IsElement question clauses
        → AreProducts (in_node graph) IsElement question
        (pairs_of (question_pieces inhabited clauses)) }
    ensures values { (graph : Graph) (interfaces : Interfaces) (inhabited : List Question → Bool)
        (question : Question) (clauses : List QuestionClause)
        → AreDecided (value_in_node graph interfaces) IsValue
        → DropsEmpty (value_in_node graph interfaces) IsValue inhabited
        → ArePairClauses (value_in_node graph interfaces) IsValue question clauses
        → Cover (value_in_node graph interfaces) IsValue question
        (pairs_of (question_pieces inhabited clauses)) }
{}

/// The pieces of the clauses of a question of XML things are its triples in the same way.
pub fn triples_are_exact()
    ensures elements { (graph : Graph) (inhabited : List Question → Bool) (question : Question)
        (clauses : List QuestionClause) → DropsEmpty (in_node graph) IsElement inhabited
        → KeepsInhabited (in_node graph) IsElement inhabited
        → CoverXml (in_node graph) IsElement question clauses
        → MakeXml (in_node graph) IsElement question clauses
        → AreTriples (in_node graph) IsElement question
        (triples_of (question_pieces inhabited clauses)) }
    ensures values { (graph : Graph) (interfaces : Interfaces) (inhabited : List Question → Bool)
        (question : Question) (clauses : List QuestionClause)
        → AreDecided (value_in_node graph interfaces) IsValue
        → DropsEmpty (value_in_node graph interfaces) IsValue inhabited
        → CoverXml (value_in_node graph interfaces) IsValue question clauses
        → CoverTriples (value_in_node graph interfaces) IsValue question
        (triples_of (question_pieces inhabited clauses)) }
{}
