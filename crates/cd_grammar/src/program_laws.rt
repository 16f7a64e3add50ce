//! Laws of the grammar of programs. Each is the contract of a function that does nothing.
ghost use Rattle.cd_grammar.specs.ProgramExamples.{AreProgramExamples, AreWrong, AreUnfinished};
ghost use Rattle.cd_grammar.specs.PatternTexts.{constant_patterns, default_patterns};
ghost use Rattle.cd_grammar.specs.PatternTexts.{chain_patterns, record_patterns, xml_patterns};
ghost use Rattle.cd_grammar.specs.PatternTexts.{sequence_patterns, group_patterns, item_patterns};
ghost use Rattle.cd_grammar.specs.ExprTexts.{constant_exprs, group_exprs, operator_exprs};
ghost use Rattle.cd_grammar.specs.ExprTexts.{comparing_exprs, level_exprs, record_operators};
ghost use Rattle.cd_grammar.specs.ExprTexts.{applied_exprs, sequence_exprs, record_exprs};
ghost use Rattle.cd_grammar.specs.ExprTexts.{xml_exprs};
ghost use Rattle.cd_grammar.specs.QueryTexts.{path_exprs, select_exprs};
ghost use Rattle.cd_grammar.specs.ProgramTexts.{branch_exprs, nested_exprs, let_exprs};
ghost use Rattle.cd_grammar.specs.ProgramTexts.{function_exprs, programs};
ghost use Rattle.cd_grammar.specs.ProgramFaults.{wrong_programs, wrong_patterns, wrong_exprs};
ghost use Rattle.cd_grammar.specs.ProgramFaults.{begun_programs, begun_exprs};

/// Patterns at some texts, so that each line of patterns stands in one: the tree that each writes,
/// and its least depth. Each stands in `let fun f (A->A) x->(let P=x in x)`.
pub fn pattern_examples()
    ensures constants { AreProgramExamples constant_patterns }
    ensures defaults { AreProgramExamples default_patterns }
    ensures chains { AreProgramExamples chain_patterns }
    ensures records { AreProgramExamples record_patterns }
    ensures xml { AreProgramExamples xml_patterns }
    ensures sequences { AreProgramExamples sequence_patterns }
    ensures groups { AreProgramExamples group_patterns }
    ensures items { AreProgramExamples item_patterns }
{}

/// Expressions at some texts in the same way, in `let fun f (A->A) x->(E)`. Operators of one level
/// are one chain, and what is applied stands with all its arguments in one row.
pub fn expression_examples()
    ensures constants { AreProgramExamples constant_exprs }
    ensures groups { AreProgramExamples group_exprs }
    ensures operators { AreProgramExamples operator_exprs }
    ensures comparisons { AreProgramExamples comparing_exprs }
    ensures levels { AreProgramExamples level_exprs }
    ensures record_operators { AreProgramExamples record_operators }
    ensures applied { AreProgramExamples applied_exprs }
    ensures sequences { AreProgramExamples sequence_exprs }
    ensures records { AreProgramExamples record_exprs }
    ensures xml { AreProgramExamples xml_exprs }
    ensures paths { AreProgramExamples path_exprs }
    ensures selects { AreProgramExamples select_exprs }
{}

/// Expressions with branches or functions, and whole programs. A `|` belongs to the branches that
/// stand last before it.
pub fn program_examples()
    ensures branches { AreProgramExamples branch_exprs }
    ensures nested { AreProgramExamples nested_exprs }
    ensures values { AreProgramExamples let_exprs }
    ensures functions { AreProgramExamples function_exprs }
    ensures programs { AreProgramExamples programs }
{}

/// The first token that cannot stand where it does, by its number, and texts that are begun.
pub fn program_fault_examples()
    ensures programs { AreWrong wrong_programs }
    ensures patterns { AreWrong wrong_patterns }
    ensures expressions { AreWrong wrong_exprs }
    ensures begun { AreUnfinished begun_programs }
    ensures begun_expressions { AreUnfinished begun_exprs }
{}
