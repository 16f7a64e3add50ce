//! LR automata over grammars that are data: what a machine whose tables the validator accepts answers of tokens, as definitions and laws alone.
#![tactic(auto)]
