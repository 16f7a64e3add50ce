//! What operators do with things: definitions, for typing and for runs.
#![tactic(auto)]
