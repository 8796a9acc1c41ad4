//! What calls on local files make of the files, where they succeed and where they fail. Definitions, and lemmas on them.
#![tactic(auto)]
