//! The prefixes of strictly rising names as the nodes of a graph: its table, that it is lawful, and that its keys are the names.
//! No code runs here: the list's questions are proved to answer by this table.
#![tactic(auto)]
