// The worked examples of document 01: a table and its one statement, no code.
#![tactic(auto)]
