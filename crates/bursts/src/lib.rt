// The burst figure: definitions and laws only, no code.
#![tactic(auto)]
