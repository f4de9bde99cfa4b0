// Words and codewords: definitions and laws only.
#![tactic(auto)]
