// The worked cases of the papers, by computing the definitions. No code.
#![tactic(auto)]
