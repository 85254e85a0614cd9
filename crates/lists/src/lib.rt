// Definitions and laws alone, for the specs of the crates above: what a test tells, and decisions.
#![tactic(auto)]
