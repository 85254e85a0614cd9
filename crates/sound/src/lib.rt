// What a sound image is: specs and laws alone.
#![tactic(auto)]
