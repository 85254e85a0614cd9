// Request A14, same map, same answers: a theorem about the calls. No code.
#![tactic(auto)]
