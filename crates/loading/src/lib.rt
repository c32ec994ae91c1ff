// No code: laws of loading a sorted run, of cutting off the upper part and of joining, as functions on states.
#![tactic(auto)]
