// No code: what a removal's steps on the list of nodes make of a tree that stands there.
#![tactic(auto)]
