// No code: what an insertion's steps on the list of nodes make of a tree that stands there.
#![tactic(auto)]
