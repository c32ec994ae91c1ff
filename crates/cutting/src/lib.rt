// No code: laws of a tree cut along the way to a leaf edge, and of the nodes right of it that become free.
#![tactic(auto)]
