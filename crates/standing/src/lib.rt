// No code: when a tree stands in the list of nodes, and what the store's changes keep of it. The map layer's loops build on these laws.
#![tactic(auto)]
