// No code: the laws of the walking cursor.
#![tactic(auto)]
