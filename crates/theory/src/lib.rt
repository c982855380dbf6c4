// No code: parse trees, what they spell, and their listings.
#![tactic(auto)]
