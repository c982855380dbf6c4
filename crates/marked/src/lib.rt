// No code: the marked cases of the format's document, shown for the definitions.
#![tactic(auto)]
