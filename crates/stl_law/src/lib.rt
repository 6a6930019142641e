// What was written is read back, and what was read is written back: theorems, no code.
#![tactic(auto)]
