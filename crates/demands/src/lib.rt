// The kinds of job as one, and what holds of every job: definitions and theorems, no code.
#![tactic(auto)]
