// The faults that the judge names, and the laws of the judge: definitions and theorems stand in specs/. There is no code.
#![tactic(auto)]
