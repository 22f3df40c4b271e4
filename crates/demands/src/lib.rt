// The three demands on the planner and the judge, and what the change requests ask to be shown, as theorems: specs/Lib.antt. There is no code.
#![tactic(auto)]
