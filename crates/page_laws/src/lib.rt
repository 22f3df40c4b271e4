// The laws of the page: that it is in lines of 32 columns, that no number is cut, that it determines the plan, and the ways out of a call. Theorems stand in specs/; there is no code.
#![tactic(auto)]
