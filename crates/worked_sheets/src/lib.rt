// The sheets that 01 works through, as one table: the theorem stands in specs/. There is no code.
#![tactic(auto)]
