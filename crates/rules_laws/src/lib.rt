// Laws of the rules: the theorems stand in specs/. There is no code.
#![tactic(auto)]
