// Laws of lists, tests and choices that several crates use. There is no code here.
#![tactic(auto)]
