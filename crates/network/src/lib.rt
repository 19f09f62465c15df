// The network and its rounds as plain mathematics: paths, rounds, cuts, the bound on rounds and the one best set. No function.
#![tactic(auto)]
