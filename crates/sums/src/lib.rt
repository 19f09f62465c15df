// Finite sums, tests as types, the least number that passes a test: the laws that every layer cites. No function.
#![tactic(auto)]
