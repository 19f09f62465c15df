// Walks, distance and reach over any test of a step: the laws that jobs and nodes share. No function.
#![tactic(auto)]
