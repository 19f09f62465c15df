// The three demands on every answer, as theorems over what the functions promise. No function.
//
// specs/Demands.antt states them, proofs/Demands.antt has the theorems.
#![tactic(auto)]
