// Calls worked through the definition: rows that the checker computes and that take longer. There is no function here.
#![tactic(auto)]
