// Long theorems over the definition. There is no function here.
#![tactic(auto)]
