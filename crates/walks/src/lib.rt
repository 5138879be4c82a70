// The walk of straight code, for functions that the checker's own walk does not cover: laws that hold of every such function, whatever it is for. There is no function here.
#![tactic(auto)]
