// The lawful rows of the four enumerators, their order, and what calls on an enumerator answer; and
// what is proved of that. There is no code here: the definitions are in specs/, the proofs in
// proofs/.

#![tactic(auto)]
