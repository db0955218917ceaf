// What each adapter means over the steps of the sources below it, and the laws proved of that.
// There is no code here: the definitions are in specs/, the proofs in proofs/.

#![tactic(auto)]
