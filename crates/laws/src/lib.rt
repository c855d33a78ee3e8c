// What follows from the definitions of `rules`, in proofs/: laws, demand 3, the promises. There is no code here.
#![tactic(auto)]
