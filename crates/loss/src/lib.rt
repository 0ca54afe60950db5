// What power loss leaves: theorems about cuts, recovery and histories, in specs/ and proofs/. Holds no function.
#![tactic(auto)]
