// What follows from the rules alone: theorems about the definitions of the crate `rules`, in specs/. Holds no function.
#![tactic(auto)]
