// The least entries that cover a script are one, and a job with their proposal is accepted whenever any is: theorems about the definitions, with no code.
#![tactic(auto)]
