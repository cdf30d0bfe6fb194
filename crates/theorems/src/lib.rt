// Every theorem over the rules that people sign on, collected in proofs/Theorems.antt. No function.
#![tactic(auto)]
