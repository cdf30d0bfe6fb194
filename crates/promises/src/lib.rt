// What a reader of the rules signs on: which refusal is given exactly when, that no second answer fits, and what stays. No function.
#![tactic(auto)]
