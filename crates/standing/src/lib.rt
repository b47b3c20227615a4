// Theorems over the definition of the machine: one that is handed back as it was left is never refused for it. There is no code.
#![tactic(auto)]
