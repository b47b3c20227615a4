// Document 01's cases that are marked to be proved, through the definition of the machine. There is no code.
#![tactic(auto)]
