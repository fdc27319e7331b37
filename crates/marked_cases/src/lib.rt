// The marked cases of document 01 are a statement on the definitions alone: there is no code here.
#![tactic(auto)]
