// Demand 3: after every list of calls on a tally, each answer, each saved record and the tally are those of document 01's pencil account.
#![tactic(auto)]
