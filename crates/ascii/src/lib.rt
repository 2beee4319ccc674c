// Texts in definitions, quoted: what the bytes of a text are. There is no code here.
#![tactic(auto)]
