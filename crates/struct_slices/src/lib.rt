// Words for what a function makes of a lent slice of structs, and laws about them, for other crates to cite: README.md says how. It has no function.
#![tactic(auto)]
