// The examples that document 01 marks with a star, as theorems: specs/Sheet.antt lists them, for both revisions of the time paper, and proofs/SheetHolds.antt proves the lists.
// Our own stand beside it: of UTC to local in specs/OwnExamples.antt, of local to UTC in OwnShown.antt, of runs in OwnRuns.antt. No code.
#![tactic(auto)]
