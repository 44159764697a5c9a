// Which jobs and pages pass, and which wrong element is named, is as it was before document 02, F-6: theorems about the definitions, with
// no code.
#![tactic(auto)]
