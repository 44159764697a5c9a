// Why accepted jobs show only right pages: theorems about the definitions, with no code.
#![tactic(auto)]
