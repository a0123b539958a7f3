// Facts about the definitions, for the code and the theorems above: antt alone, no function.
#![tactic(auto)]
