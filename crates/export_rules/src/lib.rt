// What the exports give, as lists of numbers, and the theorems about it. There is no code here.
#![tactic(auto)]
