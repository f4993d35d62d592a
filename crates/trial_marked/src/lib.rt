// Document 01's fourteen bench cases, as one table about the definitions of reading, writing and finishing (specs/Cases.antt). There is no code here.
#![tactic(auto)]
