// The table of document 01, "Promises and the checked examples", proved as a whole from the definitions. It stands in specs/; there is no function here.

#![tactic(auto)]
