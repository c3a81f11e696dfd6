// Sentences of documents 01 and 02 said a second time, apart from the definitions that the contracts cite, and proved of them. They stand in specs/; there is no function here.

#![tactic(auto)]
