// The buyer's demands as theorems over the contracts of the exported calls themselves, in specs/: what C sees of them, number by number and struct by
// struct. Promises.antt has those contracts on plain lists, FromContracts.antt that they are what the check reads. No code stands here.
#![tactic(auto)]
