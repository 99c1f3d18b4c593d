// Walks letter by letter before they are bytes: the plain walk, the record and its rule, and demand 3. Definitions and theorems, no code.
#![tactic(auto)]
