// Demand 3 of the user's terms, whole: from plan bytes through the table that preparing writes to the record bytes of opening and feeding.
// Definitions and theorems, no code: specs/Demand.antt has the statements, for any calls that keep the promises of their contracts.
#![tactic(auto)]
