// Document 01's plans A to H, and four of our own, for those who prove what is said of them. No code.
#![tactic(auto)]
