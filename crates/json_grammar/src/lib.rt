// What JSON and UTF-8 are, by their RFCs, with no cursor and no code: definitions, and words that they allow or do not.
#![tactic(auto)]
