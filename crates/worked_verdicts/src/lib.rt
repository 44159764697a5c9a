// The marked cases of document 01 as a table of bytes and verdicts.
#![tactic(auto)]
