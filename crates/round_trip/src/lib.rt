// Laws that reading is exact: what is written out as bytes is read back as itself, and what is read was written. There is no code here.
#![tactic(auto)]
