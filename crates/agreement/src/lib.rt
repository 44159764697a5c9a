// Laws of the definitions: reading ends, a page has exactly one verdict, a job at most one. There is no code here.
#![tactic(auto)]
