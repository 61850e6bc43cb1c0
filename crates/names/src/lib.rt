// Laws only: the order and the equality that are derived for names are those of the rules.
#![tactic(auto)]
