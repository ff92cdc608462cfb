// Laws alone: reading a payload byte by byte is RFC 7159's grammar.
#![tactic(auto)]
