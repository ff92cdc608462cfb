// Laws alone: a payload that RFC 7159's grammar allows is read to its end.
#![tactic(auto)]
