// The bytes of a program. Document 02, "One order for edges". There is no code in it: what writes such bytes stands above.
#![tactic(auto)]
