// Cases by tests, and lists and numbers by tests: definitions in specs/, their laws in proofs/. Nothing here knows of bytes, areas,
// hosts or heads, and it rests on nothing but the kit. There is no code.
#![tactic(auto)]
