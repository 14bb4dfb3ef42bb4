// Cases worked by hand, as one table of statements about the definitions, and the one theorem that all of them
// hold.
#![tactic(auto)]
