// No code: which command lines there are, what each says, and the place at which any other is refused.
#![tactic(auto)]
