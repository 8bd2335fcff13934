#![tactic(auto)]

// No code: what an equation file means, and that its circuit gives that.
