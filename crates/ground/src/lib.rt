// No code: what a test's answer is, and the laws of Bool that every proof above goes on by. It stands
// on nothing, so that who needs no set of slots need not stand on `masks`.
#![tactic(auto)]
