// The two answers for who links the library: a radio's firmware, which keeps the table as bytes.
// It has no code: specs/ says what a run of the firmware is, proofs/ that it is a history.
#![tactic(auto)]
