// Lists of calls on the drives of a frame, for drives of any protocol, and what is to be proved of them. No code:
// definitions and statements in specs/.
#![tactic(auto)]
