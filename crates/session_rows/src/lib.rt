//! The histories of some short scripts, and the same by the definitions of `session_rules`; no function stands here.
//!
//! Each lemma of `proofs` takes one script: who is present, what the circuits want, what the lanes do. It
//! gives every call of the serial history with its reply, and the state at the end, and is proved by
//! computing. The lists were worked out apart from the definitions, so that a slip in the rules of issue, in
//! a reply or in the order of settling shows. Others give what the rules say to single calls, refused ones among
//! them, what each deed makes of a state, and what a session has to know of circuits. What states and instances
//! have to keep, what is known where something is done, and which calls follow a line, a lane or a script, is
//! shown at some that do and at some that don't. Nothing is said of other scripts: the laws that hold of all of
//! them stand in `session_rules`.
#![tactic(auto)]
