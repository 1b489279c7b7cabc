//! Definitions of the gadget and of key switching; no function stands here.
//!
//! A residue is cut into digits, in base 2^b or balanced around 0, which times the weights 2^(b*i) make it up
//! again. A switch key for z has a row (b, a) for each digit, whose phase is a weight times z but for noise; a
//! switch sums digits times rows, and so has the phase f * z but for small digits times noise (Fan and
//! Vercauteren 2012, section 4, relinearisation in its first version). A rotation takes X to X^e and switches
//! back to the secret. `gadget_laws` proves what follows; nothing is said of hiding.
#![tactic(auto)]
