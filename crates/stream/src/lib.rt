// Messages off a stream: bytes are taken as a link hands them over, cut anywhere, and come out as whole messages. The caller
// lends the buffer and keeps the place in it; what is left of a message waits there for the next bytes.
#![tactic(auto)]

pub mod place;
pub mod reader;
pub mod taking;
pub mod yielding;
