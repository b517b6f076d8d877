//! Strange frames, which aren't heard.

/// A frame is strange: the node doesn't hear its item, its column isn't there or arrives at another time, or it contradicts
/// what has been heard.
#[derive(Clone, Copy, Debug, PartialEq, Eq)]
pub struct StrangeFrame;
