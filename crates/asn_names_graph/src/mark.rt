//! How far a search has come with a node.

/// Not met yet; on the path, with so many nodes below it; or done, after so many nodes had come out before its part.
#[derive(Clone, Copy)]
pub(crate) enum Mark {
    New,
    OnPath(usize),
    Done(usize),
}
