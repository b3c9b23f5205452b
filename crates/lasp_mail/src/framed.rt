//! What a body has to fit.

/// A body with a frame, plain data that all bodies of one mailbox share.
pub trait Framed {
    type Frame;

    ghost frame: { Self → Self.Frame };
}
