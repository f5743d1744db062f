//! What the two ends of a lane do, in one order.

/// A move of an end. No value of it is made: contracts alone speak of moves.
pub enum Move {
    /// The port sends an item.
    Send,
    /// The intake takes an item.
    Take,
    /// The port looks: it loads how many items were taken.
    PortLook,
    /// The intake looks: it loads how many items were sent, and whether the lane is closed.
    IntakeLook,
}
