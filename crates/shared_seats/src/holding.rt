//! What a seat of the shared words stands for.
use cursor_word::Shape;
use machine::View;
use std::collections::LinkedList;

/// A seat's number, and what the machine knows of the seat.
pub struct Numbered<P> {
    pub number: u64,
    pub view: View<P>,
}

/// The shape of the queue, and of each seat of the queue that this one stands for its number, what
/// the machine knows of it and what it remembers beside. No value of it is made. A seat that
/// another took in stands for none.
pub struct Holding<P, M> {
    pub shape: Shape,
    pub seats: LinkedList<Numbered<P>>,
    pub memories: LinkedList<M>,
}
