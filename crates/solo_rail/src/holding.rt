use cursor_word::Shape;
use machine::View;
use std::collections::LinkedList;

/// What is known of the one seat: the machine's view of it, and the words. No value of it is made.
pub struct Holding<P> {
    pub shape: Shape,
    pub view: View<P>,
    pub words: LinkedList<u64>,
}
