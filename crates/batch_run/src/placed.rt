/// An answer with the place of its task.
#[derive(Drop)]
pub struct Placed<A> {
    pub place: u32,
    pub answer: A,
}
