/// A message in an inbox, or taken from it.
#[derive(Drop)]
pub struct Sent<T> {
    /// The number of the sender that put it.
    pub sender: u32,
    pub message: T,
}
