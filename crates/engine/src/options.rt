use commit_log::Limits;
use range_moves::MoveOrder;
use requests::Script;

/// What is served, and how.
#[derive(Clone, Copy, Drop)]
pub struct ServeOptions<'a> {
    /// The scripts. Script s is session s, which asks its requests one after the other.
    pub scripts: &'a [Script],
    /// How many further sessions ask interactively: at most 64 with those of the scripts.
    pub sessions: usize,
    /// How many executors share the warehouses: 1 or more.
    pub executors: u32,
    /// How often a request is asked at most that is refused with Died or NoMemory.
    pub tries: u32,
    /// The limits of the log and of the executors' inboxes. A message whose inbox is full waits at its sender.
    pub limits: Limits,
    /// The moves that are made meanwhile, one after the other.
    pub moves: &'a [MoveOrder],
}
