use requests::{Reply, Request};

/// A transaction that was carried out: its session, its request and its reply.
#[derive(Clone, Debug, PartialEq, Eq, Drop)]
pub struct Entry {
    /// The session, 0 to 63.
    pub session: u32,
    /// The number of the request, from 0: of a script, that of its record, which the ten Deliveries of a record share; else its
    /// place among the requests that its session asks.
    pub number: u32,
    pub request: Request,
    pub reply: Reply,
}
