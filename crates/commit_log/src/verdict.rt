use schema::Tables;

/// The result of replaying a log.
#[derive(Drop)]
pub enum Replay {
    /// For every entry, the check accepts the request, and a machine that carries out the requests one at a time, in
    /// log order, gives the reply. Contains the machine's last tables.
    Equal(Tables),
    /// The first place, from 0, at which the check refuses the request or the reply differs.
    Differs(usize),
}
