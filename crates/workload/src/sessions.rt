ghost use Rattle.std.specs.Prelude.{◌≡◌, ◌<◌, IsTrue};
ghost use Rattle.std.specs.Option.{ForSome};
ghost use Rattle.schema.specs.Scale.{has_warehouse};

use crate::{Mix, Terminal};
use rows::SESSIONS;
use schema::{DistrictKey, Moment, Scale};

/// The parameters from which the requests of all sessions are drawn.
#[derive(Clone, Copy, Debug, PartialEq, Eq)]
pub struct Workload {
    pub scale: Scale,
    /// The home warehouse of all sessions. If `None`, session 0 is at home in warehouse 1, session 1 in warehouse 2,
    /// and so on; the first warehouse follows the last.
    pub home: Option<u32>,
    /// Whether other warehouses supply lines and other warehouses' customers pay.
    pub remote: bool,
    pub mix: Mix,
    /// The moment of each session's first request. Each other request is one second after the one before it.
    pub start: Moment,
    /// The seed of all draws.
    pub seed: u32,
    /// The number of records in the script of each session, one of which may stand for ten requests (a Delivery).
    pub requests: u32,
    pub ghost of_scale: { ForSome home (λ w_id. IsTrue (has_warehouse scale w_id)) },
}

impl Workload {
    ghost use Rattle.workload.specs.Sessions.{terminal_of};

    /// Returns the terminal of a session, 0 to 63.
    pub fn terminal(&self, session: u32) -> Terminal
        requires { session < SESSIONS }
        ensures { result ≡ terminal_of self.now session }
    {
        let warehouses = self.scale.warehouses;
        let home = match self.home {
            Some(w_id) => DistrictKey {
                w_id,
                d_id: session % 10 + 1,
            },
            None => DistrictKey {
                w_id: session % warehouses + 1,
                d_id: session / warehouses % 10 + 1,
            },
        };
        Terminal {
            scale: self.scale,
            home,
            remote: self.remote,
        }
    }
}
