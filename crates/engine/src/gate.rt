use requests::Request;

/// A hook that is called while requests are served, and that may hold an executor up. It is not called for a request that the
/// check refuses, nor for one that can't begin since an allocation failed. For a request asked interactively, the thread that asks
/// calls `asked` and `answered`, so they hold only this session up. The engine's contracts hold whatever a gate does.
pub trait Gate {
    /// The session's request of this number is in flight for the first time.
    fn asked(&self, session: u32, number: u32, request: &Request);

    /// An executor is about to take the log's lock for this request.
    fn commit(&self, session: u32, number: u32, request: &Request);

    /// The request has its answer, and the session goes on.
    fn answered(&self, session: u32, number: u32, request: &Request);
}

/// A gate that does nothing.
#[derive(Clone, Copy, Debug, Drop)]
pub struct OpenGate;

impl Gate for OpenGate {
    fn asked(&self, _session: u32, _number: u32, _request: &Request) {}

    fn commit(&self, _session: u32, _number: u32, _request: &Request) {}

    fn answered(&self, _session: u32, _number: u32, _request: &Request) {}
}

/// A borrowed gate: its owner can inspect it afterwards.
impl<G: Gate> Gate for &G {
    fn asked(&self, session: u32, number: u32, request: &Request) {
        (**self).asked(session, number, request);
    }

    fn commit(&self, session: u32, number: u32, request: &Request) {
        (**self).commit(session, number, request);
    }

    fn answered(&self, session: u32, number: u32, request: &Request) {
        (**self).answered(session, number, request);
    }
}
