use std::marker::Brand;

/// Identifies the data that the desks of several threads have in common. Ghost data only: the call that opens the
/// inboxes chooses it, and each of their desks has it as a type parameter.
pub trait InboxNames {
    ghost use Rattle.std.specs.Prelude.{ℕ};
    ghost use Rattle.atomic_table.specs.Seated.{TableId};

    /// The number of inboxes, one for each desk.
    ghost inboxes: { ℕ };
    /// The table of the inbox of each desk.
    ghost inbox: { ℕ → TableId };
}

impl InboxNames for Brand {
    ghost use Rattle.queues.specs.NoInbox.{no_inbox};

    ghost inboxes = { 0 };

    ghost inbox = { λ desk. no_inbox };
}
