use std::marker::Brand;

/// Identifies the data that a log, its passes and its sessions have in common. Ghost data only: the call that opens a
/// log chooses it, and everything that belongs to the log has it as a type parameter.
pub trait LogNames {
    ghost use Rattle.std.specs.Prelude.{ℕ};
    ghost use Rattle.atomic_table.specs.Seated.{TableId};
    ghost use Rattle.schema.specs.Database.{Database};

    /// The tables at the opening of the log.
    ghost opening: { Database };
    /// The most entries that the log has.
    ghost most: { ℕ };
    /// The table of the log's length.
    ghost length: { TableId };
    /// The table of the agreement on what each session has logged.
    ghost mine: { ℕ → TableId };
    /// The table of the agreement on what each session asks.
    ghost asks: { ℕ → TableId };
}

impl LogNames for Brand {
    ghost use Rattle.commit_log.specs.NoTables.{no_tables, no_table};

    ghost opening = { no_tables };

    ghost most = { 1 };

    ghost length = { no_table };

    ghost mine = { λ session. no_table };

    ghost asks = { λ session. no_table };
}
