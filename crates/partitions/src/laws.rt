//! Proved laws of parts, as functions with empty bodies.
ghost use Rattle.partitions.specs.Laws.{CutPartsMakeTheTables, WholeHasEachPart};

/// The parts into which tables are cut make these tables again.
pub fn cut_parts_make_the_tables()
    ensures { CutPartsMakeTheTables }
{}

/// The tables that parts make have each of these parts as their own.
pub fn whole_has_each_part()
    ensures { WholeHasEachPart }
{}
