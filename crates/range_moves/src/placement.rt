//! The placement of the slice of a warehouse, and the executors' notes of it.
ghost use Rattle.std.specs.Prelude.{◌≡◌, ◌<◌, ◌↔◌, IsTrue, length};
ghost use Rattle.range_moves.specs.Placements.{comes_to, fetched_from, found_in, placement_installed, placement_moved, placement_taken, is_at};

/// The place of the slice of a warehouse.
#[derive(Clone, Copy, Debug, PartialEq, Eq)]
pub enum Whereabouts {
    /// At this executor.
    Rests(u32),
    /// At executor `here`, with a fetch on its way to it; the slice goes to executor `to` then.
    Leaves { here: u32, to: u32 },
    /// In a parcel on its way to this executor.
    Travels(u32),
}

impl Whereabouts {
    /// Returns the executor that has the slice, or its destination if it is to go or on its way.
    pub(crate) fn comes_to(&self) -> u32
        ensures { result ≡ comes_to self.now }
    {
        match self {
            Whereabouts::Rests(here) => *here,
            Whereabouts::Leaves { to, .. } | Whereabouts::Travels(to) => *to,
        }
    }

    /// Returns whether the executor has the slice.
    pub(crate) fn is_at(&self, executor: u32) -> bool
        ensures { result ≡ is_at self.now executor }
    {
        match self {
            Whereabouts::Rests(here) | Whereabouts::Leaves { here, .. } => executor == *here,
            Whereabouts::Travels(_) => false,
        }
    }

    /// Returns the executor from which the slice has to be fetched to get to executor `to`; `None` if it is there.
    pub(crate) fn fetched_from(&self, to: u32) -> Option<u32>
        ensures { result ≡ fetched_from self.now to }
    {
        if self.is_at(to) {
            None
        } else {
            Some(self.comes_to())
        }
    }
}

/// The placement of the slice of a warehouse.
#[derive(Clone, Copy, Debug, PartialEq, Eq)]
pub struct Placement {
    pub place: Whereabouts,
    /// By executor number: the executor to which it last sent the slice, since a move last brought the slice there;
    /// `None` if there is none.
    pub notes: [Option<u32>; 16],
}

impl Placement {
    /// Returns what an executor finds of the slice.
    pub(crate) fn find(&self, executor: u32) -> Found
        ensures { result ≡ found_in self.now executor }
    {
        if self.place.is_at(executor) {
            return Found::Here;
        }
        match self.notes.get(executor as usize) {
            Some(Some(to)) => Found::Went(*to),
            _ => Found::Unknown,
        }
    }

    /// Returns the placement after a move to an executor begins: the executor's note is cleared, and the slice stays if
    /// it is there.
    pub(crate) fn moved(&self, to: u32) -> Placement
        requires { to < 16 }
        ensures { result ≡ placement_moved self.now to }
    {
        let place = match self.place.fetched_from(to) {
            None => self.place,
            Some(here) => Whereabouts::Leaves { here, to },
        };
        let mut notes = self.notes;
        notes[to as usize] = None;
        Placement { place, notes }
    }

    /// Returns the placement after executor `here` took the slice out and noted its destination `to`.
    pub(crate) fn taken(&self, here: u32, to: u32) -> Placement
        requires { here < 16 }
        ensures { result ≡ placement_taken self.now here to }
    {
        let mut notes = self.notes;
        notes[here as usize] = Some(to);
        Placement {
            place: Whereabouts::Travels(to),
            notes,
        }
    }

    /// Returns the placement after an executor installed the slice.
    pub(crate) fn installed(&self, here: u32) -> Placement
        ensures { result ≡ placement_installed self.now here }
    {
        Placement {
            place: Whereabouts::Rests(here),
            notes: self.notes,
        }
    }
}

/// What an executor finds of a slice.
#[derive(Clone, Copy, Debug, PartialEq, Eq)]
pub enum Found {
    /// The executor has the slice.
    Here,
    /// The executor noted that the slice went to this executor.
    Went(u32),
    /// Neither. The slice is on its way here.
    Unknown,
}
