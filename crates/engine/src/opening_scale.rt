ghost use Rattle.std.specs.Prelude.{◌≡◌};

use commit_log::Names;
use schema::Scale;
use std::marker::{Model, PhantomData};

/// The scale of the tables from which an engine is opened.
///
/// Contracts see the scale. Invariant: it is the scale of the tables at J's opening.
#[derive(Drop)]
pub(crate) struct OpeningScale<J: Names> {
    scale: Scale,
    names: PhantomData<J>,
}

impl<J: Names> Model for OpeningScale<J> {
    ghost use Rattle.std.specs.Prelude.{◌≡◌};
    ghost use Rattle.schema.specs.declared.scale.Scale.{Scale as Counts};

    ghost Value = { Counts };

    ghost view = { λ s. s.scale };

    ghost invariant = { λ s. s.scale ≡ J.opening.scale };
}

impl<J: Names> OpeningScale<J> {
    pub(crate) fn new(scale: Scale) -> OpeningScale<J>
        requires { scale ≡ J.opening.scale }
        ensures { result ≡ scale }
    {
        OpeningScale {
            scale,
            names: PhantomData,
        }
    }

    /// The scale.
    pub(crate) fn get(&self) -> &Scale
        ensures { result.now ≡ J.opening.scale }
    {
        &self.scale
    }
}
