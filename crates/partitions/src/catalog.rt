ghost use Rattle.std.specs.Prelude.{◌≡◌, IfOk};
ghost use Rattle.std.specs.Option.{option_copied};
ghost use Rattle.std.specs.FinMap as map;

use schema::{Item, NoMemory, Scale};
use std::alloc::Global;
use std::marker::Model;
use std::sync::Arc;

/// What the partitions of all warehouses share: the scale of the tables, and ITEM, which is never
/// written.
#[derive(Drop)]
pub struct Catalog {
    pub(crate) scale: Scale,
    pub(crate) items: Arc<Vec<Item>, Global>,
}

impl Model for Catalog {
    ghost use Rattle.std.specs.Prelude.{◌≡◌, refl, length};
    ghost use Rattle.std.specs.Coded.{code_by, coded×, coded_ℕ};
    ghost use Rattle.std.specs.Arc.{arc_value};
    ghost use Rattle.std.specs.List.{zip};
    ghost use Rattle.std.specs.FinMap as map;
    ghost use Rattle.rows.specs.contracts.records.Item as item;
    ghost use Rattle.schema.specs.contracts.scale.Scale as scale_kind;
    ghost use Rattle.schema.specs.Scale.{item_ids};
    ghost use Rattle.partitions.specs.Parts.{SharedTables};

    ghost Value = { SharedTables };

    ghost coded = { code_by _
        (coded× scale_kind.the_row.coded (map.code coded_ℕ item.the_row.coded))
        (λ s. (s.scale, s.items))
        (λ p. record { scale = p.0; items = p.1 })
        (λ _. refl) };

    ghost view = { λ c. record { scale = c.scale; items = map.from_entries (zip (item_ids c.scale) (arc_value c.items).items) } };

    ghost invariant = { λ c. length (arc_value c.items).items ≡ c.scale.items };
}

impl Catalog {
    /// The scale of the tables.
    pub fn scale(&self) -> Scale
        ensures { result ≡ self.now.scale }
    {
        self.scale
    }

    /// Returns the item's row, `None` if there is none.
    pub(crate) fn item(&self, i_id: u32) -> Option<&Item>
        ensures { option_copied result ≡ map.get self.now.items i_id }
    {
        self.items.get(self.scale.item_slot(i_id)?)
    }

    /// Returns the same catalog for another partition. The items are shared, not copied. An error
    /// changes nothing.
    pub fn share(&self) -> Result<Catalog, NoMemory>
        ensures { IfOk result (λ shared. shared ≡ self.now) }
    {
        Ok(Catalog {
            scale: self.scale,
            items: Arc::try_clone(&self.items)?,
        })
    }
}
