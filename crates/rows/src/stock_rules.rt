ghost use Rattle.std.specs.Prelude.{◌≡◌, ◌≤◌};
ghost use Rattle.rows.specs.Restock.{RestockedIsTheOne, restocked};
ghost use Rattle.rows.specs.Brand.{HasOriginalIsExact, brand_of, has_original};
ghost use Rattle.rows.specs.StockInfo.{dist_info_of};

use crate::{LineQuantity, Stock, StockQuantity, Text};

/// The stock of an item after `ordered` units are taken: the quantity that is left if that is at least
/// 10, otherwise 91 more than that (clause 2.4.2.2).
pub fn restock(quantity: StockQuantity, ordered: LineQuantity) -> StockQuantity
    ensures { result ≡ restocked quantity ordered }
{
    let quantity = quantity.get();
    let ordered = ordered.get();
    if quantity >= ordered + 10 {
        StockQuantity::new(quantity - ordered)
    } else {
        StockQuantity::new(quantity + 91 - ordered)
    }
}

/// A law (proved, no effect at run time): `restock` returns the only number that the rule allows.
pub fn restocked_is_the_one()
    ensures { RestockedIsTheOne }
{}

/// Whether the item of an order line is a brand item (`B`) or generic (`G`), clause 2.4.2.2.
#[derive(Clone, Copy, Debug, PartialEq, Eq)]
pub enum BrandGeneric {
    /// `B`
    Brand,
    /// `G`
    Generic,
}

/// `Brand` if I_DATA and S_DATA both contain `ORIGINAL`, otherwise `Generic`.
pub fn brand(i_data: &Text<50>, s_data: &Text<50>) -> BrandGeneric
    ensures { result ≡ brand_of i_data.now s_data.now }
{
    if is_original(i_data) && is_original(s_data) {
        BrandGeneric::Brand
    } else {
        BrandGeneric::Generic
    }
}

/// A law (proved, no effect at run time): the test that `brand` uses is true exactly if the text
/// contains the word.
pub fn has_original_is_exact()
    ensures { HasOriginalIsExact }
{}

fn is_original(text: &Text<50>) -> bool
    ensures { result ≡ has_original text.now }
{
    text.as_str().contains("ORIGINAL")
}

impl Stock {
    /// S_DIST_xx of the district `d_id`, from 1 to 10. The lines of that district's orders contain it
    /// (clause 2.4.2.2).
    pub fn dist_info(&self, d_id: u32) -> &Text<24>
        requires low { 1 ≤ d_id }
        requires high { d_id ≤ 10 }
        ensures { result.now ≡ dist_info_of self.now d_id }
    {
        &self.dist[d_id as usize - 1]
    }
}
