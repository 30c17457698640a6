//! What has been read of an expression, up to its innermost open parenthesis.

ghost use Rattle.std.specs.Prelude.{◌≡◌};
ghost use Rattle.affine_text.specs.Reading.{new_level, level_from, signed};
ghost use Rattle.affine_text.specs.Feeding.{TakesFactor, EndsProduct};

use crate::reading::collected::{Product, Sum};
use crate::reading::fault::NoProduct;
use mlir_base::Memory;
use std::alloc::Global;

/// A sum, and the product that it is to be joined with next.
#[derive(Drop)]
pub struct Level {
    pub sum: Sum,
    /// Whether the product is taken from the sum.
    pub subtracts: bool,
    pub product: Product,
    /// Whether the next factor's sign is turned.
    pub negative: bool,
}

/// The product with its sign turned where `turns` says so.
fn signed(product: Product, turns: bool) -> Product
    ensures { result ≡ signed turns product }
{
    if turns { product.negated() } else { product }
}

impl Level {
    pub fn new(alloc: Global) -> Level
        ensures { result ≡ new_level }
    {
        Level::from_sum(alloc, Sum::new(alloc), false)
    }

    /// A sum before its next product.
    pub fn from_sum(alloc: Global, sum: Sum, subtracts: bool) -> Level
        ensures { result ≡ level_from sum subtracts }
    {
        Level {
            sum,
            subtracts,
            product: Product::of_number(alloc, 1),
            negative: false,
        }
    }

    /// Multiplies the product by a factor.
    pub fn take_factor(self, factor: Product) -> Result<Level, NoProduct>
        ensures { TakesFactor self factor result }
    {
        match self.product.times(signed(factor, self.negative)) {
            Ok(product) => Ok(Level {
                sum: self.sum,
                subtracts: self.subtracts,
                product,
                negative: false,
            }),
            Err(e) => Err(e),
        }
    }

    /// The sum with the product. None: a number leaves plus and minus 2^31.
    pub fn end_product(self) -> Result<Option<Sum>, Memory>
        ensures { EndsProduct self result }
    {
        let mut sum = self.sum;
        match sum.add(&signed(self.product, self.subtracts)) {
            Ok(true) => Ok(Some(sum)),
            Ok(false) => Ok(None),
            Err(e) => Err(e),
        }
    }
}
