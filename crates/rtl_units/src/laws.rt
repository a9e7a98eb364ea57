//! What follows from the parts' definitions.
ghost use Rattle.rtl_units.specs.Products.{GivesProducts, MultiplierStays};

/// A multiplier gives the products of its operands, two cycles later.
pub fn products_law()
    ensures products { GivesProducts }
    ensures stays { MultiplierStays }
{}
