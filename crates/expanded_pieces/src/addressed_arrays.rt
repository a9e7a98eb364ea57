//! Laws of the addresses of arrays.
ghost use Rattle.expanded_pieces.specs.AddressedArrays.{CheckedArraysAreAddressed, CheckedProductsFit, ElaboratedProductsFit};

/// No object of the core program of a program without faults has a memory of more than 65,536 words.
pub fn elaborated_products_fit()
    ensures { ElaboratedProductsFit }
{}

/// No array that such a program is expanded to has a memory of more than 65,536 words.
pub fn checked_products_fit()
    ensures { CheckedProductsFit }
{}

/// So addresses of these arrays have fewer than 32 bits.
pub fn checked_arrays_are_addressed()
    ensures { CheckedArraysAreAddressed }
{}
