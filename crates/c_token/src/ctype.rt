/// A type of C that has values: `_Bool`, or an integer of 8, 16, 32 or 64 bits. `char` is signed.
#[derive(Clone, Copy, Debug, PartialEq, Eq)]
pub enum CType {
    Bool,
    Int { signed: bool, bits: u8 },
}
