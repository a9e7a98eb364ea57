//! Which widths there are, and which words have a width.
ghost use Rattle.std.specs.Prelude.{◌≡◌};
ghost use Rattle.std.specs.List.{list_all};
ghost use Rattle.program_validity.specs.Widths as spec;

pub fn is_width(bits: u8) -> bool
    ensures { result ≡ spec.is_width bits }
{
    bits == 1 || bits == 8 || bits == 16 || bits == 32 || bits == 64
}

pub fn are_widths(widths: &[u8]) -> bool
    ensures { result ≡ list_all spec.is_width widths.now }
{
    for bits in widths {
        if !is_width(*bits) {
            return false;
        }
    }
    true
}

pub fn is_word(bits: u8, word: u64) -> bool
    ensures { result ≡ spec.is_word bits word }
{
    bits >= 64 || word < 1 << bits
}

pub fn are_words(bits: u8, words: &[u64]) -> bool
    ensures { result ≡ list_all (spec.is_word bits) words.now }
{
    for word in words {
        if !is_word(bits, *word) {
            return false;
        }
    }
    true
}
